// The sheet as Rust: a struct each, its numbers as constants, and an assertion for every offset and size.
#![tactic(auto)]

ghost use Rattle.std.specs.Prelude.{length, replicate, reverse};
ghost use Rattle.ir_records.specs.Kinds.{scalar_number};
ghost use Rattle.sheet_names.specs.declared.Sheet.{Sheet};
ghost use Rattle.sheet_output.specs.Written.{Writes};
ghost use Rattle.sheet_dimensions.specs.Extents.{inside_of, IsOf};
ghost use Rattle.sheet_rust.specs.Text.{rust_scalar_text, inside_text, closes_text, dimensions_text, type_text};
ghost use Rattle.sheet_rust.specs.Text.{rust_open_text, rust_none_text, rust_gap_text, rust_member_text, impl_text, rust_numbers_text};
ghost use Rattle.sheet_rust.specs.Text.{rust_offset_text, rust_size_text, rust_assertion_text};

use ir_records::ScalarKind;
use sheet_dimensions::{Base, Dimensions};
use sheet_names::{Member, Type};
use sheet_output::{Unused, Writer};
use sheet_types::Scalar;
use std::io::Write;

/// What stands before the first struct.
pub const START: &[u8] =
    b"// Made by sheet. The assertions hold where the host's structs are those of the kernel.\n";

// The type of a scalar. A host has no f16: its bits are a u16.
fn put_scalar<W: Write>(out: &mut Writer<W>, scalar: Scalar)
    ensures { Writes W.contents out.old (rust_scalar_text (scalar_number scalar.kind) scalar.width) out.new }
{
    match scalar {
        Scalar {
            kind: ScalarKind::Sint | ScalarKind::Uint,
            ..
        } => { sheet_types::put_scalar(out, scalar) }
        Scalar { width: 2, .. } => out.put_text(b"u16"),
        _ => out.put_with(b"f", scalar.bits(), b""),
    }
}

pub fn put_open<W: Write>(out: &mut Writer<W>, t: Type)
    ensures { Writes W.contents out.old (rust_open_text t.entry.sheet t.entry.i) out.new }
{
    out.put_text(
        b"
#[repr(C)]
#[derive(Clone, Copy)]
#[allow(dead_code, non_camel_case_types, non_snake_case)]
pub struct ",
    );
    sheet_identifiers::put_type(out, t);
    out.put_text(b" {\n");
}

// A struct that has no form for a host.
pub fn put_none<W: Write>(out: &mut Writer<W>, t: Type)
    ensures { Writes W.contents out.old (rust_none_text t.entry.sheet t.entry.i) out.new }
{
    out.put_text(b"\n// struct ");
    sheet_identifiers::put_type(out, t);
    out.put_text(sheet_dimensions::NO_FORM);
    out.put_byte(b'\n');
}

pub fn put_gap<W: Write>(out: &mut Writer<W>, unused: Unused)
    ensures { Writes W.contents out.old (rust_gap_text out.old.markup unused.start unused.bytes) out.new }
{
    out.put_two(
        b"    pub unused_at_",
        unused.start,
        b": [u8; ",
        unused.bytes,
        b"],\n",
    );
}

// The type inside the dimensions.
fn put_base<W: Write>(out: &mut Writer<W>, base: Base)
    ensures { (sheet : Sheet) → IsOf sheet base.entry → Writes W.contents out.old (inside_text sheet (inside_of base.entry)) out.new }
{
    match base {
        Base::Scalar(scalar) => put_scalar(out, scalar),
        Base::Struct(t) => sheet_identifiers::put_type(out, t),
    }
}

// The start of each array.
fn put_starts<W: Write>(out: &mut Writer<W>, extents: &[Option<u64>])
    ensures { Writes W.contents out.old (replicate (length extents.now) 91) out.new }
{
    for _ in extents {
        out.put_byte(b'[');
    }
}

// The end of each array, from the innermost on. A runtime-sized array has its first element here.
fn put_ends<W: Write>(out: &mut Writer<W>, extents: &[Option<u64>])
    ensures { Writes W.contents out.old (closes_text (reverse extents.now)) out.new }
{
    for n in extents.iter().rev() {
        out.put_with(b"; ", n.unwrap_or(1), b"]");
    }
}

// The type of a member, its dimensions from the innermost on.
fn put_dimensioned<W: Write>(out: &mut Writer<W>, dimensions: Dimensions)
    ensures { (sheet : Sheet) → IsOf sheet dimensions.entry.base → Writes W.contents out.old (dimensions_text sheet dimensions.entry) out.new }
{
    put_starts(out, dimensions.as_slice());
    put_base(out, dimensions.base);
    put_ends(out, dimensions.as_slice());
}

// The type of a member.
fn put_type<W: Write>(out: &mut Writer<W>, t: Type)
    ensures { Writes W.contents out.old (type_text t.entry.sheet t.entry.i) out.new }
{
    match sheet_dimensions::of_type(t) {
        Some(dimensions) => put_dimensioned(out, dimensions),
        None => out.put_with(b"[u8; ", u64::from(t.size()), b"]"),
    }
}

// The line of a member.
pub fn put_member<W: Write>(out: &mut Writer<W>, member: Member)
    ensures { Writes W.contents out.old (rust_member_text out.old.markup member.entry) out.new }
{
    let t = member.own_type();
    out.put_text(b"    pub ");
    sheet_identifiers::put_member(out, member);
    out.put_text(b": ");
    put_type(out, t);
    out.put_with(b", // ", u64::from(member.offset), b": ");
    sheet_types::put_type(out, t);
    out.put_byte(b'\n');
}

fn put_impl<W: Write>(out: &mut Writer<W>, t: Type)
    ensures { Writes W.contents out.old (impl_text t.entry.sheet t.entry.i) out.new }
{
    out.put_text(b"}\n#[allow(dead_code)]\nimpl ");
    sheet_identifiers::put_type(out, t);
    out.put_text(b" {\n");
}

// After the members: the numbers of the struct, up to its offsets.
pub fn put_numbers<W: Write>(out: &mut Writer<W>, t: Type)
    ensures { Writes W.contents out.old (rust_numbers_text t.entry.sheet t.entry.i) out.new }
{
    put_impl(out, t);
    out.put_with(b"    pub const SIZE: usize = ", u64::from(t.size()), b";\n");
    out.put_with(
        b"    pub const ALIGNMENT: usize = ",
        u64::from(t.alignment()),
        b";\n",
    );
    out.put_with(
        b"    pub const OFFSETS: [usize; ",
        u64::from(t.count()),
        b"] = [\n",
    );
}

pub fn put_offset<W: Write>(out: &mut Writer<W>, member: Member)
    ensures { Writes W.contents out.old (rust_offset_text out.old.markup member.entry) out.new }
{
    out.put_with(b"        ", u64::from(member.offset), b",\n");
}

// The end of the constants, and the assertion of the size.
pub fn put_size<W: Write>(out: &mut Writer<W>, t: Type)
    ensures { Writes W.contents out.old (rust_size_text t.entry.sheet t.entry.i) out.new }
{
    out.put_text(b"    ];\n}\nconst _: () = assert!(::core::mem::size_of::<");
    sheet_identifiers::put_type(out, t);
    out.put_with(b">() == ", u64::from(t.size()), b");\n");
}

// The assertion of a member's offset.
pub fn put_assertion<W: Write>(out: &mut Writer<W>, member: Member)
    ensures { Writes W.contents out.old (rust_assertion_text out.old.markup member.entry) out.new }
{
    out.put_text(b"const _: () = assert!(::core::mem::offset_of!(");
    sheet_identifiers::put_type(out, member.of);
    out.put_text(b", ");
    sheet_identifiers::put_member(out, member);
    out.put_with(b") == ", u64::from(member.offset), b");\n");
}
