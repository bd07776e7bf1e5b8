// A C header of the sheet: a struct each, with padding, and an assertion for every offset and size.
#![tactic(auto)]

ghost use Rattle.std.specs.Prelude.{◌≡◌};
ghost use Rattle.ir_records.specs.Record.{type_word, struct_members};
ghost use Rattle.ir_rows.specs.Rows.{row_word};
ghost use Rattle.sheet_names.specs.Runtime.{is_runtime};
ghost use Rattle.ir_records.specs.Kinds.{scalar_number};
ghost use Rattle.sheet_names.specs.declared.Sheet.{Sheet};
ghost use Rattle.sheet_output.specs.Written.{Writes};
ghost use Rattle.sheet_dimensions.specs.Extents.{in_use, inside_of, IsOf};
ghost use Rattle.sheet_c.specs.Text.{c_scalar_text, tag_text, inside_text, dimension_text, dimensions_text, bytes_text, declared_text};
ghost use Rattle.sheet_c.specs.Text.{c_open_text, c_none_text, c_gap_text, c_member_text, c_offset_text, size_text, step_text, c_end_text};
ghost use Rattle.sheet_c.specs.Last.{is_open_at, last_byte_of};

use ir_records::ScalarKind;
use sheet_dimensions::{Base, Dimensions};
use sheet_names::{Member, Type};
use sheet_output::{Unused, Writer};
use sheet_types::Scalar;
use std::io::Write;

/// What stands before the first struct.
pub const START: &[u8] =
    b"/* Made by sheet. The assertions hold where the host's structs are those of the kernel. */
#pragma once
#include <stddef.h>
#include <stdint.h>
";

/// The end of a struct.
pub const CLOSE: &[u8] = b"};\n";

// The type of a scalar. A host has no f16: its bits are an uint16_t.
fn put_scalar<W: Write>(out: &mut Writer<W>, scalar: Scalar)
    ensures { Writes W.contents out.old (c_scalar_text (scalar_number scalar.kind) scalar.width) out.new }
{
    let bits = scalar.bits();
    match scalar {
        Scalar {
            kind: ScalarKind::Sint,
            ..
        } => out.put_with(b"int", bits, b"_t"),
        Scalar {
            kind: ScalarKind::Uint,
            ..
        } => out.put_with(b"uint", bits, b"_t"),
        Scalar { width: 2, .. } => out.put_text(b"uint16_t"),
        Scalar { width: 4, .. } => out.put_text(b"float"),
        _ => out.put_text(b"double"),
    }
}

// The name of a struct, with `struct ` before it.
fn put_tag<W: Write>(out: &mut Writer<W>, t: Type)
    ensures { Writes W.contents out.old (tag_text t.entry.sheet t.entry.i) out.new }
{
    out.put_text(b"struct ");
    sheet_identifiers::put_type(out, t);
}

pub fn put_open<W: Write>(out: &mut Writer<W>, t: Type)
    ensures { Writes W.contents out.old (c_open_text t.entry.sheet t.entry.i) out.new }
{
    out.put_byte(b'\n');
    put_tag(out, t);
    out.put_text(b" {\n");
}

// A struct that has no form for a host.
pub fn put_none<W: Write>(out: &mut Writer<W>, t: Type)
    ensures { Writes W.contents out.old (c_none_text t.entry.sheet t.entry.i) out.new }
{
    out.put_text(b"\n/* ");
    put_tag(out, t);
    out.put_text(sheet_dimensions::NO_FORM);
    out.put_text(b" */\n");
}

pub fn put_gap<W: Write>(out: &mut Writer<W>, unused: Unused)
    ensures { Writes W.contents out.old (c_gap_text out.old.markup unused.start unused.bytes) out.new }
{
    out.put_two(
        b"    uint8_t unused_at_",
        unused.start,
        b"[",
        unused.bytes,
        b"];\n",
    );
}

// The type inside the dimensions.
fn put_base<W: Write>(out: &mut Writer<W>, base: Base)
    ensures { (sheet : Sheet) → IsOf sheet base.entry → Writes W.contents out.old (inside_text sheet (inside_of base.entry)) out.new }
{
    match base {
        Base::Scalar(scalar) => put_scalar(out, scalar),
        Base::Struct(t) => put_tag(out, t),
    }
}

// `[n]`; a runtime-sized array has no number, or 1 where it is the only member.
fn put_dimension<W: Write>(out: &mut Writer<W>, n: Option<u64>, alone: bool)
    ensures { Writes W.contents out.old (dimension_text alone n) out.new }
{
    match n {
        Some(n) => out.put_with(b"[", n, b"]"),
        None if alone => out.put_text(b"[1]"),
        None => out.put_text(b"[]"),
    }
}

fn put_dimensions<W: Write>(out: &mut Writer<W>, dimensions: Dimensions, alone: bool)
    ensures { Writes W.contents out.old (dimensions_text alone (in_use dimensions.entry.extents)) out.new }
{
    for n in dimensions.as_slice() {
        put_dimension(out, *n, alone);
    }
}

// A member whose steps no dimensions keep.
fn put_as_bytes<W: Write>(out: &mut Writer<W>, member: Member)
    ensures { Writes W.contents out.old (bytes_text member.entry (row_word member.entry.of.sheet.rows.now member.entry.ty 0)) out.new }
{
    out.put_text(b"uint8_t ");
    sheet_identifiers::put_member(out, member);
    out.put_with(b"[", u64::from(member.own_type().size()), b"]");
}

// Type, name and dimensions of a member.
fn put_declared<W: Write>(out: &mut Writer<W>, member: Member)
    ensures { Writes W.contents out.old (declared_text member.entry) out.new }
{
    match sheet_dimensions::of_type(member.own_type()) {
        Some(dimensions) => {
            put_base(out, dimensions.base);
            out.put_byte(b' ');
            sheet_identifiers::put_member(out, member);
            put_dimensions(out, dimensions, member.j == 0);
        }
        None => put_as_bytes(out, member),
    }
}

// The line of a member.
pub fn put_member<W: Write>(out: &mut Writer<W>, member: Member)
    ensures { Writes W.contents out.old (c_member_text out.old.markup member.entry) out.new }
{
    out.put_text(b"    ");
    put_declared(out, member);
    out.put_with(b"; /* ", u64::from(member.offset), b": ");
    sheet_types::put_type(out, member.own_type());
    out.put_text(b" */\n");
}

// The assertion of a member's offset.
pub fn put_offset<W: Write>(out: &mut Writer<W>, member: Member)
    ensures { Writes W.contents out.old (c_offset_text out.old.markup member.entry) out.new }
{
    out.put_text(b"_Static_assert(offsetof(");
    put_tag(out, member.of);
    out.put_text(b", ");
    sheet_identifiers::put_member(out, member);
    out.put_with(b") == ", u64::from(member.offset), b", \"offset\");\n");
}

// The assertion of the size.
fn put_size<W: Write>(out: &mut Writer<W>, t: Type)
    ensures { Writes W.contents out.old (size_text t.entry.sheet t.entry.i) out.new }
{
    out.put_text(b"_Static_assert(sizeof(");
    put_tag(out, t);
    out.put_with(b") == ", u64::from(t.size()), b", \"size\");\n");
}

// The assertion of the step of a runtime-sized array, which has no part in sizeof.
fn put_step<W: Write>(out: &mut Writer<W>, member: Member)
    ensures { Writes W.contents out.old (step_text member.entry.of.sheet member.entry.of.i member.entry.j member.entry.ty) out.new }
{
    out.put_text(b"_Static_assert(sizeof(((");
    put_tag(out, member.of);
    out.put_text(b" *)0)->");
    sheet_identifiers::put_member(out, member);
    let stride = u64::from(member.own_type().stride());
    out.put_with(b"[0]) == ", stride, b", \"step\");\n");
}

// Whether a struct that ends with this member ends with a runtime-sized array after others.
fn is_open(last: Member) -> bool
    ensures { result ≡ is_open_at last.entry.of.sheet.types.now last.entry.j last.entry.ty }
{
    (0 < last.j) & last.own_type().is_runtime()
}

/// Where the lines of a struct end: at its size, but nothing may stand after a runtime-sized array that stands after others.
pub fn last_byte(t: Type) -> Option<u64>
    ensures { result ≡ last_byte_of t.entry.sheet.types.now (struct_members t.entry.sheet.types.now t.entry.sheet.members.now t.entry.i)
        (type_word t.entry.sheet.types.now t.entry.i 2) (row_word t.entry.sheet.rows.now t.entry.i 0) }
{
    if t.last_member().is_some_and(|last| is_open(last)) {
        None
    } else {
        Some(u64::from(t.size()))
    }
}

// After the offsets: the size, or the step of the last member where that is a runtime-sized array after others.
pub fn put_end<W: Write>(out: &mut Writer<W>, t: Type)
    ensures { Writes W.contents out.old (c_end_text t.entry.sheet t.entry.i) out.new }
{
    match t.last_member() {
        Some(last) if is_open(last) => put_step(out, last),
        _ => put_size(out, t),
    }
}
