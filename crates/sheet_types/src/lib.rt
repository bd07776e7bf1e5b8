// Types and names in WGSL's words.
#![tactic(auto)]

ghost use Rattle.std.specs.Prelude.{◌≡◌, ◌*◌};
ghost use Rattle.std.specs.List.{list_all};
ghost use Rattle.ir_records.specs.Record.{type_inner};
ghost use Rattle.sheet_names.specs.Names.{member_name};
ghost use Rattle.ir_records.specs.Kinds.{scalar_number};
ghost use Rattle.sheet_output.specs.Written.{Writes, lent};
ghost use Rattle.sheet_types.specs.Types.{is_visible, is_printable, name_length, inside_arrays, most_depth, inner_step, ScalarIs};
ghost use Rattle.sheet_types.specs.Text.{name_text, file_text, struct_name, member_text, numbered_member};
ghost use Rattle.sheet_types.specs.Text.{scalar_text, argument_text, plain_text, count_text, base_text, text_within, type_text};

use ir_records::{Leaf, ScalarKind, TypeInner};
use sheet_names::{Member, Type};
use sheet_output::Writer;
use std::io::Write;

/// Types that stand in one another deeper than this are not written out.
// Kept: as deep as the reader of texts goes by its own constant; a module may go deeper, and this is where its sheet stops.
pub const MOST_DEPTH: u32 = 32;

/// A scalar: its kind, and its width in bytes.
#[derive(Clone, Copy, Debug, PartialEq, Eq)]
pub struct Scalar {
    pub kind: ScalarKind,
    pub width: u32,
}

impl Scalar {
    /// A scalar by the number of its kind, where a kind has that number.
    pub fn of(kind: u32, width: u32) -> Option<Scalar>
        ensures { ScalarIs kind width result }
    {
        let kind = ScalarKind::try_from(kind).ok()?;
        Some(Scalar { kind, width })
    }

    pub fn bits(self) -> u64
        ensures { result ≡ self.width * 8 }
    {
        u64::from(self.width) * 8
    }
}

// i32, u32, f32 and the like.
pub fn put_scalar<W: Write>(out: &mut Writer<W>, scalar: Scalar)
    ensures { Writes W.contents out.old (scalar_text (scalar_number scalar.kind) scalar.width) out.new }
{
    let bits = scalar.bits();
    match scalar.kind {
        ScalarKind::Sint => out.put_with(b"i", bits, b""),
        ScalarKind::Uint => out.put_with(b"u", bits, b""),
        ScalarKind::Float => out.put_with(b"f", bits, b""),
        ScalarKind::Bool | ScalarKind::AbstractInt | ScalarKind::AbstractFloat => {
            out.put_text(b"bool")
        }
    }
}

// The scalar that a record has by the number of its kind. The record of a refused type may have the number of none.
fn put_numbered<W: Write>(out: &mut Writer<W>, kind: u32, width: u32)
    ensures { Writes W.contents out.old (scalar_text kind width) out.new }
{
    match Scalar::of(kind, width) {
        Some(scalar) => put_scalar(out, scalar),
        None => out.put_text(b"bool"),
    }
}

// `<`, the scalar and `>`.
fn put_argument<W: Write>(out: &mut Writer<W>, kind: u32, width: u32)
    ensures { Writes W.contents out.old (argument_text out.old.markup kind width) out.new }
{
    out.put_mark(b'<');
    put_numbered(out, kind, width);
    out.put_mark(b'>');
}

// A type that is no struct, inside all arrays that are written out.
fn put_leaf<W: Write>(out: &mut Writer<W>, t: Type)
    ensures { Writes W.contents out.old (plain_text out.old.markup t.entry.sheet t.entry.i) out.new }
{
    match t.inner() {
        TypeInner::Plain(Leaf::Scalar(kind, width)) => put_numbered(out, kind, width),
        TypeInner::Plain(Leaf::Vector(size, kind, width)) => {
            out.put_with(b"vec", u64::from(size), b"");
            put_argument(out, kind, width)
        }
        TypeInner::Plain(Leaf::Matrix(columns, rows, kind, width)) => {
            out.put_with(b"mat", u64::from(columns), b"x");
            out.put_number(u64::from(rows));
            put_argument(out, kind, width)
        }
        TypeInner::Plain(Leaf::Atomic(kind, width)) => {
            out.put_text(b"atomic");
            put_argument(out, kind, width)
        }
        TypeInner::Array { .. } | TypeInner::RuntimeArray { .. } => out.put_text(b".."),
        _ => out.put_with(b"kind ", u64::from(t.word(0)), b""),
    }
}

fn is_visible(b: u8) -> bool
    ensures { result ≡ is_visible b }
{
    b.is_ascii_graphic()
}

fn is_all_visible(name: &[u8]) -> bool
    ensures { result ≡ list_all is_visible name.now }
{
    name.iter().all(|b| is_visible(*b))
}

// Whether every byte of a name is a printable character with no blank; an empty name is none.
fn is_printable(name: &[u8]) -> bool
    ensures { result ≡ is_printable name.now }
{
    is_all_visible(name) & !name.is_empty()
}

// A name where it can be printed, or else a number after a text.
// Kept: `put_name` of sheet_identifiers differs in the test and in the way to write the name, which one function would take as two closures.
fn put_name<W: Write>(out: &mut Writer<W>, name: Option<&[u8]>, otherwise: &[u8], number: u32)
    ensures { Writes W.contents out.old (name_text out.old.markup (lent name.entry) otherwise.now number) out.new }
{
    match name {
        Some(name) if is_printable(name) => out.put_name(name),
        _ => out.put_with(otherwise, u64::from(number), b""),
    }
}

// ` of ` and the name of a file, where it can be printed.
pub fn put_file<W: Write>(out: &mut Writer<W>, name: Option<&[u8]>)
    ensures { Writes W.contents out.old (file_text out.old.markup (lent name.entry)) out.new }
{
    if let Some(name) = name.filter(|name| is_printable(name)) {
        out.put_text(b" of ");
        out.put_name(name);
    }
}

// The name of a struct, or its number as a type.
// Kept: this and the next one are one call each, for a type and for a member; a trait of both would have two impls in their place.
pub fn put_struct_name<W: Write>(out: &mut Writer<W>, t: Type)
    ensures { Writes W.contents out.old (struct_name out.old.markup t.entry.sheet t.entry.i) out.new }
{
    put_name(out, t.name(), b"type ", t.i);
}

// The name of a member, or its number.
pub fn put_member_name<W: Write>(out: &mut Writer<W>, member: Member)
    ensures { Writes W.contents out.old (member_text out.old.markup member.entry.of.sheet member.entry.of.i member.entry.j) out.new }
{
    put_name(out, member.name(), b"", member.j);
}

// `member `, its number, and its name where it has one.
pub fn put_numbered_member<W: Write>(out: &mut Writer<W>, member: Member)
    ensures { Writes W.contents out.old (numbered_member out.old.markup member.entry.of.sheet member.entry.of.i member.entry.j) out.new }
{
    out.put_with(b"member ", u64::from(member.j), b" (");
    put_member_name(out, member);
    out.put_byte(b')');
}

// Bytes of a member's name as it is put.
pub fn name_length(member: Member) -> usize
    ensures { result ≡ name_length (member_name member.entry.of.sheet.text.now member.entry.of.sheet.names.now member.entry.of.sheet.types.now
        member.entry.of.i member.entry.j) member.entry.j }
{
    match member.name() {
        Some(name) if is_printable(name) => name.len(),
        _ => sheet_output::digit_count(u64::from(member.j)),
    }
}

// The type inside so many arrays, from the outermost on; the type itself where it is no array.
// Kept: a loop of at most `depth` turns: `try_fold`, as in sheet_bytes, would take a ControlFlow of the type either way, and its contract a law of its steps in the place of one invariant.
pub fn inside<'a>(of: Type<'a>, depth: u32) -> Type<'a>
    ensures sheet { result.sheet ≡ of.entry.sheet }
    ensures i { result.i ≡ inside_arrays of.entry.sheet.types.now depth of.entry.i }
{
    let mut t = of;
    for _ in 0..depth {
        match t.element() {
            Some(element) => t = element,
            None => return t,
        }
    }
    t
}

// The type inside all arrays.
pub fn innermost<'a>(t: Type<'a>) -> Type<'a>
    ensures sheet { result.sheet ≡ t.entry.sheet }
    ensures i { result.i ≡ inside_arrays t.entry.sheet.types.now most_depth t.entry.i }
{
    inside(t, MOST_DEPTH)
}

// The count of an array, where it has one.
fn put_count<W: Write>(out: &mut Writer<W>, t: Type)
    ensures { Writes W.contents out.old (count_text (type_inner t.entry.sheet.types.now t.entry.i)) out.new }
{
    if let TypeInner::Array { count, .. } = t.inner() {
        out.put_with(b", ", u64::from(count), b"");
    }
}

// A type inside all arrays that are written out.
fn put_base<W: Write>(out: &mut Writer<W>, t: Type)
    ensures { Writes W.contents out.old (base_text out.old.markup t.entry.sheet t.entry.i) out.new }
{
    if t.is_struct() {
        put_struct_name(out, t);
    } else {
        put_leaf(out, t);
    }
}

// A type, with at most so many arrays in one another.
fn put_within<W: Write>(out: &mut Writer<W>, t: Type, depth: u32)
    ensures { Writes W.contents out.old (text_within out.old.markup t.entry.sheet depth t.entry.i) out.new }
{
    match t.element() {
        Some(element) if 0 < depth => {
            out.put_text(b"array");
            out.put_mark(b'<');
            put_within(out, element, depth - 1);
            put_count(out, t);
            out.put_mark(b'>');
        }
        _ => put_base(out, t),
    }
}

// A type as WGSL writes it.
pub fn put_type<W: Write>(out: &mut Writer<W>, t: Type)
    ensures { Writes W.contents out.old (type_text out.old.markup t.entry.sheet t.entry.i) out.new }
{
    put_within(out, t, MOST_DEPTH);
}

// The bytes from the start of a column of a matrix to the start of the next; none for what is no matrix.
// Kept: `column_step` of proc_type_methods asks for a width below 256. The records of accepted types have one, but no clause of `Type` says that it is of such records.
pub fn column_step(t: Type) -> Option<u64>
    ensures { result ≡ inner_step (type_inner t.entry.sheet.types.now t.entry.i) }
{
    match t.inner() {
        TypeInner::Plain(Leaf::Matrix(_, rows, _, width)) => {
            Some(u64::from(proc_alignment::vector_alignment(rows)) * u64::from(width))
        }
        _ => None,
    }
}
