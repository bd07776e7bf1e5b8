// A struct of the sheet as text: a table of its members and gaps.
#![tactic(auto)]

ghost use Rattle.std.specs.Prelude.{◌≡◌};
ghost use Rattle.sheet_output.specs.Written.{Writes};
ghost use Rattle.sheet_table.specs.Width.{name_width};
ghost use Rattle.sheet_table.specs.Text.{rest_text, head_text, gap_text, steps_text, named_text, member_line};

use sheet_names::{Member, Type};
use sheet_output::{Unused, Writer};
use std::io::Write;

const WIDE: u64 = 8;

const NARROW: u64 = 5;

// The width of `member`.
const HEAD: usize = 6;

// No column of names is wider.
const MOST_NAME: usize = 40;

// The width of the column of names: at least that of its head.
// Kept: `count`, which is that of `t` at the one call: the function promises a width for the first so many members, and without it would promise that of all alone.
pub fn name_width(t: Type, count: u32) -> usize
    ensures { result ≡ name_width t.entry.sheet.text.now t.entry.sheet.names.now t.entry.sheet.types.now t.entry.i count }
{
    (0..count)
        .fold(
            HEAD,
            |width, j| width.max(sheet_types::name_length(t.member(j))),
        )
        .min(MOST_NAME)
}

// Blanks after so many columns of a name, up to the width of its column.
fn put_rest<W: Write>(out: &mut Writer<W>, used: usize, width: usize)
    ensures { Writes W.contents out.old (rest_text used width) out.new }
{
    out.put_blanks(sheet_output::gap(used as u64, width as u64));
}

pub fn put_table_head<W: Write>(out: &mut Writer<W>, width: usize)
    ensures { Writes W.contents out.old (head_text width) out.new }
{
    out.put_text(b"    offset    size  align  member");
    put_rest(out, HEAD, width);
    out.put_text(b"  type\n");
}

// Bytes between two members, or after the last one.
pub fn put_gap<W: Write>(out: &mut Writer<W>, unused: Unused)
    ensures { Writes W.contents out.old (gap_text unused.start unused.bytes) out.new }
{
    out.put_right(WIDE + 2, unused.start);
    out.put_with(b"  ", unused.bytes, b" ");
    if unused.bytes == 1 {
        out.put_text(b"byte unused\n");
    } else {
        out.put_text(b"bytes unused\n");
    }
}

// Steps of arrays and matrices, after the type.
pub fn put_steps<W: Write>(out: &mut Writer<W>, t: Type)
    ensures { Writes W.contents out.old (steps_text t.entry.sheet.types.now t.entry.i) out.new }
{
    if t.is_array() {
        out.put_with(b", elements ", u64::from(t.stride()), b" apart");
    }
    if let Some(step) = sheet_types::column_step(sheet_types::innermost(t)) {
        out.put_with(b", columns ", step, b" apart");
    }
}

// The name of a member, and blanks up to the width of the column.
fn put_named<W: Write>(out: &mut Writer<W>, member: Member, width: usize)
    ensures { let m = member.entry in Writes W.contents out.old (named_text out.old.markup m.of.sheet m.of.i m.j width) out.new }
{
    out.put_text(b"  ");
    sheet_types::put_member_name(out, member);
    put_rest(out, sheet_types::name_length(member), width);
    out.put_text(b"  ");
}

// The line of a member: its offset, size and alignment, its name and its type.
pub fn put_member<W: Write>(out: &mut Writer<W>, member: Member, width: usize)
    ensures { let m = member.entry in Writes W.contents out.old (member_line out.old.markup m.of.sheet m.of.i m.j m.ty m.offset width) out.new }
{
    let t = member.own_type();
    out.put_right(WIDE + 2, u64::from(member.offset));
    out.put_right(WIDE, u64::from(t.size()));
    out.put_text(b"  ");
    out.put_right(NARROW, u64::from(t.alignment()));
    put_named(out, member, width);
    sheet_types::put_type(out, t);
    put_steps(out, t);
    out.put_byte(b'\n');
}
