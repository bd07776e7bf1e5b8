// The picture of a struct's bytes on a page, sixteen to a row.
#![tactic(auto)]

ghost use Rattle.std.specs.Prelude.{◌≡◌};
ghost use Rattle.ir_rows.specs.Rows.{row_word};
ghost use Rattle.sheet_output.specs.Written.{Writes};
ghost use Rattle.sheet_picture.specs.Picture.{drawn_as, run_text, row_text, rows_text, rest_text};

use sheet_names::Type;
use sheet_output::Writer;
use std::io::Write;

// Bytes of a struct that are drawn at most.
const MOST_DRAWN: u64 = 4096;

const ROW_BYTES: u64 = 16;

/// The start of a picture.
pub const HEAD: &[u8] = b"<table class=\"bytes\">
<tr><th>byte</th><th>0</th><th>1</th><th>2</th><th>3</th><th>4</th><th>5</th><th>6</th><th>7</th><th>8</th><th>9</th><th>10</th><th>11</th><th>12</th><th>13</th><th>14</th><th>15</th></tr>
";

// The member in whose leaf a byte of a struct lies, where it lies in one.
fn drawn_as(t: Type, byte: u64) -> Option<u32>
    ensures { result ≡ drawn_as t.entry.sheet t.entry.i byte }
{
    let j = sheet_bytes::holder(t, byte)?;
    sheet_bytes::in_leaf(t, byte).then_some(j)
}

// A run of so many bytes: a member's name, or nothing where no leaf holds them.
fn put_run<W: Write>(out: &mut Writer<W>, t: Type, member: Option<u32>, bytes: u64)
    ensures { Writes W.contents out.old (run_text out.old.markup t.entry.sheet t.entry.i member bytes) out.new }
{
    out.put_with(b"<td colspan=\"", bytes, b"\" class=\"");
    match member {
        Some(j) => {
            out.put_with(b"c", u64::from(j % 8), b"\">");
            sheet_types::put_member_name(out, t.member(j));
            out.put_text(b"</td>");
        }
        None => out.put_text(b"gap\"></td>"),
    }
}

// The row of the bytes from one up to a limit, in runs of one member's bytes.
fn put_row<W: Write>(out: &mut Writer<W>, t: Type, from: u64, limit: u64)
    ensures { Writes W.contents out.old (row_text out.old.markup t.entry.sheet t.entry.i from limit) out.new }
{
    out.put_with(b"<tr><th>", from, b"</th>");
    let mut start = from;
    for b in from..limit {
        let member = drawn_as(t, b);
        let next = b + 1;
        if (next == limit) || (drawn_as(t, next) != member) {
            put_run(out, t, member, sheet_output::gap(start, next));
            start = next;
        }
    }
    out.put_text(b"</tr>\n");
}

// The bytes of a struct, as far as they are drawn.
pub fn put_rows<W: Write>(out: &mut Writer<W>, t: Type)
    ensures { Writes W.contents out.old (rows_text out.old.markup t.entry.sheet t.entry.i) out.new }
{
    let drawn = MOST_DRAWN.min(u64::from(t.size()));
    for row in 0..drawn.div_ceil(ROW_BYTES) {
        let from = row * ROW_BYTES;
        put_row(out, t, from, drawn.min(from + ROW_BYTES));
    }
}

// Under the picture: what is not drawn.
pub fn put_rest<W: Write>(out: &mut Writer<W>, t: Type)
    ensures { Writes W.contents out.old (rest_text (row_word t.entry.sheet.rows.now t.entry.i 0)) out.new }
{
    out.put_text(b"</table>\n");
    if MOST_DRAWN < u64::from(t.size()) {
        out.put_with(b"<p>Bytes from ", MOST_DRAWN, b" on are not drawn.</p>\n");
    }
}
