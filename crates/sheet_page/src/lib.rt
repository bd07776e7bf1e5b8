// The sheet as a page that stands alone: its head and its end, and for each struct a table of its members.
#![tactic(auto)]

ghost use Rattle.sheet_output.specs.Written.{Writes};
ghost use Rattle.sheet_page.specs.Text.{number_cell, gap_row, member_row};

use sheet_names::Member;
use sheet_output::{Unused, Writer};
use std::io::Write;

/// What stands before the name of the file.
pub const START: &[u8] = b"<!DOCTYPE html>
<html lang=\"en\">
<head>
<meta charset=\"utf-8\">
<meta name=\"viewport\" content=\"width=device-width, initial-scale=1\">
<title>Layout sheet</title>
<style>
body { font: 16px/1.4 sans-serif; color: #000; background: #fff; max-width: 52em; margin: 1em auto; padding: 0 .5em; }
h2 { margin: 1.6em 0 .2em; }
p { margin: 0 0 .6em; }
table { border-collapse: collapse; width: 100%; margin: 0 0 1em; }
.members th, .members td { border-bottom: 1px solid #999; padding: .15em .5em; text-align: left; font-size: .9em; }
.members .n { text-align: right; }
.bytes { table-layout: fixed; -webkit-print-color-adjust: exact; print-color-adjust: exact; }
.bytes th { font-size: .7em; font-weight: normal; }
.bytes th:first-child { width: 3.5em; text-align: right; padding-right: .4em; }
.bytes td { border: 1px solid #000; height: 1.9em; padding: 0 .1em; font-size: .8em; text-align: center; overflow: hidden; white-space: nowrap; text-overflow: ellipsis; }
.gap { background: repeating-linear-gradient(45deg, #fff 0 4px, #777 4px 6px); }
.c0 { background: #bfe3ff; }
.c1 { background: #ffe0b3; }
.c2 { background: #c9f0c0; }
.c3 { background: #f6c6d8; }
.c4 { background: #fff3a6; }
.c5 { background: #dccdf5; }
.c6 { background: #b8eee6; }
.c7 { background: #e3e3e3; }
</style>
</head>
<body>
<h1>Layout sheet";

/// What stands after all.
pub const END: &[u8] = b"</body>\n</html>\n";

/// What stands between the facts of a struct and its members.
pub const TABLE_HEAD: &[u8] = b"</p>
<table class=\"members\">
<tr><th class=\"n\">offset</th><th class=\"n\">size</th><th class=\"n\">align</th><th>member</th><th>type</th></tr>
";

/// What stands after the members.
pub const TABLE_END: &[u8] = b"</table>\n";

// A cell with a number.
fn put_cell<W: Write>(out: &mut Writer<W>, n: u64)
    ensures { Writes W.contents out.old (number_cell n) out.new }
{
    out.put_with(b"<td class=\"n\">", n, b"</td>");
}

// Bytes between two members, or after the last one.
pub fn put_gap<W: Write>(out: &mut Writer<W>, unused: Unused)
    ensures { Writes W.contents out.old (gap_row unused.start unused.bytes) out.new }
{
    out.put_text(b"<tr>");
    put_cell(out, unused.start);
    put_cell(out, unused.bytes);
    out.put_text(b"<td></td><td class=\"gap\"></td><td>unused</td></tr>\n");
}

// The line of a member: its offset, size and alignment, its name and its type.
pub fn put_member<W: Write>(out: &mut Writer<W>, member: Member)
    ensures { let m = member.entry in Writes W.contents out.old (member_row out.old.markup m.of.sheet m.of.i m.j m.ty m.offset) out.new }
{
    let t = member.own_type();
    out.put_text(b"<tr>");
    put_cell(out, u64::from(member.offset));
    put_cell(out, u64::from(t.size()));
    put_cell(out, u64::from(t.alignment()));
    out.put_with(b"<td class=\"c", u64::from(member.j % 8), b"\">");
    sheet_types::put_member_name(out, member);
    out.put_text(b"</td><td>");
    sheet_types::put_type(out, t);
    sheet_table::put_steps(out, t);
    out.put_text(b"</td></tr>\n");
}
