// The members of a struct and the gaps between them, line by line, in the form that the caller puts them in.
#![tactic(auto)]

ghost use Rattle.std.specs.Prelude.{◌≡◌, ◌+◌};
ghost use Rattle.ir_records.specs.Record.{struct_members, member_type, member_offset};
ghost use Rattle.ir_rows.specs.Rows.{row_word};
ghost use Rattle.sheet_output.specs.declared.Markup.{Markup};
ghost use Rattle.sheet_output.specs.Written.{Writes};
ghost use Rattle.sheet_lines.specs.Lines.{GapText, MemberText, PutsGap, PutsMember, lines_text};

use sheet_names::{Member, Type};
use sheet_output::{Unused, Writer};
use std::io::Write;

// The byte after a member.
fn end_of(member: Member) -> u64
    ensures { result ≡ member.entry.offset + row_word member.entry.of.sheet.rows.now member.entry.ty 0 }
{
    u64::from(member.offset) + u64::from(member.own_type().size())
}

/// The members of a struct, the gaps between them, and the one from the last of them up to `end`, where the lines have one. All members before one
/// end where the furthest does.
pub fn put_lines<W: Write, G: Fn(&mut Writer<W>, Unused), M: Fn(&mut Writer<W>, Member)>(
    out: &mut Writer<W>,
    t: Type,
    end: Option<u64>,
    put_gap: G,
    put_member: M,
)
    requires gaps { G.IsAlwaysCallable put_gap }
    requires members { M.IsAlwaysCallable put_member }
    ensures { (gap : Markup → GapText) (member : Markup → MemberText)
        → PutsGap W.contents G.Fn put_gap gap
        → PutsMember W.contents M.Fn put_member t.entry.sheet t.entry.i member
        → Writes W.contents out.old (lines_text (gap out.old.markup) (member out.old.markup) t.entry.sheet t.entry.i end) out.new }
{
    let mut before: u64 = 0;
    for j in 0..t.count() {
        let member = t.member(j);
        if let Some(unused) = Unused::between(before, u64::from(member.offset)) {
            put_gap(out, unused);
        }
        put_member(out, member);
        before = before.max(end_of(member));
    }
    if let Some(unused) = end.and_then(|end| Unused::between(before, end)) {
        put_gap(out, unused);
    }
}
