// The structs of a sheet in the order of their records, in one of four forms.
#![tactic(auto)]

ghost use Rattle.std.specs.Prelude.{◌≡◌};
ghost use Rattle.sheet_lines.specs.Lines.{MemberText, PutsMember};
ghost use Rattle.sheet_output.specs.declared.Markup.{Markup};
ghost use Rattle.sheet_output.specs.Written.{Writes, lent};
ghost use Rattle.sheet_structs.specs.Facts.{facts_text};
ghost use Rattle.sheet_structs.specs.Structs.{each_text, text_struct, c_struct, rust_struct, picture_text, page_struct, struct_text};
ghost use Rattle.sheet_structs.specs.Text.{start_text, struct_count, counts_text, end_text, sheet_text};
ghost use Rattle.sheet_structs.specs.Forms.{markup_of};

use sheet_names::{Member, Sheet, Type};
use sheet_output::{Markup, Writer};
use sheet_verdicts::Space;
use std::io::Write;

/// What a sheet is written as.
#[derive(Clone, Copy, Debug, PartialEq, Eq)]
pub enum Form {
    Text,
    C,
    Rust,
    Page,
}

// What a struct measures, its verdicts, its bytes where they were counted, and its slots; a line begins with `line`.
fn put_facts<W: Write>(out: &mut Writer<W>, t: Type, line: &[u8])
    ensures { Writes W.contents out.old (facts_text out.old.markup line.now t.entry.sheet t.entry.i) out.new }
{
    sheet_verdicts::put_measures(out, t);
    out.put_text(line);
    out.put_text(b"storage: ");
    sheet_verdicts::put_verdict(out, t, Space::Storage);
    out.put_text(line);
    out.put_text(b"uniform: ");
    sheet_verdicts::put_verdict(out, t, Space::Uniform);
    if t.is_counted() {
        out.put_text(line);
        out.put_two(
            b"bytes: ",
            t.carried(),
            b" carried, ",
            t.wasted(),
            b" wasted",
        );
    }
    out.put_text(line);
    out.put_text(b"immediates: ");
    sheet_counts::put_slots(out, t);
}

fn put_text<W: Write>(out: &mut Writer<W>, t: Type)
    ensures { Writes W.contents out.old (text_struct out.old.markup t.entry.sheet t.entry.i) out.new }
{
    out.put_text(b"struct ");
    sheet_types::put_struct_name(out, t);
    out.put_text(b"\n  ");
    put_facts(out, t, b"\n  ");
    out.put_byte(b'\n');
    let width = sheet_table::name_width(t, t.count());
    sheet_table::put_table_head(out, width);
    sheet_lines::put_lines(
        out,
        t,
        Some(u64::from(t.size())),
        sheet_table::put_gap,
        |out: &mut Writer<W>, member: Member| sheet_table::put_member(out, member, width),
    );
    out.put_byte(b'\n');
}

// A line for each member, as assertions and constants of offsets are.
fn put_each<W: Write, M: Fn(&mut Writer<W>, Member)>(out: &mut Writer<W>, t: Type, put: M)
    requires { M.IsAlwaysCallable put }
    ensures { (member : Markup → MemberText)
        → PutsMember W.contents M.Fn put t.entry.sheet t.entry.i member
        → Writes W.contents out.old (each_text (member out.old.markup) t.entry.sheet t.entry.i) out.new }
{
    for j in 0..t.count() {
        put(out, t.member(j));
    }
}

fn put_c<W: Write>(out: &mut Writer<W>, t: Type)
    ensures { Writes W.contents out.old (c_struct out.old.markup t.entry.sheet t.entry.i) out.new }
{
    if !t.is_usable() {
        sheet_c::put_none(out, t);
        return;
    }
    sheet_c::put_open(out, t);
    sheet_lines::put_lines(
        out,
        t,
        sheet_c::last_byte(t),
        sheet_c::put_gap,
        sheet_c::put_member,
    );
    out.put_text(sheet_c::CLOSE);
    put_each(out, t, sheet_c::put_offset);
    sheet_c::put_end(out, t);
}

fn put_rust<W: Write>(out: &mut Writer<W>, t: Type)
    ensures { Writes W.contents out.old (rust_struct out.old.markup t.entry.sheet t.entry.i) out.new }
{
    if !t.is_usable() {
        sheet_rust::put_none(out, t);
        return;
    }
    sheet_rust::put_open(out, t);
    sheet_lines::put_lines(
        out,
        t,
        Some(u64::from(t.size())),
        sheet_rust::put_gap,
        sheet_rust::put_member,
    );
    sheet_rust::put_numbers(out, t);
    put_each(out, t, sheet_rust::put_offset);
    sheet_rust::put_size(out, t);
    put_each(out, t, sheet_rust::put_assertion);
}

// The bytes of a struct that is host-shareable.
fn put_picture<W: Write>(out: &mut Writer<W>, t: Type)
    ensures { Writes W.contents out.old (picture_text out.old.markup t.entry.sheet t.entry.i) out.new }
{
    if t.is_shareable() {
        out.put_text(sheet_picture::HEAD);
        sheet_picture::put_rows(out, t);
        sheet_picture::put_rest(out, t);
    }
}

fn put_page<W: Write>(out: &mut Writer<W>, t: Type)
    ensures { Writes W.contents out.old (page_struct out.old.markup t.entry.sheet t.entry.i) out.new }
{
    out.put_text(b"<h2>struct ");
    sheet_types::put_struct_name(out, t);
    out.put_text(b"</h2>\n<p>");
    put_facts(out, t, b"<br>\n");
    out.put_text(sheet_page::TABLE_HEAD);
    sheet_lines::put_lines(
        out,
        t,
        Some(u64::from(t.size())),
        sheet_page::put_gap,
        sheet_page::put_member,
    );
    out.put_text(sheet_page::TABLE_END);
    put_picture(out, t);
}

fn struct_count(sheet: Sheet) -> usize
    ensures { result ≡ struct_count sheet.entry.types.now }
{
    (0..sheet_names::MOST_TYPES)
        .filter(|i| sheet.type_at(*i).is_struct())
        .count()
}

// What was read, and the limits.
fn put_counts<W: Write>(out: &mut Writer<W>, types: u64, structs: u64, last: &[u8])
    ensures { Writes W.contents out.old (counts_text types structs last.now) out.new }
{
    out.put_two(
        b"types: ",
        types,
        b"; structs: ",
        structs,
        b". Only structs have a table. At most 1024 types and 4096 members are read.",
    );
    out.put_text(last);
}

// Kept: four choices by the form. A trait of forms would have these functions four times, and still a choice before the input and one after it, since the form is an argument.
impl Form {
    /// A page has marks of its own.
    pub fn markup(self) -> Markup
        ensures { result ≡ markup_of self }
    {
        if self == Form::Page {
            Markup::Page
        } else {
            Markup::Plain
        }
    }

    /// What stands before the first struct. A name is that of the file; where there is none, or it cannot be printed, it is left out.
    pub fn put_start<W: Write>(self, out: &mut Writer<W>, name: Option<&[u8]>)
        ensures { Writes W.contents out.old (start_text self out.old.markup (lent name.entry)) out.new }
    {
        match self {
            Form::Text => {
                out.put_text(b"Layout sheet");
                sheet_types::put_file(out, name);
                out.put_text(b"\n\n")
            }
            Form::C => out.put_text(sheet_c::START),
            Form::Rust => out.put_text(sheet_rust::START),
            Form::Page => {
                out.put_text(sheet_page::START);
                sheet_types::put_file(out, name);
                out.put_text(b"</h1>\n")
            }
        }
    }

    fn put_struct<W: Write>(self, out: &mut Writer<W>, t: Type)
        ensures { Writes W.contents out.old (struct_text self out.old.markup t.entry.sheet t.entry.i) out.new }
    {
        match self {
            Form::Text => put_text(out, t),
            Form::C => put_c(out, t),
            Form::Rust => put_rust(out, t),
            Form::Page => put_page(out, t),
        }
    }

    // What stands after the last struct, in the forms that people read: how much was read, and the limits.
    fn put_end<W: Write>(self, out: &mut Writer<W>, types: u64, structs: u64)
        ensures { Writes W.contents out.old (end_text self types structs) out.new }
    {
        match self {
            Form::Text => put_counts(out, types, structs, b"\n"),
            Form::C | Form::Rust => {}
            Form::Page => {
                out.put_text(b"<p>");
                put_counts(out, types, structs, b"</p>\n");
                out.put_text(sheet_page::END)
            }
        }
    }

    /// All structs of an accepted arena.
    pub fn put_all<W: Write>(self, out: &mut Writer<W>, sheet: Sheet)
        ensures { Writes W.contents out.old (sheet_text self out.old.markup sheet.entry) out.new }
    {
        for i in 0..sheet_names::MOST_TYPES {
            let t = sheet.type_at(i);
            if t.is_struct() {
                self.put_struct(out, t);
            }
        }
        let types = ir_records::type_count(sheet.types);
        self.put_end(out, types as u64, struct_count(sheet) as u64);
    }
}
