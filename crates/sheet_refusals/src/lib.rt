// A refusal in words: its number, what that means, and where it stands.
#![tactic(auto)]

ghost use Rattle.std.specs.Prelude.{◌≡◌, List, ℕ, MatchOption, IfSome, option_map, None, Some};
ghost use Rattle.wgsl_messages.specs.Says.{Says};
ghost use Rattle.sheet_output.specs.Written.{Writes};
ghost use Rattle.sheet_refusals.specs.Named.{names_member, named_member, named_type, missing_capability, has_row, member_with, PartIs};
ghost use Rattle.sheet_refusals.specs.Text.{refused_text, word_text, refused_word, position_text, named_text, place_text};
ghost use Rattle.sheet_refusals.specs.Text.{in_text, in_module, number_text, text_arena, module_arena, plain};

use ir_records::{Fault, Refusal};
use sheet_names::{Member, Sheet, Type};
use sheet_output::{Markup, Writer};
use std::io::Write;

const MOST_MEMBERS: u32 = ir_records::MOST_MEMBERS as u32;

// The longest message: a token of 1,048,576 bytes and what is said of it.
const MESSAGE: usize = 1052672;

// A refusal of a text.
pub fn put_text<W: Write>(out: &mut Writer<W>, text: &[u8], refusal: wgsl_grammar::Refusal)
    ensures { (message : List ℕ) × Says text.now refusal.at refusal.why message × Writes W.contents out.old (refused_text refusal.fault message) out.new }
{
    sheet_meanings::put_fault(out, refusal.fault);
    out.put_text(b"  ");
    out.make_room(MESSAGE);
    wgsl_messages::put_message(out.out, text, refusal);
}

// The word at which an instruction stands, and the instruction.
fn put_word<W: Write>(out: &mut Writer<W>, words: &[u32], place: usize)
    ensures { Writes W.contents out.old (word_text words.now place) out.new }
{
    out.put_with(b"word ", place as u64, b", ");
    if place < spirv_words::HEADER_WORDS {
        out.put_text(b"the header\n");
        return;
    }
    sheet_meanings::put_instruction(out, spirv_words::opcode_of(words, place));
}

// A refusal of a module.
pub fn put_module<W: Write>(out: &mut Writer<W>, words: &[u32], fault: Fault)
    ensures { Writes W.contents out.old (refused_text fault (word_text words.now (refused_word words.now))) out.new }
{
    sheet_meanings::put_fault(out, fault);
    out.put_text(b"  ");
    if sheet_places::is_refused(sheet_places::before(words, 0)) {
        put_word(out, words, 0);
        return;
    }
    let place = sheet_places::place_of(words, sheet_places::refused_at(words));
    put_word(out, words, place);
}

// Whether a member row is one of a struct.
// Kept: `word(1)`, the first row, here and in `member_with`: `TypeInner`, which has the fields of a struct by name, has none for it.
fn has_row(t: Type, row: u32) -> bool
    ensures { result ≡ has_row t.entry.sheet.types.now t.entry.i row }
{
    let first = u64::from(t.word(1));
    let end = first + u64::from(t.count());
    t.is_struct() & (first..end).contains(&u64::from(row))
}

// The member in whose type a type of a text stands: the first one whose type is not before it.
fn member_with<'a>(sheet: Sheet<'a>, ty: u32) -> Option<Member<'a>>
    ensures { PartIs sheet.entry (member_with sheet.entry.types.now sheet.entry.members.now ty) result }
{
    let row = (0..MOST_MEMBERS).find(|r| ty <= ir_records::member_type(sheet.members, *r))?;
    let i = (0..sheet_names::MOST_TYPES).find(|i| has_row(sheet.type_at(*i), row))?;
    let t = sheet.type_at(i);
    Some(t.member(row.saturating_sub(t.word(1))))
}

fn put_member<W: Write>(out: &mut Writer<W>, member: Member)
    ensures { Writes W.contents out.old (named_text out.old.markup member.entry.of.sheet member.entry.of.i (Some member.entry.j)) out.new }
{
    out.put_text(b", ");
    sheet_types::put_numbered_member(out, member);
}

// The name of a struct, of a member of it where one is meant, and where the last of them stands in the text.
fn put_place<W: Write>(out: &mut Writer<W>, t: Type, member: Option<Member>)
    requires { IfSome member (λ m. m.of ≡ t) }
    ensures { Writes W.contents out.old (place_text out.old.markup t.entry.sheet t.entry.i (option_map (λ m. m.j) member.entry)) out.new }
{
    out.put_text(b"  struct ");
    sheet_types::put_struct_name(out, t);
    let place = match member {
        Some(member) => {
            put_member(out, member);
            member.place()
        }
        None => t.place(),
    };
    if let Some(name) = place {
        put_position(out, t.sheet.text, name.start);
    }
    out.put_byte(b'\n');
}

fn put_position<W: Write>(out: &mut Writer<W>, text: &[u8], byte: usize)
    ensures { Writes W.contents out.old (position_text text.now byte) out.new }
{
    let p = wgsl_messages::line_and_column(text, byte);
    out.put_two(
        b", line ",
        p.line as u64,
        b", column ",
        p.column as u64,
        b"",
    );
}

// Faults whose third word is a member: those of a struct's members.
fn names_member(fault: Fault) -> bool
    ensures { result ≡ names_member fault }
{
    matches!(
        fault,
        Fault::InvalidStructMemberType
            | Fault::InvalidData
            | Fault::MemberOverlap
            | Fault::MemberOutOfBounds
            | Fault::InvalidDynamicArray
            | Fault::StructSum
            | Fault::InvalidBlendSrc
    )
}

// The member of the refused type that a refusal names, where it names one.
fn named_member<'a>(t: Type<'a>, refusal: Refusal) -> Option<Member<'a>>
    ensures { MatchOption result (named_member refusal ≡ None) (λ m. (named_member refusal ≡ Some m.j) × (m.of ≡ t.entry)) }
{
    names_member(refusal.fault).then_some(t.member(refusal.member))
}

// The type that a refusal names; number 1 is of all tables and names none.
fn named_type<'a>(sheet: Sheet<'a>, refusal: Refusal) -> Option<Type<'a>>
    ensures { MatchOption result (named_type refusal ≡ None) (λ t. (named_type refusal ≡ Some t.i) × (t.sheet ≡ sheet.entry)) }
{
    (refusal.fault != Fault::TableLength).then_some(sheet.type_at(refusal.ty))
}

// The bit of the capability that is missing, where one is.
fn missing_capability(refusal: Refusal) -> Option<u32>
    ensures { result ≡ missing_capability refusal }
{
    (refusal.fault == Fault::MissingCapability).then_some(refusal.detail)
}

// The type that is refused, in a text: the struct, or the member in whose type it stands.
fn put_in_text<W: Write>(out: &mut Writer<W>, t: Type, refusal: Refusal)
    ensures { Writes W.contents out.old (in_text out.old.markup t.entry.sheet t.entry.i (named_member refusal)) out.new }
{
    if t.is_struct() {
        put_place(out, t, named_member(t, refusal));
    } else if let Some(member) = member_with(t.sheet, t.i) {
        put_place(out, member.of, Some(member));
    }
}

// The type that is refused, in a module: its instruction.
fn put_in_module<W: Write>(
    out: &mut Writer<W>,
    t: Type,
    words: &[u32],
    place: Option<usize>,
    refusal: Refusal,
)
    ensures { Writes W.contents out.old (in_module out.old.markup t.entry.sheet words.now place t.entry.i (named_member refusal)) out.new }
{
    out.put_text(b"  ");
    sheet_types::put_type(out, t);
    if let Some(member) = named_member(t, refusal) {
        put_member(out, member);
    }
    out.put_text(b", ");
    match place {
        Some(place) => put_word(out, words, place),
        None => out.put_byte(b'\n'),
    }
}

// The number, its meaning, and the capability that is missing. A refusal is no part of a page, so what comes after it is plain text.
fn put_arena_number<W: Write>(out: &mut Writer<W>, refusal: Refusal)
    ensures { Writes W.contents (plain out.old) (number_text refusal) out.new }
{
    out.markup = Markup::Plain;
    sheet_meanings::put_fault(out, refusal.fault);
    if let Some(bit) = missing_capability(refusal) {
        out.put_text(b"  ");
        sheet_meanings::put_capability(out, bit);
    }
}

/// A refusal of the records of a text.
pub fn put_text_arena<W: Write>(out: &mut Writer<W>, sheet: Sheet, refusal: Refusal)
    ensures { Writes W.contents (plain out.old) (text_arena sheet.entry refusal) out.new }
{
    put_arena_number(out, refusal);
    if let Some(t) = named_type(sheet, refusal) {
        put_in_text(out, t, refusal);
    }
}

/// A refusal of the records of a module; the instruction of the refused type stands at `place`.
pub fn put_module_arena<W: Write>(
    out: &mut Writer<W>,
    sheet: Sheet,
    words: &[u32],
    place: Option<usize>,
    refusal: Refusal,
)
    ensures { Writes W.contents (plain out.old) (module_arena sheet.entry words.now place refusal) out.new }
{
    put_arena_number(out, refusal);
    if let Some(t) = named_type(sheet, refusal) {
        put_in_module(out, t, words, place, refusal);
    }
}
