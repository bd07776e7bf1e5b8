// The tables that the readers of WGSL text and of SPIR-V fill: type and member records, and the names and shapes of structs.
#![tactic(auto)]

ghost use Rattle.std.specs.Prelude.{◌≡◌, [], ◌∷◌, ◌≤◌, ◌+◌, ◌*◌, length, replicate};
ghost use Rattle.ir_rows.specs.Rows.{with_part};
ghost use Rattle.ir_records.specs.Record.{type_words, member_words};
ghost use Rattle.wgsl_placement.specs.Placement.{words_of};
ghost use Rattle.wgsl_tables.specs.Tables.{room_in, name_in, names_in, is_one_of, structs_in, lookup, shape_found};

use ir_records::{MEMBER_WORDS, MOST_MEMBERS, MOST_TYPES, Records, TYPE_WORDS, Words};
use program_words::Span;
use wgsl_placement::Shape;

/// A struct that was declared: where its name stands in the text, and its shape.
#[derive(Clone, Copy, Debug, PartialEq, Eq)]
pub struct NamedShape {
    pub name: Span,
    pub shape: Shape,
}

/// How many records the lent words have room for: whole ones, and no more than an arena may have.
pub fn room_in(types: &[u32], members: &[u32]) -> Records
    ensures { result ≡ room_in (length types.now) (length members.now) }
{
    Records {
        types: (types.len() / TYPE_WORDS).min(MOST_TYPES) as u32,
        members: (members.len() / MEMBER_WORDS).min(MOST_MEMBERS) as u32,
    }
}

// Writes words from `at` on.
pub fn put_words(words: &mut [u32], at: usize, part: &[u32])
    requires { at + length part.now ≤ length words.old }
    ensures { words.new ≡ with_part (length part.now) words.old at part.now }
{
    words[at..at + part.len()].copy_from_slice(part);
}

// Type record number i.
pub fn put_type(types: &mut [u32], i: u32, w: Words)
    requires { i * type_words + type_words ≤ length types.old }
    ensures { types.new ≡ with_part type_words types.old (i * type_words) (words_of w) }
{
    put_words(types, (i as usize) * TYPE_WORDS, &w.words());
}

// Member record number i: no location, no blend source.
pub fn put_member(members: &mut [u32], i: u32, ty: u32, offset: u32)
    requires { i * member_words + member_words ≤ length members.old }
    ensures { members.new ≡ with_part member_words members.old (i * member_words) (ty ∷ offset ∷ 0 ∷ 0 ∷ []) }
{
    let words = [ty, offset, 0, 0];
    put_words(members, (i as usize) * MEMBER_WORDS, &words);
}

/// Zeroes both tables, as a refusal does.
pub fn clear_both(types: &mut [u32], members: &mut [u32])
    ensures { (types.new ≡ replicate (length types.old) 0) × (members.new ≡ replicate (length members.old) 0) }
{
    types.fill(0);
    members.fill(0);
}

// The bytes of a name; none where its two positions are none in the text, which `Span::bytes` asks of its callers.
fn name_in(s: &[u8], name: Span) -> &[u8]
    ensures { result.now ≡ name_in s.now name.start name.end }
{
    s.get(name.start..name.end).unwrap_or(b"")
}

/// Whether a word is one of the names.
pub fn is_one_of(s: &[u8], w: &[u8], names: &[Span]) -> bool
    ensures { result ≡ is_one_of w.now (names_in s.now names.now) }
{
    names
        .iter()
        .any(|name| wgsl_names::same(w, name_in(s, *name)))
}

/// The shape of the struct of a name, the last one that has it.
pub fn shape_named(s: &[u8], w: &[u8], structs: &[NamedShape]) -> Option<Shape>
    ensures { lookup w.now (structs_in s.now structs.now) ≡ shape_found result }
{
    let named = structs
        .iter()
        .rev()
        .find(|named| wgsl_names::same(w, name_in(s, named.name)))?;
    Some(named.shape)
}
