// The members of a struct, from the words of a SPIR-V module: what each is, where it stands, and how far the last one reaches.
#![tactic(auto)]

ghost use Rattle.std.specs.Prelude.{◌≡◌, suc, ◌*◌, ◌≤◌, get_or};
ghost use Rattle.ir_records.specs.Result.{ok};
ghost use Rattle.ir_records.specs.Record.{type_inner};
ghost use Rattle.ir_records.specs.Serving.{InnerBounds};
ghost use Rattle.proc_type_methods.specs.TypeMethods.{try_size, size_of};
ghost use Rattle.spirv_words.specs.Module.{found};
ghost use Rattle.spirv_ids.specs.Sorts.{sort_said};
ghost use Rattle.spirv_members.specs.Members.{number_of, member_count_at, member_number, offset_at, offset_of, column_step_in, stored_otherwise};
ghost use Rattle.spirv_members.specs.Members.{member_sound, members_sound, size_in, last_end};
ghost use Rattle.spirv_members.specs.Serving.{faulted, type_in, type_named, offset_found, with_offset, StepIs, member_found, member_made, joined, members_made, largest_alignment};
ghost use Rattle.spirv_members.specs.Serving.{Bounded, Bounded-prop};

use ir_records::{Fault, Kind, TypeInner};
use spirv_ids::{Given, Place};

/// The type records that are made, their fields within bounds, and the layout alignment of each type.
#[derive(Clone, Copy, Debug, PartialEq, Eq)]
pub struct Tables<'a> {
    pub types: &'a [u32],
    pub alignments: &'a [u32],
    ghost bounded: { Bounded types.now } by { Bounded-prop types.now },
}

/// A member: the number of its type, and its offset.
#[derive(Clone, Copy, Debug, PartialEq, Eq)]
pub struct Member {
    pub number: u32,
    pub offset: u32,
}

/// Members of a struct, from the first on: their largest alignment, and the end of the last one.
#[derive(Clone, Copy, Debug, PartialEq, Eq)]
pub struct Members {
    pub alignment: u32,
    pub end: u64,
}

// The number of a type that is read: number 29 for another type, none for what is no type.
fn type_in(given: Option<Given>) -> Result<Option<u32>, Fault>
    ensures { result ≡ type_in (sort_said given) }
{
    match given {
        Some(Given::TypeRead(number)) => Ok(Some(number)),
        Some(Given::OtherType) => Err(Fault::ModuleType),
        Some(Given::ConstantAt(_)) | None => Ok(None),
    }
}

/// The number of a type that is read: number 29 for another type, 30 for what is none.
pub fn type_named(given: Option<Given>) -> Result<u32, Fault>
    ensures { faulted result ≡ type_named (sort_said given) }
{
    type_in(given)?.ok_or(Fault::ModuleOrder)
}

pub fn member_count(words: &[u32], at: usize) -> u32
    ensures { (result ≡ member_count_at words.now at) × (result ≤ 65533) }
{
    spirv_words::word_count(words, at).saturating_sub(2) as u32
}

// The one Offset of member j; none where it has several.
// Kept: `words` and `at` here and in `offset_of`, and no Place: `offset_of` is public and asks nothing of its caller; what a Place says of the words
// before it would be asked.
#[tactic(auto, unfolding(crate::specs::Members::offset_at))]
fn offset_at(words: &[u32], at: usize, j: u32) -> Option<usize>
    ensures { result ≡ found (offset_at words.now at j) }
{
    let id = spirv_words::word_of(words, at, 1);
    spirv_words::only_before(words, at, |p| spirv_words::is_offset_of(words, id, j, p))
}

#[tactic(auto, unfolding(crate::specs::Members::offset_at))]
pub fn offset_of(words: &[u32], at: usize, j: u32) -> Option<u32>
    ensures { result ≡ offset_found words.now at j }
{
    let place = offset_at(words, at, j)?;
    Some(spirv_words::word_of(words, place, 4))
}

// The column step of the matrix that a type is, or is an array of.
// Kept: the loop counts turns only to be bounded, since no fact of `Tables` says that the base of an array stands before it; and a record's words are
// read by their places, as `column_step_in` says them: a TypeInner would be made of all six at each turn, and its law would go over every kind.
fn column_step(tables: Tables, t: u32) -> Option<u32>
    ensures { StepIs (column_step_in tables.entry.types.now (suc t) t) result }
{
    let types = tables.types;
    let mut k = t;
    for _ in 0..=t {
        if ir_records::is_of_kind(types, k, Kind::Matrix) {
            let rows = ir_records::type_word(types, k, 2);
            let width = ir_records::type_word(types, k, 4);
            return Some(proc_type_methods::column_step(rows, width));
        }
        if !ir_records::is_of_kind(types, k, Kind::Array) {
            return None;
        }
        k = ir_records::type_word(types, k, 1);
    }
    None
}

// The matrix of member j is stored otherwise than in columns a step apart; where the step is 0, nothing is asked of it.
fn stored_otherwise(place: Place, j: u32, step: u32) -> bool
    ensures { result ≡ stored_otherwise place.entry.input.words.now place.entry.at j step }
{
    let words = place.input.words;
    let id = spirv_words::word_of(words, place.at, 1);
    let otherwise = |p| spirv_words::is_otherwise(words, id, j, step, p);
    0 < step
        && spirv_words::first_between(
            words,
            spirv_words::HEADER_WORDS,
            place.at,
            otherwise,
        ).is_some()
}

// The same of member j by its type t, which may be no matrix.
#[tactic(auto, unfolding(crate::specs::Members::stored_otherwise))]
fn is_otherwise(place: Place, tables: Tables, j: u32, t: u32) -> bool
    ensures { result ≡ stored_otherwise place.entry.input.words.now place.entry.at j (column_step_in tables.entry.types.now (suc t) t) }
{
    let Some(step) = column_step(tables, t) else {
        return false;
    };
    stored_otherwise(place, j, step)
}

// Member j by the number of its type; none where it has not one Offset.
fn with_offset(place: Place, j: u32, number: u32) -> Option<Member>
    ensures { result ≡ with_offset place.entry.input.words.now place.entry.at j number }
{
    let offset = offset_of(place.input.words, place.at, j)?;
    Some(Member { number, offset })
}

// Member j: number 29 where it is unsupported; none, which is number 30, where it has no type that is read or not one Offset.
#[tactic(auto, unfolding(crate::specs::Members::member_number, crate::specs::Members::member_sound, crate::specs::Members::member_unsupported))]
fn member_at(place: Place, tables: Tables, j: u32) -> Result<Option<Member>, Fault>
    ensures { result ≡ member_made place.entry.input.words.now tables.entry.types.now place.entry.at j }
{
    let Some(number) = type_in(spirv_ids::named(place, 2 + (j as usize)))? else {
        return Ok(None);
    };
    if is_otherwise(place, tables, j, number) {
        return Err(Fault::ModuleType);
    }
    Ok(with_offset(place, j, number))
}

/// Member j, where it has a type that is read and one Offset.
// Kept beside `member_at`, which tests the matrix too and tells 29 from 30: one function for both would be handed that test, and the caller that writes
// rows has no use for the tables and the number.
#[tactic(auto, unfolding(crate::specs::Members::member_number, crate::specs::Members::member_sound))]
pub fn member_of(place: Place, j: u32) -> Option<Member>
    ensures { result ≡ member_found place.entry.input.words.now place.entry.at j }
{
    let number = type_named(spirv_ids::named(place, 2 + (j as usize))).ok()?;
    with_offset(place, j, number)
}

// One member more; none where it is none, or one before it was.
fn with_member(tables: Tables, before: Option<Members>, member: Option<Member>) -> Option<Members>
    ensures { result ≡ joined tables.entry.types.now tables.entry.alignments.now before member }
{
    let before = before?;
    let member = member?;
    let own = ir_records::word_at(tables.alignments, member.number as usize);
    Some(Members {
        alignment: before.alignment.max(own),
        end: (member.offset as u64) + size_in(tables, member.number),
    })
}

// The n members of a struct: number 29 where one is unsupported, else 30 where one is not sound.
pub fn members_of(place: Place, tables: Tables, n: u32) -> Result<Members, Fault>
    ensures { faulted result ≡ members_made place.entry.input.words.now tables.entry.types.now tables.entry.alignments.now place.entry.at n }
{
    let mut seen = Some(Members {
        alignment: 1,
        end: 0,
    });
    for j in 0..n {
        let member = member_at(place, tables, j)?;
        seen = with_member(tables, seen, member);
    }
    seen.ok_or(Fault::ModuleOrder)
}

// Of a type that is no array.
// Kept: both facts are asked of the one type at each of the two calls in `size_in`; a struct of a TypeInner with them would be made for these two alone.
fn plain_size(inner: TypeInner) -> u64
    requires inner_bounds { InnerBounds inner }
    requires inner_value { try_size inner ≡ ok (size_of inner) }
    ensures { (result ≡ size_of inner) × (result ≤ 4294967295) }
{
    u64::from(proc_type_methods::try_size(inner).unwrap_or(0))
}

fn array_size(count: u32, stride: u32) -> u64
    ensures { (result ≡ count * stride) × (result ≤ 18446744065119617025) }
{
    (count as u64) * (stride as u64)
}

// The number of a type that is read; 0 for what is none.
fn number_in(given: Option<Given>) -> u32
    ensures { result ≡ number_of (sort_said given) }
{
    match given {
        Some(Given::TypeRead(number)) => number,
        Some(Given::OtherType) => 0,
        Some(Given::ConstantAt(_)) | None => 0,
    }
}

#[tactic(auto, unfolding(crate::specs::Members::member_number))]
fn member_number(place: Place, j: u32) -> u32
    ensures { result ≡ member_number place.entry.input.words.now place.entry.at j }
{
    number_in(spirv_ids::named(place, 2 + (j as usize)))
}

#[tactic(auto, using(crate::proofs::MemberLaws::found_sound))]
fn is_sound(place: Place, j: u32) -> bool
    ensures { result ≡ member_sound place.entry.input.words.now place.entry.at j }
{
    member_of(place, j).is_some()
}

/// Whether each of n members has a type that is read and one Offset. Told of a struct that `members_of` refuses with 29 too.
pub fn members_sound(place: Place, n: u32) -> bool
    ensures { result ≡ members_sound place.entry.input.words.now place.entry.at n }
{
    (0..n).all(|j| is_sound(place, j))
}

fn member_alignment(place: Place, tables: Tables, j: u32) -> u32
    ensures { result ≡ get_or tables.entry.alignments.now (member_number place.entry.input.words.now place.entry.at j) 0 }
{
    ir_records::word_at(tables.alignments, member_number(place, j) as usize)
}

/// The largest alignment of n members, of a struct that is refused too.
pub fn largest_alignment(place: Place, tables: Tables, n: u32) -> u32
    ensures { result ≡ largest_alignment place.entry.input.words.now tables.entry.alignments.now place.entry.at n }
{
    (0..n).fold(
        1,
        |largest, j| largest.max(member_alignment(place, tables, j)),
    )
}

// Where member j has not one Offset, word 4 of the module, as the definition has it.
#[tactic(auto, using(crate::proofs::MemberLaws::found_or_zero))]
fn offset_word(words: &[u32], at: usize, j: u32) -> u32
    ensures { result ≡ offset_of words.now at j }
{
    let place = offset_at(words, at, j).unwrap_or(0);
    spirv_words::word_of(words, place, 4)
}

/// The end of the last of n members, 0 for none; of a struct that is refused too.
#[tactic(auto, unfolding(crate::specs::Members::last_end))]
pub fn last_end(place: Place, tables: Tables, n: u32) -> u64
    ensures { result ≡ last_end place.entry.input.words.now tables.entry.types.now place.entry.at n }
{
    let Some(last) = n.checked_sub(1) else {
        return 0;
    };
    let offset = offset_word(place.input.words, place.at, last);
    (offset as u64) + size_in(tables, member_number(place, last))
}

// What type t of the table measures.
#[tactic(auto, unfolding(crate::specs::Members::size_in, proc_type_methods::specs::TypeMethods::try_size))]
fn size_in(tables: Tables, t: u32) -> u64
    ensures { (result ≡ size_in tables.entry.types.now t) × (result ≤ 18446744065119617025) }
{
    let inner = ir_records::type_inner(tables.types, t);
    match inner {
        TypeInner::Plain(_) => plain_size(inner),
        TypeInner::Array {
            base: _,
            count,
            stride,
        } => array_size(count, stride),
        TypeInner::RuntimeArray { base: _, stride } => stride as u64,
        TypeInner::Struct { count: _, span } => span as u64,
        TypeInner::Other(_) => plain_size(inner),
    }
}
