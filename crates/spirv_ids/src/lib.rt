// What an id stands for at an instruction: searches for the instruction that gives it.
#![tactic(auto)]

ghost use Rattle.std.specs.Prelude.{◌≡◌, Some, ◌≤◌, ◌<◌, eqb};
ghost use Rattle.ir_records.specs.Fields.{most_types};
ghost use Rattle.spirv_words.specs.Module.{is_type, is_read, word, found};
ghost use Rattle.spirv_ids.specs.Ids.{integer_before, integer_found, is_constant, gives, giver, giver_found, type_number, sort_at, sort};
ghost use Rattle.spirv_ids.specs.Places.{may_give, first_giver, GivesFrom, GivesFrom-prop};
ghost use Rattle.spirv_ids.specs.Sorts.{sort_said};

use spirv_words::Instructions;

// The instruction that gives an id, and how many types are read before it.
#[derive(Clone, Copy, Debug, PartialEq, Eq)]
pub struct Giver {
    pub at: usize,
    pub number: u32,
}

/// The words of a module, and where a search for what gives an id may begin.
#[derive(Clone, Copy, Debug, PartialEq, Eq)]
pub struct Module<'a> {
    pub words: &'a [u32],
    pub from: usize,
    ghost gives: { GivesFrom words.now from } by { GivesFrom-prop words.now from },
}

/// A place in a module before which no more types are read than there may be.
#[derive(Clone, Copy, Debug, PartialEq, Eq)]
pub struct Place<'a> {
    pub input: Module<'a>,
    pub at: usize,
    ghost few: { type_number input.words.now at ≤ most_types },
}

// What gives an id.
#[derive(Clone, Copy, Debug, PartialEq, Eq)]
pub enum Given {
    // A type that is not read.
    OtherType,
    // A type by its number.
    TypeRead(u32),
    // An OpConstant of an integer type, by its place.
    ConstantAt(usize),
}

pub fn is_type(op: u32) -> bool
    ensures { result ≡ is_type op }
{
    (spirv_words::TYPE_VOID..=spirv_words::TYPE_PIPE).contains(&op)
}

pub fn is_read(op: u32) -> bool
    ensures { result ≡ is_read op }
{
    (spirv_words::TYPE_BOOL..=spirv_words::TYPE_MATRIX).contains(&op)
        | (spirv_words::TYPE_ARRAY..=spirv_words::TYPE_STRUCT).contains(&op)
}

fn may_give(op: u32) -> bool
    ensures { result ≡ may_give op }
{
    is_type(op) | (op == spirv_words::CONSTANT)
}

// The first instruction that may give an id, or where none follows.
pub fn first_giver(words: &[u32]) -> usize
    ensures { GivesFrom words.now result × (result ≡ first_giver words.now) }
{
    let mut next = spirv_words::HEADER_WORDS;
    let instructions = Instructions {
        words,
        at: next,
        end: words.len(),
    };
    for p in instructions {
        if may_give(spirv_words::opcode_of(words, p)) {
            return p;
        }
        next = p + spirv_words::word_count(words, p);
    }
    next
}

impl<'a> Module<'a> {
    pub fn new(words: &'a [u32]) -> Self
        ensures { (result.words ≡ words.entry) × (result.from ≡ first_giver words.now) }
    {
        Module {
            words,
            from: first_giver(words),
        }
    }
}

// The OpTypeInt before `at` that gives the id.
pub fn integer_before(input: Module, at: usize, id: u32) -> Option<usize>
    ensures { result ≡ found (integer_before input.entry.words.now at id) }
{
    spirv_words::first_between(input.words, input.from, at, |p| {
        spirv_words::is_integer(input.words, id, p)
    })
}

// The OpTypeInt of an OpConstant of an earlier integer type. The words are searched for an OpConstant alone.
pub fn integer_of(input: Module, at: usize) -> Option<usize>
    ensures { result ≡ integer_found input.entry.words.now at }
{
    if spirv_words::opcode_of(input.words, at) != spirv_words::CONSTANT {
        return None;
    }
    let ty = spirv_words::word_of(input.words, at, 1);
    integer_before(input, at, ty)
}

#[tactic(auto, using(crate::proofs::PlaceLaws::constant_found))]
pub fn is_constant(input: Module, at: usize) -> bool
    ensures { result ≡ is_constant input.entry.words.now at }
{
    integer_of(input, at).is_some()
}

#[tactic(auto, unfolding(crate::specs::Ids::gives))]
fn is_giver(input: Module, id: u32, at: usize) -> bool
    ensures { result ≡ gives input.entry.words.now id at }
{
    let op = spirv_words::opcode_of(input.words, at);
    (is_type(op) && spirv_words::word_of(input.words, at, 1) == id)
        || (spirv_words::word_of(input.words, at, 2) == id && is_constant(input, at))
}

// The instruction before a place that gives the id.
pub fn giver_of(place: Place, id: u32) -> Option<Giver>
    ensures { result ≡ giver_found place.entry.input.words.now place.entry.at id }
{
    let words = place.input.words;
    let mut number: u32 = 0;
    let earlier = Instructions {
        words,
        at: place.input.from,
        end: place.at,
    };
    for p in earlier {
        if is_giver(place.input, id, p) {
            return Some(Giver { at: p, number });
        }
        number += u32::from(is_read(spirv_words::opcode_of(words, p)));
    }
    None
}

// An id that nothing before a place gives.
pub fn is_new(place: Place, id: u32) -> bool
    ensures { result ≡ eqb (giver place.entry.input.words.now place.entry.at id) 0 }
{
    giver_of(place, id).is_none()
}

// What an instruction gives.
#[tactic(auto, unfolding(crate::specs::Ids::sort_at))]
fn given_at(words: &[u32], giver: Giver) -> Given
    requires is_place { 0 < giver.at }
    requires number_value { giver.number ≡ type_number words.now giver.at }
    ensures { sort_said (Some result) ≡ sort_at words.now giver.at }
{
    let op = spirv_words::opcode_of(words, giver.at);
    if op == spirv_words::CONSTANT {
        return Given::ConstantAt(giver.at);
    }
    if is_read(op) {
        return Given::TypeRead(giver.number);
    }
    Given::OtherType
}

// What the id stands for at a place; none where it is missing or still to come.
#[tactic(auto, unfolding(crate::specs::Ids::sort, crate::specs::Ids::sort_at))]
pub fn sort_of(place: Place, id: u32) -> Option<Given>
    ensures { sort_said result ≡ sort place.entry.input.words.now place.entry.at id }
{
    let giver = giver_of(place, id)?;
    Some(given_at(place.input.words, giver))
}

// What word k of the instruction at a place names.
pub fn named(place: Place, k: usize) -> Option<Given>
    ensures { sort_said result ≡ sort place.entry.input.words.now place.entry.at (word place.entry.input.words.now place.entry.at k) }
{
    let id = spirv_words::word_of(place.input.words, place.at, k);
    sort_of(place, id)
}
