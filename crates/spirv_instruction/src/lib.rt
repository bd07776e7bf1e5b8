// One instruction of a SPIR-V module: its word count, the type that it makes, an id that is given twice, and the room for its records.
#![tactic(auto)]

ghost use Rattle.std.specs.Prelude.{◌≡◌, List, ℕ, ◌≤◌};
ghost use Rattle.ir_records.specs.Record.{member_count, type_count};
ghost use Rattle.ir_records.specs.declared.Fault.TheVariants as fault;
ghost use Rattle.spirv_words.specs.Module.{opcode};
ghost use Rattle.ir_records.specs.Refusal.{RefusedUnless};
ghost use Rattle.spirv_types.specs.Types.{State};
ghost use Rattle.spirv_instruction.specs.Instruction.{least_type, least_constant, least_decorate, least_member_decorate, least_words, told_by};
ghost use Rattle.spirv_instruction.specs.Instruction.{words_ok, row_count, type_read, new_id, instruction, other_read};
ghost use Rattle.spirv_instruction.specs.Serving.{judged_result, type_result, id_result, TypeTold, Told};

use ir_records::Fault;
use spirv_ids::Place;
use spirv_types::{Known, Typed};

/// How many types and members there is room for.
// Kept: numbers as wide as a caller's lengths, and no `Records`, whose numbers are those of an arena.
#[derive(Clone, Copy, Debug, PartialEq, Eq)]
pub struct Space {
    pub types: usize,
    pub members: usize,
}

// The type that an instruction makes, and how many member rows it has.
#[derive(Clone, Copy, Debug, PartialEq, Eq)]
pub struct Made {
    pub typed: Typed,
    pub rows: u32,
}

fn least_type(op: u32) -> usize
    ensures { result ≡ least_type op }
{
    match op {
        spirv_words::TYPE_INT
        | spirv_words::TYPE_VECTOR
        | spirv_words::TYPE_MATRIX
        | spirv_words::TYPE_ARRAY => 4,
        spirv_words::TYPE_FLOAT | spirv_words::TYPE_RUNTIME_ARRAY => 3,
        _ => 2,
    }
}

fn least_constant(place: Place) -> usize
    ensures { result ≡ least_constant place.entry.input.words.now place.entry.at }
{
    let Some(integer) = spirv_ids::integer_of(place.input, place.at) else {
        return 2;
    };
    let bits = spirv_words::word_of(place.input.words, integer, 2);
    if bits == 64 {
        return 5;
    }
    4
}

fn least_decorate(place: Place) -> usize
    ensures { result ≡ least_decorate place.entry.input.words.now place.entry.at }
{
    let decoration = spirv_words::word_of(place.input.words, place.at, 2);
    if decoration == spirv_words::ARRAY_STRIDE {
        return 4;
    }
    3
}

fn least_member_decorate(place: Place) -> usize
    ensures { result ≡ least_member_decorate place.entry.input.words.now place.entry.at }
{
    let decoration = spirv_words::word_of(place.input.words, place.at, 3);
    match decoration {
        spirv_words::OFFSET | spirv_words::MATRIX_STRIDE => 5,
        _ => 4,
    }
}

#[tactic(auto, unfolding(crate::specs::Instruction::least_words))]
fn least_words(place: Place, op: u32) -> usize
    ensures { result ≡ least_words place.entry.input.words.now place.entry.at op }
{
    if spirv_ids::is_type(op) {
        return least_type(op);
    }
    match op {
        spirv_words::CONSTANT => least_constant(place),
        spirv_words::DECORATE => least_decorate(place),
        spirv_words::MEMBER_DECORATE => least_member_decorate(place),
        _ => 1,
    }
}

fn told_by(op: u32) -> usize
    ensures { result ≡ told_by op }
{
    match op {
        spirv_words::CONSTANT => 2,
        spirv_words::DECORATE => 3,
        spirv_words::MEMBER_DECORATE => 4,
        _ => 1,
    }
}

// Number 28 where the word count is too small for the instruction, or more than the words that are left.
#[tactic(auto, unfolding(crate::specs::Instruction::words_ok))]
fn check_words(place: Place) -> Result<(), Fault>
    ensures { RefusedUnless result fault.ModuleHeader (words_ok place.entry.input.words.now place.entry.at) }
{
    let words = place.input.words;
    let count = spirv_words::word_count(words, place.at);
    let op = spirv_words::opcode_of(words, place.at);
    let told = told_by(op);
    let least = least_words(place, op);
    let fit = (1 <= count)
        & (place.at.saturating_add(count) <= words.len())
        & (told <= count)
        & (least <= count);
    ir_records::require(fit, Fault::ModuleHeader)
}

// The member rows of the type at a place.
fn row_count(place: Place) -> u32
    ensures { (result ≡ row_count place.entry.input.words.now place.entry.at) × (result ≤ 65533) }
{
    let op = spirv_words::opcode_of(place.input.words, place.at);
    if op == spirv_words::TYPE_STRUCT {
        return spirv_members::member_count(place.input.words, place.at);
    }
    0
}

// A type that is read: 29, 30, then number 1.
#[tactic(auto, unfolding(crate::specs::Instruction::type_read))]
fn type_read(known: Known, space: Space) -> Result<Made, Fault>
    ensures { ((ms : List ℕ) → member_count ms ≡ known.entry.rows
        → type_result known.entry.place.input.words.now known.entry.place.at
        (record { types = known.entry.tables.types.now; members = ms; alignments = known.entry.tables.alignments.now }) result ≡
        type_read space.types space.members known.entry.place.input.words.now known.entry.place.at
        (record { types = known.entry.tables.types.now; members = ms; alignments = known.entry.tables.alignments.now }))
        × TypeTold space.types space.members known.entry.place.input.words.now known.entry.place.at (type_count known.entry.tables.types.now)
        known.entry.rows result }
{
    let typed = spirv_types::type_at(known)?;
    let rows = row_count(known.place);
    let last = (known.rows as usize) + (rows as usize);
    let count = ir_records::type_count(known.tables.types);
    if (count < space.types) & (last <= space.members) {
        return Ok(Made { typed, rows });
    }
    Err(Fault::TableLength)
}

// 30 for an id that is given before.
fn new_id(place: Place, id: u32) -> Result<(), Fault>
    ensures { (s : State) → id_result s result ≡ new_id place.entry.input.words.now place.entry.at id s }
{
    if spirv_ids::is_new(place, id) {
        return Ok(());
    }
    Err(Fault::ModuleOrder)
}

// An instruction that makes no record.
#[tactic(auto, unfolding(crate::specs::Instruction::other_read))]
fn other_read(place: Place, op: u32) -> Result<(), Fault>
    requires { op ≡ opcode place.input.words.now place.at }
    ensures { (s : State) → id_result s result ≡ other_read place.entry.input.words.now place.entry.at s }
{
    if spirv_ids::is_type(op) {
        let id = spirv_words::word_of(place.input.words, place.at, 1);
        return new_id(place, id);
    }
    if spirv_ids::is_constant(place.input, place.at) {
        let id = spirv_words::word_of(place.input.words, place.at, 2);
        return new_id(place, id);
    }
    Ok(())
}

// One instruction, and the type that it makes, if any: 28, 29, 30, then 1.
#[tactic(auto, unfolding(crate::specs::Instruction::instruction, crate::specs::Instruction::words_ok))]
pub fn judge(known: Known, space: Space) -> Result<Option<Made>, Fault>
    ensures { ((ms : List ℕ) → member_count ms ≡ known.entry.rows
        → judged_result known.entry.place.input.words.now known.entry.place.at
        (record { types = known.entry.tables.types.now; members = ms; alignments = known.entry.tables.alignments.now }) result ≡
        instruction space.types space.members known.entry.place.input.words.now known.entry.place.at
        (record { types = known.entry.tables.types.now; members = ms; alignments = known.entry.tables.alignments.now }))
        × Told space.types space.members known.entry.place.input.words.now known.entry.place.at (type_count known.entry.tables.types.now) known.entry.rows
        result }
{
    let place = known.place;
    check_words(place)?;
    let op = spirv_words::opcode_of(place.input.words, place.at);
    if spirv_ids::is_read(op) {
        let made = type_read(known, space)?;
        return Ok(Some(made));
    }
    other_read(place, op)?;
    Ok(None)
}
