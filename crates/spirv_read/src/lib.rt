// Type sections from SPIR-V: the instructions of a module in word order, into lent type and member records.
#![tactic(auto)]

ghost use Rattle.std.specs.Prelude.{◌≡◌, true, [], ◌∷◌, ◌+◌, ◌*◌, ◌≤◌, ◌<◌, min, length, replicate};
ghost use Rattle.ir_rows.specs.Rows.{with_part};
ghost use Rattle.ir_records.specs.declared.Fault.TheVariants as fault;
ghost use Rattle.spirv_words.specs.Module.{header_ok, header_words};
ghost use Rattle.ir_records.specs.Refusal.{RefusedUnless};
ghost use Rattle.spirv_members.specs.Members.{member_number, offset_of, member_sound, members_sound, member_rows};
ghost use Rattle.spirv_instruction.specs.Instruction.{listed};
ghost use Rattle.spirv_read.specs.Section.{section_answer_of};
ghost use Rattle.spirv_read.specs.Read.{read_from, none, read_into, section_of, types_after, members_after};
ghost use Rattle.spirv_read.specs.Serving.{Room, Held, StepIs, FilledTypes, FilledMembers};

use ir_records::{Fault, MOST_TYPES, Records};
use spirv_ids::{Module, Place};
use spirv_instruction::{Made, Space};
use spirv_members::Tables;
use spirv_types::Known;

/// The first word of a module.
pub const MAGIC: u32 = 119734787;

fn put_alignment(alignments: &mut [u32], t: u32, alignment: u32)
    requires { t < length alignments.old }
    ensures { alignments.new ≡ with_part 1 alignments.old t (alignment ∷ []) }
{
    wgsl_tables::put_words(alignments, t as usize, &[alignment]);
}

// The row of member j, which is sound.
fn put_member(place: Place, members: &mut [u32], row: u32, j: u32)
    requires sound { member_sound place.input.words.now place.at j ≡ true }
    requires row_in_bounds { row * 4 + 4 ≤ length members.old }
    ensures { members.new ≡ with_part 4 members.old (row * 4)
        (member_number place.entry.input.words.now place.entry.at j ∷ offset_of place.entry.input.words.now place.entry.at j ∷ 0 ∷ 0 ∷ []) }
{
    let member = spirv_members::member_of(place, j).unwrap();
    wgsl_tables::put_member(members, row, member.number, member.offset);
}

// The rows of n members, from row m on.
fn put_members(place: Place, members: &mut [u32], m: u32, n: u32)
    requires sound { members_sound place.input.words.now place.at n ≡ true }
    requires n_bound { m + n ≤ 4096 }
    requires n_in_bounds { (m + n) * 4 ≤ length members.old }
    ensures { members.new ≡ with_part (n * 4) members.old (m * 4) (member_rows place.entry.input.words.now place.entry.at n) }
{
    for j in 0..n {
        put_member(place, members, m + j, j);
    }
}

// Kept: the three lent tables stay three parameters: a struct of them would hold three `&mut`, be lent by one more at each call, and every clause would
// name the same tables through it.
// The records of a type: its own, those of its members, and its alignment. So many are held before it.
fn put_all(
    place: Place,
    types: &mut [u32],
    members: &mut [u32],
    alignments: &mut [u32],
    held: Records,
    made: Made,
)
    requires sound { members_sound place.input.words.now place.at made.rows ≡ true }
    requires t_in_bounds { held.types * 6 + 6 ≤ length types.old }
    requires rows_bound { held.members + made.rows ≤ 4096 }
    requires rows_in_bounds { (held.members + made.rows) * 4 ≤ length members.old }
    requires t_in_bounds_2 { held.types < length alignments.old }
    ensures { (types.new ≡ with_part 6 types.old (held.types * 6) (listed made.typed.words))
        × (members.new ≡ with_part (made.rows * 4) members.old (held.members * 4) (member_rows place.entry.input.words.now place.entry.at made.rows))
        × (alignments.new ≡ with_part 1 alignments.old held.types (made.typed.alignment ∷ [])) }
{
    wgsl_tables::put_type(types, held.types, made.typed.words);
    put_members(place, members, held.members, made.rows);
    put_alignment(alignments, held.types, made.typed.alignment);
}

// One instruction: so many records are held before it, and so many after it.
fn step_at(
    place: Place,
    types: &mut [u32],
    members: &mut [u32],
    alignments: &mut [u32],
    held: Records,
    space: Records,
) -> Result<Records, Fault>
    requires room { Room space.types space.members types.old members.old alignments.old }
    requires held { Held space.types space.members place.input.words.now place.at types.old held.types held.members }
    ensures { StepIs space.types space.members place.entry.input.words.now place.entry.at types.old members.old alignments.old types.new members.new
        alignments.new held.types held.members result }
{
    let count = held.types as usize;
    let end = count * ir_records::TYPE_WORDS;
    let tables = Tables {
        types: &types[..end],
        alignments: &alignments[..count],
    };
    let known = Known {
        place,
        tables,
        rows: held.members,
    };
    let room = Space {
        types: space.types as usize,
        members: space.members as usize,
    };
    match spirv_instruction::judge(known, room)? {
        None => Ok(held),
        Some(made) => {
            put_all(place, types, members, alignments, held, made);
            Ok(Records {
                types: held.types + 1,
                members: held.members + made.rows,
            })
        }
    }
}

// All instructions, with room for so many types and space for so many members.
fn read_from(
    input: Module,
    types: &mut [u32],
    members: &mut [u32],
    alignments: &mut [u32],
    space: Records,
) -> Result<Records, Fault>
    requires { Room space.types space.members types.old members.old alignments.old }
    ensures { (section_answer_of result ≡
        section_of (read_from space.types space.members input.entry.words.now (length input.entry.words.now) header_words none))
        × FilledTypes (read_from space.types space.members input.entry.words.now (length input.entry.words.now) header_words none) types.old types.new
        × FilledMembers (read_from space.types space.members input.entry.words.now (length input.entry.words.now) header_words none) members.old members.new }
{
    let mut at: usize = spirv_words::HEADER_WORDS;
    let mut held = Records::default();
    // Kept: an instruction that has no words is refused here, by its place; `Instructions` ends before it.
    while at < input.words.len() {
        let place = Place { input, at };
        held = step_at(place, types, members, alignments, held, space)?;
        let count = spirv_words::word_count(input.words, at);
        at += count;
    }
    Ok(held)
}

// Number 28 where the words are no module's: too few for a header, or another first word.
fn check_header(words: &[u32]) -> Result<(), Fault>
    ensures { RefusedUnless result fault.ModuleHeader (header_ok words.now) }
{
    let magic = ir_records::word_at(words, 0);
    let fit = (spirv_words::HEADER_WORDS <= words.len()) & (magic == MAGIC);
    ir_records::require(fit, Fault::ModuleHeader)
}

// The type section of a module. Nothing is asked of the caller.
// Kept: words and two lent tables, as the exported call has them; a struct of the tables would be made by each caller for this one call.
#[tactic(auto, unfolding(crate::specs::Read::read_into, crate::specs::Read::read_module))]
pub fn read_words(words: &[u32], types: &mut [u32], members: &mut [u32]) -> Result<Records, Fault>
    ensures { (section_answer_of result ≡ section_of (read_into words.now types.old members.old))
        × (types.new ≡ types_after (read_into words.now types.old members.old) types.old)
        × (members.new ≡ members_after (read_into words.now types.old members.old) members.old) }
{
    if let Err(fault) = check_header(words) {
        wgsl_tables::clear_both(types, members);
        return Err(fault);
    }
    let mut alignments = [0u32; MOST_TYPES];
    let space = wgsl_tables::room_in(types, members);
    let section = read_from(Module::new(words), types, members, &mut alignments, space);
    if section.is_err() {
        wgsl_tables::clear_both(types, members);
    }
    section
}
