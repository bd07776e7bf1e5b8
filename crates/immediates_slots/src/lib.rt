// The slots of a type of an arena: the arena check, then from_type of naga's valid/immediates.rs.
#![tactic(auto)]

ghost use Rattle.std.specs.Prelude.{◌≡◌};
ghost use Rattle.valid_arena.specs.Arena.{arena_words};
ghost use Rattle.immediates_ranges.specs.Slots.{slots_answer_of};
ghost use Rattle.ir_records.specs.Refusal.{outcome_of};
ghost use Rattle.immediates_slots.specs.Immediates.{slots_answer};
ghost use Rattle.immediates_slots.specs.Serving.{type_outcome};

use immediates_ranges::Slots;
use ir_records::{Fault, Refusal};
use valid_type_info::UniformRule;

/// The arena check, then number 26 for a type that the arena does not have.
// Kept: `types`, `members`, `capabilities`, `rule`, `rows`, `ty`, `rows.new ≡ arena_words rule capabilities types.now members.now rows.old`: what the arena
// check takes and says of its rows, as every call does that judges first; the rows are lent with `&mut`.
pub fn check_type(
    types: &[u32],
    members: &[u32],
    capabilities: u32,
    rule: UniformRule,
    rows: &mut [u32],
    ty: u32,
) -> Result<(), Refusal>
    ensures value { outcome_of result ≡ type_outcome capabilities types.now members.now rows.old ty }
    ensures rows_after { rows.new ≡ arena_words rule capabilities types.now members.now rows.old }
{
    valid_arena::check(types, members, capabilities, rule, rows)?;
    if ir_records::type_count(types) <= ty as usize {
        return Err(Refusal::of(Fault::NoSuchType));
    }
    Ok(())
}

/// The slots of a type of an arena from an offset on. The arena is judged first; nothing is asked of the caller.
// Kept: `types`, `members`, `capabilities`, `rule`, `rows`, `ty`, `offset`, `rows.new ≡ arena_words rule capabilities types.now members.now rows.old`: it
// hands them to `check_type`, which judges first.
pub fn immediate_slots(
    types: &[u32],
    members: &[u32],
    capabilities: u32,
    rule: UniformRule,
    rows: &mut [u32],
    ty: u32,
    offset: u32,
) -> Result<Slots, Refusal>
    ensures value { slots_answer_of result ≡ slots_answer capabilities types.now members.now rows.old ty offset }
    ensures rows_after { rows.new ≡ arena_words rule capabilities types.now members.now rows.old }
{
    check_type(types, members, capabilities, rule, rows, ty)?;
    immediates_ranges::part_answer(immediates_walk::type_slots(types, members, rows, ty, offset))
}
