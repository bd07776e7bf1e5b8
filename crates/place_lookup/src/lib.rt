// The place lookup: from a type along steps to the byte place of a leaf.
#![tactic(auto)]

ghost use Rattle.std.specs.Prelude.{◌≡◌};
ghost use Rattle.valid_arena.specs.Arena.{arena_words};
ghost use Rattle.place_descent.specs.Place.{found_place};
ghost use Rattle.place_lookup.specs.Answer.{place_answer_of};
ghost use Rattle.place_lookup.specs.Place.{place_answer, lookup_answer};

use ir_records::{Fault, Refusal};
use place_descent::Place;
use valid_type_info::UniformRule;

/// A place as the answer of a call; 26 carries zeros only.
// Kept beside `immediates_ranges::part_answer`: one function for both would be `ok_or` itself, handed the refusal; each contract speaks of the answer of
// its own call.
pub fn place_answer(place: Option<Place>) -> Result<Place, Refusal>
    ensures { place_answer_of result ≡ place_answer (found_place place) }
{
    place.ok_or(Refusal::of(Fault::NoSuchType))
}

/// The byte place and type of the leaf that steps lead to from a type of an arena. The arena is judged first; nothing is asked of the caller.
// Kept: `types`, `members`, `capabilities`, `rule`, `rows`, `start`, `steps`, `rows.new ≡ arena_words rule capabilities types.now members.now rows.old`: what
// the arena check takes and says of its rows, as every call does that judges first; the rows are lent with `&mut`.
pub fn lookup(
    types: &[u32],
    members: &[u32],
    capabilities: u32,
    rule: UniformRule,
    rows: &mut [u32],
    start: u32,
    steps: &[u32],
) -> Result<Place, Refusal>
    ensures value { place_answer_of result ≡ lookup_answer capabilities types.now members.now rows.old start steps.now }
    ensures rows_after { rows.new ≡ arena_words rule capabilities types.now members.now rows.old }
{
    valid_arena::check(types, members, capabilities, rule, rows)?;
    place_answer(place_descent::place_of(types, members, start, steps))
}
