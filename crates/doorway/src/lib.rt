// Members as a lent run of member records, taken apart for the word core. The uniform rule is a word, 0 the older and 1 the newer; another word is number 1.
#![tactic(auto)]

ghost use Rattle.ir_records.specs.Refusal.{outcome_of};
ghost use Rattle.place_lookup.specs.Answer.{place_answer_of};
ghost use Rattle.immediates_ranges.specs.Slots.{slots_answer_of};
ghost use Rattle.std.specs.Prelude.{◌≡◌};
ghost use Rattle.valid_arena.specs.Arena.{arena_answer, arena_words};
ghost use Rattle.valid_rule_word.specs.RuleWord.{rule_of, capabilities_by};
ghost use Rattle.place_lookup.specs.Place.{lookup_answer};
ghost use Rattle.immediates_slots.specs.Immediates.{slots_answer};
ghost use Rattle.ir_member_words.specs.Flat.{flat};

use immediates_ranges::Slots;
use ir_member_words::{Member, MemberWords};
use ir_records::Refusal;
use place_descent::Place;
use valid_type_info::UniformRule;

// Kept: the three calls have one form and differ in the call and its definitions. One function would take the call as a closure, and a closure that
// writes the rows has to say what they are after it. `rule` is a word in each: a promise to callers; a UniformRule would ask more of them.
/// The arena check.
pub fn check_members(
    types: &[u32],
    members: &[Member],
    capabilities: u32,
    rule: u32,
    rows: &mut [u32],
) -> Result<(), Refusal>
    ensures value { outcome_of result ≡ arena_answer (capabilities_by rule capabilities) types.now (flat members.now) rows.old }
    ensures rows_after { rows.new ≡ arena_words (rule_of rule) (capabilities_by rule capabilities) types.now (flat members.now) rows.old }
{
    let words = MemberWords::of(members);
    let by = UniformRule::try_from(rule)?;
    valid_arena::check(types, words.used(), capabilities, by, rows)
}

// Kept: as at `check_members`.
/// The place lookup.
pub fn place_members(
    types: &[u32],
    members: &[Member],
    capabilities: u32,
    rule: u32,
    rows: &mut [u32],
    start: u32,
    steps: &[u32],
) -> Result<Place, Refusal>
    ensures value { place_answer_of result ≡ lookup_answer (capabilities_by rule capabilities) types.now (flat members.now) rows.old start steps.now }
    ensures rows_after { rows.new ≡ arena_words (rule_of rule) (capabilities_by rule capabilities) types.now (flat members.now) rows.old }
{
    let words = MemberWords::of(members);
    let by = UniformRule::try_from(rule)?;
    place_lookup::lookup(types, words.used(), capabilities, by, rows, start, steps)
}

// Kept: `rule`, `rows`, `ty`, `offset`: the parameters of this call are those of the exported call that it stands for, and `rule` is a word as there.
/// The slot walk.
pub fn slots_members(
    types: &[u32],
    members: &[Member],
    capabilities: u32,
    rule: u32,
    rows: &mut [u32],
    ty: u32,
    offset: u32,
) -> Result<Slots, Refusal>
    ensures value { slots_answer_of result ≡ slots_answer (capabilities_by rule capabilities) types.now (flat members.now) rows.old ty offset }
    ensures rows_after { rows.new ≡ arena_words (rule_of rule) (capabilities_by rule capabilities) types.now (flat members.now) rows.old }
{
    let words = MemberWords::of(members);
    let by = UniformRule::try_from(rule)?;
    immediates_slots::immediate_slots(types, words.used(), capabilities, by, rows, ty, offset)
}
