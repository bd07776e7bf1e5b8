// The place lookup with a scratch of three words for each type: size, alignment and flags. No verdict is made.
#![tactic(auto)]

ghost use Rattle.ir_records.specs.Refusal.{outcome_of, refused_by, LengthsTold};
ghost use Rattle.place_lookup.specs.Answer.{place_answer_of};
ghost use Rattle.std.specs.Prelude.{◌≡◌, true, ◌+◌, ◌*◌, ◌≤◌, ◌<◌, length, take, drop};
ghost use Rattle.ir_records.specs.Record.{type_count, decoded};
ghost use Rattle.ir_records.specs.Fields.{record_at};
ghost use Rattle.ir_records.specs.Table.{also, first_refusal, outcome_at, flat};
ghost use Rattle.ir_records.specs.Outcome.{Accepted};
ghost use Rattle.ir_rows.specs.Rows.{cleared};
ghost use Rattle.proc_layouter.specs.Layouter.{layout_at};
ghost use Rattle.valid_arena.specs.Arena.{arena_outcome};
ghost use Rattle.place_short.specs.Short.{three_at, lengths_fit, short_fits, short_answer, short_lookup, scratch_after, short_words};
ghost use Rattle.place_short.specs.Serving.{three_result, three_from, laid_from, written_after};

use ir_records::Refusal;
use place_descent::Place;
use place_short_flags::Judging;
use place_short_layout::{Before, SHORT_WORDS};

// n types of an arena whose records are in order, and the capability word that they are judged by.
#[derive(Clone, Copy, Debug, PartialEq, Eq)]
struct Recorded<'a> {
    types: &'a [u32],
    members: &'a [u32],
    n: u32,
    capabilities: u32,
    ghost whole: { n * 6 ≤ length types.now },
    ghost in_order: { first_refusal (record_at types.now members.now) n ≡ Accepted },
}

// Numbers 4 to 7 of type i; its size, its alignment and no flags are written where there is no refusal.
// Kept: `layout_at` and `judge_at` begin alike. What they share would be a function that hands back three things, the record, its member rows and
// the layout, to these two alone; and one function for both would have a switch for the flags.
// Kept: `i * 3 + 3 ≤ length words.old`, `arena.n * 3 ≤ length words.old`: the words are lent with `&mut`, so no struct that is copied holds them beside
// their length.
fn layout_at(arena: Recorded, words: &mut [u32], i: u32) -> Result<(), Refusal>
    requires of_these { i < arena.n }
    requires i_in_bounds { i * 3 + 3 ≤ length words.old }
    ensures value { outcome_of result ≡ outcome_at i (laid_from arena.entry.types.now arena.entry.members.now (take (i * 3) words.old) i) }
    ensures words_after { words.new ≡ written_after (laid_from arena.entry.types.now arena.entry.members.now (take (i * 3) words.old) i) (i * 3) words.old }
{
    let at = (i as usize) * SHORT_WORDS;
    let inner = ir_records::type_inner(arena.types, i);
    let part = ir_records::struct_members(arena.types, arena.members, i);
    let before = Before {
        words: &words[..at],
        i,
    };
    let judged = before.layout_of(inner, part);
    let layout = ir_records::at_type(judged, i)?;
    place_short_layout::put_three(words, i, layout.size, layout.alignment, 0);
    Ok(())
}

// Numbers 4 to 7 over n types.
// Kept: `layout_all` and `judge_all` are three lines each and differ in the step. One loop over a closure for the step would say the words after it
// by the step's predicates, and two functions around it turn that into these two contracts.
fn layout_all(arena: Recorded, words: &mut [u32]) -> Result<(), Refusal>
    requires { arena.n * 3 ≤ length words.old }
    ensures value { outcome_of result ≡ first_refusal (layout_at (decoded arena.entry.types.now arena.entry.members.now)) arena.entry.n }
    ensures words_unchanged { drop (arena.entry.n * 3) words.new ≡ drop (arena.entry.n * 3) words.old }
{
    for i in 0..arena.n {
        layout_at(arena, words, i)?;
    }
    Ok(())
}

// Numbers 4 to 7 of type i and then its flags; its three words are written where there is no refusal.
fn judge_at(arena: Recorded, words: &mut [u32], i: u32) -> Result<(), Refusal>
    requires of_these { i < arena.n }
    requires i_in_bounds { i * 3 + 3 ≤ length words.old }
    ensures value { outcome_of result ≡
        outcome_at i (three_from arena.entry.capabilities arena.entry.types.now arena.entry.members.now (take (i * 3) words.old) i) }
    ensures words_after { words.new ≡
        written_after (three_from arena.entry.capabilities arena.entry.types.now arena.entry.members.now (take (i * 3) words.old) i) (i * 3) words.old }
{
    let at = (i as usize) * SHORT_WORDS;
    let inner = ir_records::type_inner(arena.types, i);
    let part = ir_records::struct_members(arena.types, arena.members, i);
    let before = Before {
        words: &words[..at],
        i,
    };
    let judged = before.layout_of(inner, part);
    let layout = ir_records::at_type(judged, i)?;
    let judging = Judging {
        capabilities: arena.capabilities,
        types: arena.types,
        words: &words[..at],
    };
    let flagged = judging.flags_of(inner, part);
    let flags = ir_records::at_type(flagged, i)?;
    place_short_layout::put_three(words, i, layout.size, layout.alignment, flags);
    Ok(())
}

// The same over n types, up to the first refusal. The words of each type are made from those that this loop has written.
fn judge_all(arena: Recorded, words: &mut [u32]) -> Result<(), Refusal>
    requires { arena.n * 3 ≤ length words.old }
    ensures value { outcome_of result ≡ first_refusal (three_result arena.entry.capabilities arena.entry.types.now arena.entry.members.now) arena.entry.n }
    ensures words_after { outcome_of result ≡ Accepted
        → take (arena.entry.n * 3) words.new ≡ flat (three_at arena.entry.capabilities arena.entry.types.now arena.entry.members.now) arena.entry.n }
    ensures words_unchanged { drop (arena.entry.n * 3) words.new ≡ drop (arena.entry.n * 3) words.old }
{
    for i in 0..arena.n {
        judge_at(arena, words, i)?;
    }
    Ok(())
}

// The refusal where one was found type by type: 4 to 7 of any type come before it. The words are zeroed.
fn refused(arena: Recorded, words: &mut [u32], found: Refusal) -> Refusal
    requires { arena.n * 3 ≤ length words.old }
    ensures value { refused_by result ≡
        also (first_refusal (layout_at (decoded arena.entry.types.now arena.entry.members.now)) arena.entry.n) (refused_by found) }
    ensures words_after { words.new ≡ cleared words.old (arena.entry.n * 3) }
{
    let before = layout_all(arena, words);
    let three = (arena.n as usize) * SHORT_WORDS;
    ir_rows::clear(words, three);
    before.err().unwrap_or(found)
}

// Judging, once the records are in order.
fn judge_records(arena: Recorded, words: &mut [u32]) -> Result<(), Refusal>
    requires n_value { arena.n ≡ type_count arena.types.now }
    requires n_in_bounds { arena.n * 3 ≤ length words.old }
    ensures value { outcome_of result ≡ arena_outcome arena.entry.capabilities arena.entry.types.now arena.entry.members.now }
    ensures words_after { words.new ≡
        scratch_after (outcome_of result) arena.entry.capabilities arena.entry.types.now arena.entry.members.now arena.entry.n words.old }
{
    // Kept: no `map_err`, whose contract says what its closure answers and not what it writes; this one writes the words.
    if let Err(found) = judge_all(arena, words) {
        return Err(refused(arena, words, found));
    }
    Ok(())
}

// Judging, once tables and capabilities are in order: 2 and 3 of all records come first.
// Kept: a count beside the words: it also says how many types there are, and stands in `Recorded` from here on.
fn judge_tables(
    capabilities: u32,
    types: &[u32],
    members: &[u32],
    words: &mut [u32],
    n: u32,
) -> Result<(), Refusal>
    requires n_value { n ≡ type_count types.now }
    requires n_in_bounds { n * 3 ≤ length words.old }
    ensures value { outcome_of result ≡ arena_outcome capabilities types.now members.now }
    ensures words_after { words.new ≡ scratch_after (outcome_of result) capabilities types.now members.now n words.old }
{
    let found = ir_fields::records_ok(types, members, n);
    if found.is_err() {
        let three = (n as usize) * SHORT_WORDS;
        ir_rows::clear(words, three);
        return found;
    }
    let arena = Recorded {
        types,
        members,
        n,
        capabilities,
    };
    judge_records(arena, words)
}

/// Number 1: the lengths and the capability word. The tables are held to the lengths of the other calls, which lend a row for each type.
#[tactic(auto, unfolding(crate::specs::Short::lengths_fit))]
pub fn lengths_fit(
    capabilities: u32,
    types: usize,
    members: usize,
    scratch: usize,
) -> Result<(), Refusal>
    requires { types ≤ 4611686018427387903 }
    ensures { LengthsTold result (lengths_fit capabilities types members scratch) }
{
    let n = types / ir_records::TYPE_WORDS;
    ir_records::capabilities_known(capabilities)?;
    ir_records::tables_fit(types, members, n * ir_records::ROW_WORDS)?;
    ir_records::require_lengths(n * SHORT_WORDS <= scratch)
}

// Judging with three words for each type, whatever these hold. Nothing is asked of the caller.
// Kept: `types`, `members`, `capabilities`, `scratch`: the call's own parameters, which `lookup` and `place_runs` hand on; `scratch` is lent with `&mut`.
// Kept: `scratch.new ≡ short_words capabilities types.now members.now scratch.old`: each call that judges first says so of its scratch.
pub fn judge(
    types: &[u32],
    members: &[u32],
    capabilities: u32,
    scratch: &mut [u32],
) -> Result<(), Refusal>
    ensures value { outcome_of result ≡ short_answer capabilities types.now members.now scratch.old }
    ensures scratch_after { scratch.new ≡ short_words capabilities types.now members.now scratch.old }
{
    lengths_fit(capabilities, types.len(), members.len(), scratch.len())?;
    let n = ir_records::type_count(types) as u32;
    judge_tables(capabilities, types, members, scratch, n)
}

// The byte place and type of the leaf that steps lead to from a type of an arena, by three words for each type. The arena is judged first;
// nothing is asked of the caller.
// Kept: `types`, `members`, `capabilities`, `scratch`, `scratch.new ≡ short_words capabilities types.now members.now scratch.old`: as of `judge`.
pub fn lookup(
    types: &[u32],
    members: &[u32],
    capabilities: u32,
    scratch: &mut [u32],
    start: u32,
    steps: &[u32],
) -> Result<Place, Refusal>
    ensures value { place_answer_of result ≡ short_lookup capabilities types.now members.now scratch.old start steps.now }
    ensures scratch_after { scratch.new ≡ short_words capabilities types.now members.now scratch.old }
{
    judge(types, members, capabilities, scratch)?;
    place_lookup::place_answer(place_descent::place_of(types, members, start, steps))
}
