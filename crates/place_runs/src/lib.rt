// Many place lookups in one call, with one judging by three words for each type.
#![tactic(auto)]

ghost use Rattle.std.specs.Prelude.{◌≡◌, true, ◌++◌, ◌+◌, ◌*◌, ◌≤◌, ◌<◌, length, drop, MatchOption};
ghost use Rattle.ir_records.specs.Record.{type_count, decoded};
ghost use Rattle.ir_records.specs.Table.{flat};
ghost use Rattle.ir_records.specs.Refusal.{outcome_of};
ghost use Rattle.place_descent.specs.Place.{found_place};
ghost use Rattle.ir_rows.specs.Rows.{with_part};
ghost use Rattle.place_descent.specs.Serving.{Descends};
ghost use Rattle.place_short.specs.Short.{short_fits, short_answer, short_words};
ghost use Rattle.place_runs.specs.Runs.{run_at, run_end, run_count, runs_whole};
ghost use Rattle.place_runs.specs.Serving.{IsRun, runs_of};
ghost use Rattle.place_runs.specs.Places.{pair_width, answer_at, places_answer, places_scratch, places_words};
ghost use Rattle.place_runs.specs.Serving.{place_pair, pair_at};

use ir_records::{Fault, Refusal};
use place_descent::Place;

const PAIR_WORDS: usize = 2;

// Twice for no place.
// Kept: the C interface lends two words for a place, whether there is one or not.
const NONE: u64 = u64::MAX;

// A start and steps, and where their words end.
#[derive(Clone, Copy, Debug, PartialEq, Eq)]
struct Run<'a> {
    start: u32,
    steps: &'a [u32],
    end: usize,
}

// The run whose words begin at `at`; none where they are cut short.
fn run_from(queries: &[u32], at: usize) -> Option<Run>
    requires { at ≤ length queries.now }
    ensures { MatchOption result (length queries.now < run_end queries.now at) (λ r. IsRun queries.now at r) }
{
    let left = queries.len() - at;
    if left < 2 {
        return None;
    }
    let count = queries[at + 1] as usize;
    if left - 2 < count {
        return None;
    }
    let from = at + 2;
    let end = from + count;
    Some(Run {
        start: queries[at],
        steps: &queries[from..end],
        end,
    })
}

// How many runs the words are; none where one is cut short.
fn runs_of(queries: &[u32]) -> Option<usize>
    ensures { result ≡ runs_of queries.now }
{
    let mut n: usize = 0;
    let mut at: usize = 0;
    // Kept: `at` goes on by a run of words. An iterator of runs would end alike behind the last and before one that is cut short, which this count tells
    // apart; one that gives either would be unwrapped again in `fill`, where none is cut short.
    while at < queries.len() {
        let run = run_from(queries, at)?;
        at = run.end;
        n += 1;
    }
    Some(n)
}

// Writes the two words of a place from `at` on.
// Kept beside the pairs of `place_report`: neither crate uses the other, and a function for both in a crate below would hold this one line.
fn put_place(answers: &mut [u64], at: usize, place: Option<Place>)
    requires { at + 2 ≤ length answers.old }
    ensures { answers.new ≡ with_part pair_width answers.old at (place_pair (found_place place)) }
{
    let pair = match place {
        Some(p) => [p.byte, u64::from(p.leaf)],
        None => [NONE, NONE],
    };
    answers[at..at + PAIR_WORDS].copy_from_slice(&pair);
}

// The answers of all runs, a pair for each, in an accepted arena.
// Kept: pairs by their number: by `chunks_exact_mut` `at` would go on beside it all the same, and the law of the pairs written so far would be stated
// anew over the parts of the iterator.
fn fill(types: &[u32], members: &[u32], queries: &[u32], answers: &mut [u64])
    requires descends { Descends (decoded types.now members.now) (type_count types.now) }
    requires whole { runs_whole queries.now ≡ true }
    requires pairs { length answers.old ≡ run_count queries.now * 2 }
    ensures { answers.new ≡ flat (pair_at types.now members.now queries.now) (run_count queries.now) }
{
    let mut at: usize = 0;
    for j in 0..answers.len() / PAIR_WORDS {
        let run = run_from(queries, at).unwrap();
        let place = place_descent::place_of(types, members, run.start, run.steps);
        put_place(answers, j * PAIR_WORDS, place);
        at = run.end;
    }
}

// Kept: `types`, `members`, `capabilities`, `scratch`, `scratch.new ≡ short_words capabilities types.now members.now scratch.old`: as of `place_short::judge`.
// One judging and then the answers, once all lengths are in order; in a refused arena there is no place.
fn places_in(
    types: &[u32],
    members: &[u32],
    capabilities: u32,
    scratch: &mut [u32],
    queries: &[u32],
    answers: &mut [u64],
) -> Result<(), Refusal>
    requires fits { short_fits capabilities types.now members.now scratch.old ≡ true }
    requires whole { runs_whole queries.now ≡ true }
    requires pairs { length answers.old ≡ run_count queries.now * 2 }
    ensures value { outcome_of result ≡ short_answer capabilities types.now members.now scratch.old }
    ensures scratch_after { scratch.new ≡ short_words capabilities types.now members.now scratch.old }
    ensures answers_after { answers.new ≡ flat (answer_at capabilities types.now members.now scratch.old queries.now) (run_count queries.now) }
{
    let outcome = place_short::judge(types, members, capabilities, scratch);
    if outcome.is_ok() {
        fill(types, members, queries, answers);
    } else {
        answers.fill(NONE);
    }
    outcome
}

// The places of many runs of steps: two words for each in the lent answers. The arena is judged first, in the same call; nothing is asked of the caller.
pub fn places(
    types: &[u32],
    members: &[u32],
    capabilities: u32,
    scratch: &mut [u32],
    queries: &[u32],
    answers: &mut [u64],
) -> Result<(), Refusal>
    ensures value { outcome_of result ≡ places_answer capabilities types.now members.now scratch.old queries.now answers.old }
    ensures scratch_after { scratch.new ≡ places_scratch capabilities types.now members.now scratch.old queries.now answers.old }
    ensures answers_after { answers.new ≡ places_words capabilities types.now members.now scratch.old queries.now answers.old }
{
    place_short::lengths_fit(capabilities, types.len(), members.len(), scratch.len())?;
    let n = runs_of(queries).ok_or(Refusal::of(Fault::TableLength))?;
    ir_records::require_lengths(n <= answers.len() / PAIR_WORDS)?;
    let pairs = &mut answers[..n * PAIR_WORDS];
    places_in(types, members, capabilities, scratch, queries, pairs)
}
