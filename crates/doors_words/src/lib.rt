// Answers of the calls as words in buffers that are lent: the outcome in four words, and what stands beside it.
#![tactic(auto)]

ghost use Rattle.std.specs.Prelude.{◌≡◌};
ghost use Rattle.ir_records.specs.Refusal.{outcome_of};
ghost use Rattle.immediates_ranges.specs.Slots.{slots_answer_of};
ghost use Rattle.place_lookup.specs.Answer.{place_answer_of};
ghost use Rattle.place_report.specs.Answer.{report_answer_of};
ghost use Rattle.proc_plain_types.specs.PlainTypes.{plain_answer_of};
ghost use Rattle.doors_words.specs.Words.{byte_of, leaf_of, carried_of, wasted_of, with_front, with_answer};
ghost use Rattle.doors_words.specs.Words.{with_two, with_numbers, with_masks, with_pass, with_one};
ghost use Rattle.doors_words.specs.Read.{read_outcome, records_of};
ghost use Rattle.doors_words.specs.Serving.{PassIn};

use immediates_pass::Pass;
use immediates_ranges::Slots;
use ir_records::{Fault, Records, Refusal};
use place_descent::Place;
use place_report::Totals;
use proc_plain_types::PlainLayout;

/// The words stand at the front of a buffer; one of fewer words is left as it was.
pub fn put_front<T: Copy, const N: usize>(words: &mut [T], front: [T; N])
    ensures { words.new ≡ with_front words.old front }
{
    if N <= words.len() {
        words[..N].copy_from_slice(&front);
    }
}

/// The answer as four words; an answer buffer of fewer is left as it was.
#[tactic(auto, unfolding(crate::specs::Words::with_answer))]
pub fn put_answer<T>(answer: &mut [u32], outcome: &Result<T, Refusal>)
    ensures { answer.new ≡ with_answer answer.old (outcome_of outcome.now) }
{
    match outcome {
        Ok(_) => put_front(answer, [0; 4]),
        Err(refusal) => put_front(answer, refusal.words()),
    }
}

/// A buffer of fewer than two words is left as it was.
#[tactic(auto, unfolding(crate::specs::Words::with_two))]
pub fn put_two(words: &mut [u64], a: u64, b: u64)
    ensures { words.new ≡ with_two words.old a b }
{
    put_front(words, [a, b]);
}

/// Both masks, zeros on a refusal; a buffer of one word gets the first.
pub fn put_masks(mask: &mut [u64], found: Result<Slots, Refusal>)
    ensures { mask.new ≡ with_masks mask.old (slots_answer_of found) }
{
    let slots = found.unwrap_or_default();
    if mask.len() == 1 {
        mask[0] = slots.touched;
    } else {
        put_front(mask, [slots.touched, slots.partly]);
    }
}

/// A leaf's byte place and its type, zeros on a refusal.
// Kept: `put_place`, `put_totals` and `put_records` as one generic function would take the struct of zeros and a closure for its two words, and its contract would speak of any such closure; each of the three is two statements.
pub fn put_place(words: &mut [u64], found: Result<Place, Refusal>)
    ensures { words.new ≡ with_two words.old (byte_of (place_answer_of found)) (leaf_of (place_answer_of found)) }
{
    let place = found.unwrap_or_default();
    put_two(words, place.byte, place.leaf as u64);
}

/// The bytes carried and wasted, zeros on a refusal.
pub fn put_totals(words: &mut [u64], found: Result<Totals, Refusal>)
    ensures { words.new ≡ with_two words.old (carried_of (report_answer_of found)) (wasted_of (report_answer_of found)) }
{
    let totals = found.unwrap_or_default();
    put_two(words, totals.carried, totals.wasted);
}

/// Size, alignment and column step, zeros on a refusal; a buffer of fewer words is left as it was.
#[tactic(auto, unfolding(crate::specs::Words::with_numbers))]
pub fn put_numbers(numbers: &mut [u32], found: Result<PlainLayout, Refusal>)
    ensures { numbers.new ≡ with_numbers numbers.old (plain_answer_of found) }
{
    let plain = found.unwrap_or_default();
    put_front(numbers, [plain.size, plain.alignment, plain.step]);
}

/// The pass in three lent words; number 1 on fewer.
pub fn pass_of(words: &[u64]) -> Result<Pass, Refusal>
    ensures { PassIn words.now result }
{
    let &[set, needed, chosen, ..] = words else {
        return Err(Refusal::of(Fault::TableLength));
    };
    Ok(Pass {
        set,
        needed,
        chosen: chosen != 0,
    })
}

/// Fewer than three words are left as they were.
#[tactic(auto, unfolding(crate::specs::Words::with_pass))]
pub fn put_pass(words: &mut [u64], pass: Pass)
    ensures { words.new ≡ with_pass words.old pass }
{
    put_front(words, [pass.set, pass.needed, u64::from(pass.chosen)]);
}

/// A buffer of no word is left.
pub fn put_one(words: &mut [u64], a: u64)
    ensures { words.new ≡ with_one words.old a }
{
    if let Some(word) = words.first_mut() {
        *word = a;
    }
}

// What a reader read as an answer of four words; a refusal names no type.
pub fn put_read(answer: &mut [u32], read: Result<Records, Fault>)
    ensures { answer.new ≡ with_answer answer.old (read_outcome read) }
{
    put_answer(answer, &read.map_err(Refusal::of));
}

/// How many records were read, none on a refusal. Fewer than two words are left as they were.
#[tactic(auto, unfolding(crate::specs::Words::with_two))]
pub fn put_records(words: &mut [u32], read: Result<Records, Fault>)
    ensures { words.new ≡ with_two words.old (records_of read).types (records_of read).members }
{
    let records = read.unwrap_or_default();
    put_front(words, [records.types, records.members]);
}
