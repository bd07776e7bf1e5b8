// Where a module is refused: the instruction, found by reading the words before it.
#![tactic(auto)]

ghost use Rattle.std.specs.Prelude.{◌≡◌, ◌+◌, ◌-◌, ◌<◌, length, replicate, true, false};
ghost use Rattle.spirv_read.specs.Read.{read_into, section_of};
ghost use Rattle.sheet_places.specs.Places.{after_instruction, place_of, words_before, is_refusal};
ghost use Rattle.sheet_places.specs.Halving.{is_refused, refused_before, half_start, half_end, refused_at};

use std::ops::Range;

// Where the instruction after the one at `at` starts; past the words where its count is 0.
fn after_instruction(words: &[u32], at: usize) -> usize
    requires { at < length words.now }
    ensures { (result ≡ after_instruction words.now at) × (at < result) }
{
    let count = spirv_words::word_count(words, at);
    if count == 0 {
        return words.len();
    }
    at + count
}

// Where the instruction with number k stands; past the words where there are fewer.
pub fn place_of(words: &[u32], k: usize) -> usize
    ensures { result ≡ place_of words.now k }
{
    let mut at: usize = spirv_words::HEADER_WORDS;
    // Kept: `Instructions` of spirv_words stops before an instruction without words, which is refused and has a place too.
    for _ in 0..k {
        if words.len() <= at {
            return at;
        }
        at = after_instruction(words, at);
    }
    at
}

// The words before the instruction with number k.
pub fn before(words: &[u32], k: usize) -> &[u32]
    ensures { result.now ≡ words_before words.now k }
{
    words.get(..place_of(words, k)).unwrap_or(words)
}

// Whether the words are refused as a module.
pub fn is_refused(words: &[u32]) -> bool
    ensures { result ≡ is_refusal (section_of (read_into words.now (replicate 6144 0) (replicate 16384 0))) }
{
    let mut types = [0u32; ir_records::TYPE_TABLE];
    let mut members = [0u32; ir_records::MEMBER_TABLE];
    spirv_reader::read_module(words, &mut types, &mut members).is_err()
}

// One half of the instructions with these numbers: the words before its first are not refused, and those up to its end are.
fn halved(words: &[u32], among: Range<usize>) -> Range<usize>
    requires { 1 < among.end - among.start }
    ensures less { result.end - result.start < among.end - among.start }
    ensures start { result.start ≡ half_start (refused_before words.now) among.start among.end }
    ensures end { result.end ≡ half_end (refused_before words.now) among.start among.end }
{
    let middle = among.start + (among.end - among.start) / 2;
    if is_refused(before(words, middle)) {
        among.start..middle
    } else {
        middle..among.end
    }
}

// The number of the instruction at which a module is refused. What an instruction is refused for stands before it, so halves are enough.
pub fn refused_at(words: &[u32]) -> usize
    ensures at { result ≡ refused_at words.now }
    ensures before { refused_before words.now 0 ≡ false → refused_before words.now result ≡ false }
    ensures to_its_end { 0 < length words.now → is_refused words.now ≡ true → refused_before words.now (result + 1) ≡ true }
{
    let mut among = 0..words.len();
    // Kept: each step halves the range, which no range counts; `partition_point` is of a slice, in which these numbers do not stand.
    while 1 < among.len() {
        among = halved(words, among);
    }
    among.start
}
