// Places by three words for each type through `doors`, over which doors_c is the static library: answers and lent buffers. `stdout` is written by hand from the
// sentences below.
// 02, E10: "a scratch of three words for each type, with the same answer and refusal", "A shorter scratch is 1; other arena refusals zero those
// words, acceptance fills them." embed/wuldazin.h: the three words are size, alignment and flags; a run is "its start, how many steps it has, and
// the steps"; "two words for each run, .. both 2^64 - 1 where there is no place"; number 1 leaves every word. Each buffer is printed whole.
// M1 of 01: E, V, S{V at 0, E at 12} span 16; sizes 4, 12, 16, alignments 4, 16, 16, flags 255, 255, 247.
#![tactic(auto)]

ghost use Rattle.std.specs.Prelude.{◌≤◌};

// From the struct to its member 1 and to a member 2 that it has not, and from E with no step.
const RUNS: [u32; 8] = [2, 1, 1, 2, 1, 2, 0, 0];

// The second run has two steps and one word for them.
const CUT: [u32; 6] = [2, 1, 1, 2, 2, 0];

// A place by one step from the struct, with so many words of the scratch lent.
fn short(name: &[u8], types: &[u32; 18], capabilities: u32, step: u32, words: usize)
    requires { words ≤ 11 }
{
    let mut scratch = [9u32; 11];
    let mut place = [9u64; 3];
    let mut answer = [9u32; 5];
    doors::wuldazin_place_short(
        types,
        &doors_lent::MEMBERS,
        capabilities,
        &mut scratch[..words],
        2,
        &[step],
        &mut place,
        &mut answer,
    );
    doors_lent::words(name, &answer);
    doors_lent::words(b"place", &place);
    doors_lent::words(b"scratch", &scratch);
}

// A place of one word and an answer of three are left.
fn short_place() {
    let mut scratch = [9u32; 11];
    let mut place = [9u64; 3];
    let mut answer = [9u32; 5];
    doors::wuldazin_place_short(
        &doors_lent::TYPES,
        &doors_lent::MEMBERS,
        0,
        &mut scratch,
        2,
        &[1],
        &mut place[..1],
        &mut answer[..3],
    );
    doors_lent::words(b"short, place of 1 word, answer of 3", &answer);
    doors_lent::words(b"place", &place);
}

// The places of runs, with so many words of the scratch and of the places lent.
fn many(
    name: &[u8],
    types: &[u32; 18],
    capabilities: u32,
    runs: &[u32],
    words: usize,
    places: usize,
)
    requires { (words ≤ 11) × (places ≤ 7) }
{
    let mut scratch = [9u32; 11];
    let mut found = [9u64; 7];
    let mut answer = [9u32; 5];
    doors::wuldazin_places(
        types,
        &doors_lent::MEMBERS,
        capabilities,
        &mut scratch[..words],
        runs,
        &mut found[..places],
        &mut answer,
    );
    doors_lent::words(name, &answer);
    doors_lent::words(b"places", &found);
    doors_lent::words(b"scratch", &scratch);
}

fn places() {
    let types = &doors_lent::TYPES;
    short(b"short 2 1", types, 0, 1, 11);
    short(b"short 2 2", types, 0, 2, 11);
    short(b"short, M6", &doors_lent::M6, 0, 1, 11);
    short(b"short, a capability bit above 13", types, 16384, 1, 11);
    // a word too few for three types
    short(b"short, scratch of 8 words", types, 0, 1, 8);
    short_place();
}

fn runs() {
    let types = &doors_lent::TYPES;
    many(b"places, 3 runs", types, 0, &RUNS, 11, 7);
    many(b"places, no run", types, 0, &RUNS[..0], 11, 7);
    many(b"places, M6", &doors_lent::M6, 0, &RUNS, 11, 7);
    many(b"places, a run cut in its steps", types, 0, &CUT, 11, 7);
    many(
        b"places, a run cut before its count",
        types,
        0,
        &CUT[..4],
        11,
        7,
    );
    many(
        b"places, a capability bit above 13",
        types,
        16384,
        &RUNS,
        11,
        7,
    );
    many(b"places, scratch of 8 words", types, 0, &RUNS, 8, 7);
    // a word too few for three runs
    many(b"places, 5 words for 3 runs", types, 0, &RUNS, 11, 5);
}

fn main() {
    places();
    runs();
}
