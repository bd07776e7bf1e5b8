// E4 of 02: "Judging answers alike whatever these rows hold."
// E1 of 02: "two 64-bit words a type, 0 for the unreported; a shorter one is 1, and other refusals zero it."
// embed/wuldazin.h: the totals are zeros on a refusal, and no word after the types' own is written.

use doors_lent::Arena;

// M1's struct with a span of 32.
const WIDE: [u32; 18] = [0, 2, 4, 0, 0, 0, 1, 3, 2, 4, 0, 0, 8, 0, 2, 32, 0, 0];

// S{array of one E, stride 0, at 0} span 4.
const NARROW: [u32; 18] = [0, 2, 4, 0, 0, 0, 7, 0, 0, 1, 0, 0, 8, 0, 1, 4, 0, 0];

fn judged() {
    // M1
    Arena::of(&doors_lent::TYPES).judge(b"judge M1");
    // M6
    Arena::of(&doors_lent::M6).judge(b"judge M6");
}

fn reports() {
    // V has 12 bytes from 0 on, E 4 from 12 on: all of the span
    Arena::of(&doors_lent::TYPES).report(b"report M1", 7);
    // "the bytes of the span in no leaf": 16 of 32
    Arena::of(&WIDE).report(b"report, span 32", 7);
    // "a shorter one is 1"
    Arena::of(&doors_lent::TYPES).report(b"report of 5 words", 5);
}

fn refused_reports() {
    // "27, a host-shareable struct reaches an array with a stride below its element's size"
    Arena::of(&NARROW).report(b"report, stride 0", 7);
    // "given after the arena's own refusals"
    Arena::of(&doors_lent::M6).report(b"report M6", 7);
}

pub fn run() {
    judged();
    reports();
    refused_reports();
}
