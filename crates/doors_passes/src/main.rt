// The steps of a pass through `doors`, over which doors_c is the static library: answers and lent buffers. `stdout` is written by hand from the
// sentences below.
// embed/wuldazin.h: a pass is "the slots set so far, the slots that the chosen pipeline's type needs, and whether a pipeline is chosen, 0
// or not", "An accepted step writes all three, 1 for a pipeline; a refused one writes none. On a shorter buffer every step is refused with
// number 1, before everything else." Each pass here is the first words of a longer buffer, which is printed whole.
#![tactic(auto)]

use doors_lent::Arena;

// With so many words of a pass, at most seven, here and in dispatch.
fn set(name: &[u8], pass: &mut [u64; 7], lent: usize, offset: u32, size: u32) {
    let mut answer = [9u32; 5];
    doors::wuldazin_pass_set(&mut pass[..lent.min(7)], offset, size, &mut answer);
    doors_lent::words(name, &answer);
    doors_lent::words(b"pass", pass);
}

fn dispatch(name: &[u8], pass: &[u64; 7], lent: usize) {
    let mut missing = [9u64; 3];
    let mut answer = [9u32; 5];
    doors::wuldazin_pass_dispatch(&pass[..lent.min(7)], &mut missing, &mut answer);
    doors_lent::words(name, &answer);
    doors_lent::words(b"missing", &missing);
}

// M1's struct needs slots 0 to 3: 15 (M2).
fn accepted() {
    let mut pass = [9u64; 7];
    doors::wuldazin_pass_start(&mut pass);
    doors_lent::words(b"pass", &pass);
    // bytes 0 to 11: slots 0 to 2
    set(b"set 0 12", &mut pass, 7, 0, 12);
    // "36, dispatch with no pipeline or slots missing", "0 without a pipeline"
    dispatch(b"dispatch, no pipeline", &pass, 7);
    Arena::m1(18, 8).choose(b"choose struct 2", 2, &mut pass, 7);
    dispatch(b"dispatch, slot 3 missing", &pass, 7);
    set(b"set 12 4", &mut pass, 7, 12, 4);
    dispatch(b"dispatch", &pass, 7);
}

// Slots 0 and 2 are set, 1 and 2 are needed, and a word that is not 0 stands for a pipeline: "any three words are a pass".
fn refused() {
    let mut pass = [5u64, 6, 7, 9, 9, 9, 9];
    dispatch(b"dispatch, slot 1 missing", &pass, 7);
    // "37, .. or a range with a size or offset not a multiple of 4"
    set(b"set 2 4", &mut pass, 7, 2, 4);
    // "A nonempty range past byte 256 .. is 25"
    set(b"set 252 8", &mut pass, 7, 252, 8);
    // "A type outside the arena is 26"
    Arena::m1(18, 8).choose(b"choose type 3", 3, &mut pass, 7);
    // slot 1
    set(b"set 4 4", &mut pass, 7, 4, 4);
}

// Two words. On three the steps would be 37, 19 and 36.
fn short_start() {
    let mut pass = [5u64, 6, 7, 9, 9, 9, 9];
    doors::wuldazin_pass_start(&mut pass[..2]);
    doors_lent::words(b"start of 2 words", &pass);
}

fn short_steps() {
    let mut pass = [5u64, 6, 7, 9, 9, 9, 9];
    set(b"set, 2 words", &mut pass, 2, 2, 4);
    Arena::of(&doors_lent::M6).choose(b"choose, 2 words", 2, &mut pass, 2);
    dispatch(b"dispatch, 2 words", &pass, 2);
}

fn main() {
    accepted();
    refused();
    short_start();
    short_steps();
}
