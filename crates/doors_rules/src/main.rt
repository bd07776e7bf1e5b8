// Calls each function of `doors`, over which doors_c is the static library, that judges by either uniform rule, and prints answers and lent buffers.
// `stdout` is written by hand from the sentences beside the calls.
// E8 of 02: "A caller chooses the older or the newer rule for each check." embed/wuldazin.h: the rule is the word after the capability word, 0 or 1;
// another word is number 1, and touches no row, no report and no pass. Each call is made with 0, with 1 and with a word above.
#![tactic(auto)]

use doors_lent::Arena;

// M9: E, S{E} span 4, S{that at 0, E at 4} span 16. By the older rule S{E} is Ok 16 and the struct "code 4, bound 16"; by the newer their uniform
// verdicts are their storage verdicts, Ok 4.
const TYPES: [u32; 18] = [0, 2, 4, 0, 0, 0, 8, 0, 1, 4, 0, 0, 8, 1, 2, 16, 0, 0];

const MEMBERS: [u32; 12] = [0, 0, 0, 0, 1, 0, 0, 0, 0, 4, 0, 0];

fn by(rule: u32) -> Arena<'static> {
    Arena {
        types: &TYPES,
        members: &MEMBERS,
        capabilities: 0,
        rule,
    }
}

fn checks() {
    by(0).check(b"check by rule 0");
    by(1).check(b"check by rule 1");
    by(2).check(b"check by rule 2");
    by(0).judge(b"judge by rule 0");
    by(1).judge(b"judge by rule 1");
    by(2).judge(b"judge by rule 2");
}

fn walks() {
    // E at 0 and at 4: slots 0 and 1.
    by(0).slots(b"slots by rule 0", 2, 0);
    by(1).slots(b"slots by rule 1", 2, 0);
    by(2).slots(b"slots by rule 2", 2, 0);
    // Member 1 is E at 4.
    by(0).place(b"place by rule 0", 2, &[1]);
    by(1).place(b"place by rule 1", 2, &[1]);
    by(2).place(b"place by rule 2", 2, &[1]);
}

// S{E}: 4 bytes carried of 4; the struct: 8 of 16.
fn report(name: &[u8], rule: u32) {
    let rows = by(rule).report(name, 7);
    doors_lent::words(b"rows", &rows);
}

// From a pass with slot 0 set and a pipeline that needs slots 1 and 2.
fn choose(name: &[u8], rule: u32) {
    let mut pass = [1u64, 6, 1, 9, 9, 9, 9];
    by(rule).choose(name, 2, &mut pass, 7);
}

fn others() {
    report(b"report by rule 0", 0);
    report(b"report by rule 1", 1);
    report(b"report by rule 2", 2);
    choose(b"choose by rule 0", 0);
    choose(b"choose by rule 1", 1);
    choose(b"choose by rule 4294967295", 4294967295);
}

fn main() {
    checks();
    walks();
    others();
}
