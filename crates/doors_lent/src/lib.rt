// What the programs that call `doors`, over which doors_c is the static library, share: the calls with lent buffers, and the lines that they print.
// Each word of a lent buffer is 9 before its call, and all of them are printed after it, those past the call's own too.
#![tactic(auto)]

ghost use Rattle.std.specs.Prelude.{◌≡◌, List, ℕ, ◌≤◌, ◌==◌, ◌++◌, count_by, min, OnOk};
ghost use Rattle.std.specs.Io.KnownBytes.{Appends};
ghost use Rattle.program_output.specs.Bytes.{ascii, number};
ghost use Rattle.doors_lent.specs.Printed.{WordsLine, refusal_line};
ghost use Rattle.doors_lent.specs.Lent.{nines, first_words, rows_checked, rows_laid_out, rows_reported};
ghost use Rattle.doors_lent.specs.Lent.{slot_words, place_words, choice, after_step, part_words, range_words, plain_words};
ghost use Rattle.doors_lent.specs.Calls.{LeavesRows, LeavesFound, ReadLeaves};

use program_output::Standard;
use std::io::Write;

// A line begins with a name.
fn put_name<W: Write>(to: &mut W, name: &[u8]) -> std::io::Result<()>
    ensures { OnOk result (Appends (W.contents to.old) (W.contents to.new) (name.now ++ ascii ":")) }
{
    to.write_all(name)?;
    to.write_all(b":")
}

// A number after a blank.
fn put_number<W: Write>(to: &mut W, n: u64) -> std::io::Result<()>
    ensures { OnOk result (Appends (W.contents to.old) (W.contents to.new) (number 32 n)) }
{
    let mut digits = [0u8; 20];
    let k = io::decimal(n, &mut digits);
    to.write_all(b" ")?;
    to.write_all(&digits[..k])
}

/// Writes the words of a buffer in a line.
pub fn put_words<W: Write, T: Copy + Into<u64>>(
    to: &mut W,
    name: &[u8],
    words: &[T],
) -> std::io::Result<()>
    ensures { OnOk result ((bytes : List ℕ) × WordsLine T.converts name.now words.now bytes × Appends (W.contents to.old) (W.contents to.new) bytes) }
{
    put_name(to, name)?;
    for word in words {
        put_number(to, (*word).into())?;
    }
    to.write_all(b"\n")
}

/// Prints the words of a buffer. A print that fails is not told: what is missing shows in what is compared.
pub fn words<T: Copy + Into<u64>>(name: &[u8], words: &[T]) {
    let _ = put_words(&mut Standard, name, words);
}

/// Writes the answer of an arena that is made for a number.
pub fn put_refusal<W: Write>(to: &mut W, number: u32, answer: &[u32; 5]) -> std::io::Result<()>
    ensures { OnOk result (Appends (W.contents to.old) (W.contents to.new) (refusal_line number answer.now)) }
{
    to.write_all(b"made for")?;
    put_number(to, number as u64)?;
    put_words(to, b"", answer)
}

/// Prints the answer of an arena that is made for a number.
pub fn refusal(number: u32, answer: &[u32; 5]) {
    let _ = put_refusal(&mut Standard, number, answer);
}

/// How many words of a long buffer are n; the number that is printed is handed back.
pub fn count(name: &[u8], words: &[u32], n: u32) -> usize
    ensures { result ≡ count_by (λ word. word == n) words.now }
{
    let found = words.iter().filter(|word| **word == n).count();
    self::words(name, &[found as u64]);
    found
}

/// M1 of 01: E, V, S{V at 0, E at 12} span 16.
pub const TYPES: [u32; 18] = [0, 2, 4, 0, 0, 0, 1, 3, 2, 4, 0, 0, 8, 0, 2, 16, 0, 0];

pub const MEMBERS: [u32; 8] = [1, 0, 0, 0, 0, 12, 0, 0];

/// M1's struct with a span of 15: M6, which is 19, member 1.
pub const M6: [u32; 18] = [0, 2, 4, 0, 0, 0, 1, 3, 2, 4, 0, 0, 8, 0, 2, 15, 0, 0];

// The first n words; none where there are fewer.
// Kept: this is the function that cuts a table to a length.
fn first(words: &[u32], n: usize) -> &[u32]
    ensures { result.now ≡ first_words words.now n }
{
    words.get(..n).unwrap_or(&[])
}

// Kept: `F.IsAlwaysCallable call`: each function that takes a closure asks that it may be called.
// A call with rows for three types and two words more, and with an answer: both are printed after it, and the rows handed back.
fn with_rows<F: FnOnce(&mut [u32], &mut [u32])>(name: &[u8], call: F) -> [u32; 44]
    requires { F.IsAlwaysCallable call }
    ensures { (answer : List ℕ) × LeavesRows F.FnOnce call result answer }
{
    let mut rows = [9u32; 44];
    let mut answer = [9u32; 5];
    call(&mut rows, &mut answer);
    words(name, &answer);
    words(b"rows", &rows);
    rows
}

// The same with two words more that the call has, and a third behind them; these three are handed back.
fn with_two<F: FnOnce(&mut [u32], &mut [u64], &mut [u32])>(
    name: &[u8],
    two: &[u8],
    call: F,
) -> [u64; 3]
    requires { F.IsAlwaysCallable call }
    ensures { (rows answer : List ℕ) × LeavesFound F.FnOnce call rows result answer }
{
    let mut rows = [9u32; 44];
    let mut found = [9u64; 3];
    let mut answer = [9u32; 5];
    call(&mut rows, &mut found, &mut answer);
    words(name, &answer);
    words(two, &found);
    words(b"rows", &rows);
    found
}

/// What a call is tried on: records, the capability word and the word of the uniform rule.
#[derive(Clone, Copy, Debug, PartialEq, Eq)]
pub struct Arena<'a> {
    pub types: &'a [u32],
    pub members: &'a [u32],
    pub capabilities: u32,
    pub rule: u32,
}

impl<'a> Arena<'a> {
    /// Types with M1's members, by the older rule and with no capability.
    pub fn of(types: &'a [u32]) -> Arena<'a>
        ensures types { result.types ≡ types.entry }
        ensures members { result.members.now ≡ MEMBERS }
        ensures capabilities { result.capabilities ≡ 0 }
        ensures rule { result.rule ≡ 0 }
    {
        Arena {
            types,
            members: &MEMBERS,
            capabilities: 0,
            rule: 0,
        }
    }

    /// The first words of M1's types and members, none of a table that has fewer; by the older rule and with no capability.
    pub fn m1(types: usize, members: usize) -> Arena<'a>
        ensures types { result.types.now ≡ first_words TYPES types }
        ensures members { result.members.now ≡ first_words MEMBERS members }
        ensures capabilities { result.capabilities ≡ 0 }
        ensures rule { result.rule ≡ 0 }
    {
        Arena {
            members: first(&MEMBERS, members),
            ..Arena::of(first(&TYPES, types))
        }
    }

    pub fn with_capabilities(self, capabilities: u32) -> Arena<'a>
        ensures { result ≡ record self.entry { capabilities = capabilities } }
    {
        Arena {
            capabilities,
            ..self
        }
    }

    /// A check with these rows.
    pub fn check_rows(self, name: &[u8], rows: &mut [u32])
        ensures { rows.new ≡ rows_checked self.entry rows.old }
    {
        let mut answer = [9u32; 5];
        doors::wuldazin_check(
            self.types,
            self.members,
            self.capabilities,
            self.rule,
            rows,
            &mut answer,
        );
        words(name, &answer);
        words(b"rows", rows);
    }

    /// A check with rows for three types and two words more. As in judge and layout, the rows that are printed are handed back.
    pub fn check(self, name: &[u8]) -> [u32; 44]
        ensures { result ≡ rows_checked self.entry (nines 44) }
    {
        let mut rows = [9u32; 44];
        self.check_rows(name, &mut rows);
        rows
    }

    pub fn judge(self, name: &[u8]) -> [u32; 44]
        ensures { result ≡ rows_checked self.entry (nines 44) }
    {
        with_rows(name, |rows, answer| {
            doors::wuldazin_judge(
                self.types,
                self.members,
                self.capabilities,
                self.rule,
                rows,
                answer,
            )
        })
    }

    pub fn layout(self, name: &[u8]) -> [u32; 44]
        ensures { result ≡ rows_laid_out self.entry }
    {
        with_rows(name, |rows, answer| {
            doors::wuldazin_layout(self.types, self.members, rows, answer)
        })
    }

    /// With so many words, at most seven, of a report for three types and a word more; the rows, which are not printed, are handed back.
    pub fn report(self, name: &[u8], lent: usize) -> [u32; 44]
        ensures { result ≡ rows_reported self.entry (min lent 7) }
    {
        let mut rows = [9u32; 44];
        let mut report = [9u64; 7];
        let mut totals = [9u64; 3];
        let mut answer = [9u32; 5];
        doors::wuldazin_report(
            self.types,
            self.members,
            self.capabilities,
            self.rule,
            &mut rows,
            &mut report[..lent.min(7)],
            &mut totals,
            &mut answer,
        );
        words(name, &answer);
        words(b"report", &report);
        words(b"totals", &totals);
        rows
    }

    /// The slots of a type from an offset on. As in place, the words that are printed beside the rows are handed back.
    // Kept: slots and place each make a call of their own; what they share is with_two.
    pub fn slots(self, name: &[u8], ty: u32, offset: u32) -> [u64; 3]
        ensures { result ≡ slot_words self.entry ty offset }
    {
        with_two(name, b"mask", |rows, mask, answer| {
            doors::wuldazin_slots(
                self.types,
                self.members,
                self.capabilities,
                self.rule,
                rows,
                ty,
                offset,
                mask,
                answer,
            )
        })
    }

    pub fn place(self, name: &[u8], start: u32, steps: &[u32]) -> [u64; 3]
        ensures { result ≡ place_words self.entry start steps.now }
    {
        with_two(name, b"place", |rows, place, answer| {
            doors::wuldazin_place(
                self.types,
                self.members,
                self.capabilities,
                self.rule,
                rows,
                start,
                steps,
                place,
                answer,
            )
        })
    }

    /// A choice by a type, with so many words of a pass, at most seven.
    pub fn choose(self, name: &[u8], ty: u32, pass: &mut [u64; 7], lent: usize)
        ensures { pass.new ≡ after_step (choice self.entry ty) (min lent 7) pass.old }
    {
        let mut rows = [9u32; 44];
        let mut answer = [9u32; 5];
        doors::wuldazin_pass_choose(
            self.types,
            self.members,
            self.capabilities,
            self.rule,
            &mut rows,
            ty,
            &mut pass[..lent.min(7)],
            &mut answer,
        );
        words(name, &answer);
        words(b"pass", pass);
        words(b"rows", &rows);
    }

    /// The part of the member table that the rows of a struct are; the words that are printed are handed back.
    pub fn part(self, name: &[u8], ty: u32) -> [u64; 3]
        ensures { result ≡ part_words self.entry ty }
    {
        let mut part = [9u64; 3];
        doors::wuldazin_members(self.types, self.members, ty, &mut part);
        words(name, &part);
        part
    }
}

// Kept: `range` and `plain` lend buffers of two types; one function would take the 9 of the type, the buffer's name and the call as a closure, for two callers.
pub fn range(name: &[u8], offset: u32, size: u32) -> [u64; 3]
    ensures { result ≡ range_words offset size }
{
    let mut mask = [9u64; 3];
    let mut answer = [9u32; 5];
    doors::wuldazin_range(offset, size, &mut mask, &mut answer);
    words(name, &answer);
    words(b"mask", &mask);
    mask
}

pub fn plain(name: &[u8], shape: u32, width: u32) -> [u32; 5]
    ensures { result ≡ plain_words shape width }
{
    let mut numbers = [9u32; 5];
    let mut answer = [9u32; 5];
    doors::wuldazin_plain(shape, width, &mut numbers, &mut answer);
    words(name, &answer);
    words(b"numbers", &numbers);
    numbers
}

/// How many words of each buffer are lent to a reader.
#[derive(Clone, Copy, Debug, PartialEq, Eq)]
pub struct Room {
    pub types: usize,
    pub members: usize,
    pub counts: usize,
    pub answer: usize,
}

/// The buffers of a reader.
#[derive(Clone, Copy, Debug, PartialEq, Eq)]
pub struct Lent<const TYPES: usize> {
    pub types: [u32; TYPES],
    pub members: [u32; 10],
    pub counts: [u32; 3],
    pub answer: [u32; 5],
}

/// A call of a reader, with so many words of each buffer; all words of them are printed after it, and handed back.
pub fn read<const TYPES: usize, F: FnOnce(&mut [u32], &mut [u32], &mut [u32], &mut [u32])>(
    name: &[u8],
    counts_name: &[u8],
    room: Room,
    call: F,
) -> Lent<TYPES>
    requires within { (TYPES ≤ 26) × (room.types ≤ TYPES) × (room.members ≤ 10) × (room.counts ≤ 3) × (room.answer ≤ 5) }
    requires callable { F.IsAlwaysCallable call }
    ensures { ReadLeaves F.FnOnce call TYPES room result }
{
    let mut types = [9u32; TYPES];
    let mut members = [9u32; 10];
    let mut counts = [9u32; 3];
    let mut answer = [9u32; 5];
    call(
        &mut types[..room.types],
        &mut members[..room.members],
        &mut counts[..room.counts],
        &mut answer[..room.answer],
    );
    words(name, &answer);
    words(counts_name, &counts);
    words(b"types", &types);
    words(b"members", &members);
    Lent {
        types,
        members,
        counts,
        answer,
    }
}
