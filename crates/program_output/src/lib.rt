// The answers wait in a buffer; `flush`, `write_out` and `make_room` write them to what they are lent for it.
#![tactic(auto)]

ghost use Rattle.std.specs.Prelude.{true, false, ◌≡◌, ◌⊎◌, Err, OnOk, [], ◌∷◌, ◌++◌, ◌≤◌, ◌<◌, ◌+◌, ◌*◌, length, take};
ghost use Rattle.std.specs.Io.KnownBytes.{Appends};
ghost use Rattle.ir_records.specs.Outcome.{Accepted, Refused};
ghost use Rattle.ir_records.specs.Refusal.{number_of};
ghost use Rattle.immediates_ranges.specs.Answer as answer;
ghost use Rattle.program_output.specs.declared.WriteError.TheVariants as error;
ghost use Rattle.program_output.specs.Bytes.{Adds, decimal, number, named, numbers, newline, words_line, row_line, row_lines, report_line, report_lines};
ghost use Rattle.program_output.specs.Written.{Sends};
ghost use Rattle.program_output.specs.Answers.{refusal_line, outcome_lines, slots_line, step_line, dispatch_lines};
ghost use Rattle.program_output.specs.Answers.{word_of, why_text, usage_text, word_part, stop_line};

use immediates_ranges::Slots;
use ir_records::Refusal;
use program_arguments::{Command, Reason};
use program_input::{ReadError, STDERR, STDOUT};
use std::io::{ErrorKind, Write};

// There is room for every answer: 1,048,576 bytes of a WGSL text, which may be one token, and what is said of it.
const ROOM: usize = 1114112;

pub type Buffer = [u8; ROOM];

const NEWLINE: u8 = b'\n';

// Past the buffer's end: nothing more is put or written.
const FULL: usize = ROOM + 1;

/// Why the answers that waited are not written.
#[derive(Clone, Copy, Debug, PartialEq, Eq)]
pub enum WriteError {
    /// There was no room for all of them.
    NoRoom,
    Failed,
}

/// The answers that wait. `end` is how many bytes wait; it stays past the buffer's end once there was no room for a byte.
/// Each `put_` method says which bytes it puts after those that wait. It is not Copy: a copy of so large a buffer would be a mistake.
// Kept: a buffer and how much of it is used: there is no heap for a vector. That there was no room is a position too: a flag beside `end` would be a
// second thing for every contract to carry, here and in the crates above, where `Puts` says both by one number.
#[derive(Drop)]
pub struct Output {
    pub bytes: Buffer,
    pub end: usize,
}

/// Standard output, as what answers are written to.
#[derive(Clone, Copy, Debug, PartialEq, Eq)]
pub struct Standard;

// What is written there is the operating system's, so that nothing is known of its contents.
impl Write for Standard {
    fn write(&mut self, bytes: &[u8]) -> std::io::Result<usize> {
        if io::write_all(STDOUT, bytes) {
            return Ok(bytes.len());
        }
        Err(std::io::Error::from(ErrorKind::Other))
    }

    fn flush(&mut self) -> std::io::Result<()> {
        Ok(())
    }
}

impl Output {
    /// Nothing waits.
    pub fn new() -> Output
        ensures none_waits { result.end ≡ 0 }
        ensures room { length result.bytes ≡ 1114112 }
    {
        Output {
            bytes: program_files::filled(0),
            end: 0,
        }
    }

    /// Writes out what waits. A program has no exit status, so a failed write is told where the answers do not go.
    pub fn flush<W: Write>(&mut self, to: &mut W) -> Result<(), WriteError>
        ensures past { 1114112 < self.old.end → result ≡ Err error.NoRoom }
        ensures none_waits { self.new.end ≡ 0 }
        ensures bytes { self.new.bytes ≡ self.old.bytes }
        ensures written { OnOk result (Appends (W.contents to.old) (W.contents to.new) (take self.old.end self.old.bytes)) }
    {
        let end = self.end;
        self.end = 0;
        if end > self.bytes.len() {
            return Err(WriteError::NoRoom);
        }
        if to.write_all(&self.bytes[..end]).is_ok() {
            return Ok(());
        }
        io::write_all(STDERR, b"the answers cannot be written\n");
        Err(WriteError::Failed)
    }

    /// Writes out what waits where nothing comes after it, and answers whether it could be: that it could not has been told.
    // Kept: a bool, which the end of a program may leave; `flush` says why.
    pub fn write_out<W: Write>(&mut self, to: &mut W) -> bool
        ensures past { 1114112 < self.old.end → result ≡ false }
        ensures none_waits { self.new.end ≡ 0 }
        ensures written { result ≡ true → Appends (W.contents to.old) (W.contents to.new) (take self.old.end self.old.bytes) }
    {
        self.flush(to).is_ok()
    }

    /// Writes out what waits where there is no room for n more bytes. After a write that failed nothing more waits, and the next one fails too.
    pub fn make_room<W: Write>(&mut self, to: &mut W, n: usize)
        ensures fits { self.old.end + n ≤ 1114112 → (self.new ≡ self.old) × (to.new ≡ to.old) }
        ensures made { 1114112 < self.old.end + n → (self.new.end ≡ 0) ⊎ (self.new.end ≡ 1114113) }
        ensures past { 1114112 < self.old.end → self.new.end ≡ 1114113 }
        ensures written { Sends (W.contents to.old) self.old [] (W.contents to.new) self.new }
    {
        let fits = self.end.saturating_add(n) <= self.bytes.len();
        if !fits && self.flush(to).is_err() {
            self.end = FULL;
        }
    }

    pub fn put_byte(&mut self, b: u8)
        ensures { Adds self.old (b ∷ []) self.new }
    {
        let at = self.end;
        if at < self.bytes.len() {
            self.bytes[at] = b;
            self.end = at + 1;
            return;
        }
        if at == self.bytes.len() {
            self.end = at + 1;
        }
    }

    pub fn put_text(&mut self, text: &[u8])
        ensures { Adds self.old text.now self.new }
    {
        for b in text {
            self.put_byte(*b);
        }
    }

    // A number with nothing before it.
    pub fn put_decimal(&mut self, n: u64)
        ensures { Adds self.old (decimal n) self.new }
    {
        let mut digits = [0u8; 20];
        let k = io::decimal(n, &mut digits);
        self.put_text(&digits[..k]);
    }

    // A number after a blank.
    fn put_number(&mut self, n: u64)
        ensures { Adds self.old (number 32 n) self.new }
    {
        self.put_byte(b' ');
        self.put_decimal(n);
    }

    // A word and a number.
    pub fn put_named(&mut self, name: &[u8], n: u64)
        ensures { Adds self.old (named name.now n) self.new }
    {
        self.put_text(name);
        self.put_number(n);
    }

    // Each number after a blank.
    fn put_numbers(&mut self, words: &[u32])
        ensures { Adds self.old (numbers words.now) self.new }
    {
        for word in words {
            self.put_number(u64::from(*word));
        }
    }

    // A line of words after its head.
    pub fn put_words(&mut self, head: &[u8], words: &[u32])
        ensures { Adds self.old (words_line head.now words.now) self.new }
    {
        self.put_text(head);
        self.put_numbers(words);
        self.put_byte(NEWLINE);
    }

    // A row after its number.
    fn put_row(&mut self, i: usize, row: &[u32])
        ensures { Adds self.old (decimal i ++ numbers row.now ++ newline) self.new }
    {
        self.put_decimal(i as u64);
        self.put_numbers(row);
        self.put_byte(NEWLINE);
    }

    // A line for each row of fourteen words.
    fn put_rows(&mut self, rows: &[u32])
        ensures { Adds self.old (row_lines rows.now) self.new }
    {
        for (i, row) in rows.chunks_exact(ir_records::ROW_WORDS).enumerate() {
            self.put_row(i, row);
        }
    }

    pub fn put_refusal(&mut self, refusal: Refusal)
        ensures { Adds self.old (refusal_line (number_of refusal.fault) refusal.ty refusal.member refusal.detail) self.new }
    {
        self.put_words(b"refused", &refusal.words());
    }

    /// That an arena is accepted, with the rows of its types.
    pub fn put_accepted(&mut self, rows: &[u32])
        ensures { Adds self.old (outcome_lines Accepted rows.now) self.new }
    {
        self.put_text(b"ok\n");
        self.put_rows(rows);
    }

    /// A word, two numbers and the end of the line.
    pub fn put_two(&mut self, name: &[u8], n: u64, m: u64)
        ensures { Adds self.old (named name.now n ++ number 32 m ++ newline) self.new }
    {
        self.put_named(name, n);
        self.put_number(m);
        self.put_byte(NEWLINE);
    }

    pub fn put_slots(&mut self, slots: Slots)
        ensures { Adds self.old (slots_line (answer.Slots slots.touched slots.partly)) self.new }
    {
        self.put_two(b"slots", slots.touched, slots.partly);
    }

    // The two counts of type i, after its number.
    fn put_counts(&mut self, i: usize, carried: u64, wasted: u64)
        ensures { Adds self.old (decimal i ++ number 32 carried ++ number 32 wasted ++ newline) self.new }
    {
        self.put_decimal(i as u64);
        self.put_number(carried);
        self.put_number(wasted);
        self.put_byte(NEWLINE);
    }

    /// A line for each type of a report: its number and its two words.
    pub fn put_report_lines(&mut self, report: &[u64])
        ensures { Adds self.old (report_lines report.now) self.new }
    {
        for (i, counts) in report.chunks_exact(2).enumerate() {
            self.put_counts(i, counts[0], counts[1]);
        }
    }

    // A word, a number and the end of the line.
    fn put_one(&mut self, name: &[u8], n: u64)
        ensures { Adds self.old (named name.now n ++ newline) self.new }
    {
        self.put_named(name, n);
        self.put_byte(NEWLINE);
    }

    /// The slots after a step of a pass that was accepted.
    pub fn put_step(&mut self, name: &[u8], mask: u64)
        ensures { Adds self.old (step_line name.now mask Accepted) self.new }
    {
        self.put_one(name, mask);
    }

    /// That a dispatch passes.
    pub fn put_passes(&mut self)
        ensures { Adds self.old (dispatch_lines Accepted 0) self.new }
    {
        self.put_text(b"passes\n");
    }

    /// Why a dispatch does not pass, and the slots that are missing.
    pub fn put_missing(&mut self, refusal: Refusal, missing: u64)
        ensures { Adds self.old (dispatch_lines (Refused (number_of refusal.fault) refusal.ty refusal.member refusal.detail) missing) self.new }
    {
        self.put_refusal(refusal);
        self.put_one(b"missing", missing);
    }

    // The number of a word that is wrong.
    fn put_word(&mut self, word: Option<u32>)
        ensures { Adds self.old (word_part word) self.new }
    {
        if let Some(word) = word {
            self.put_named(b": word", u64::from(word));
        }
    }

    /// The line at which a session stops, the word of it that is wrong, if one is, and why.
    pub fn put_stop(&mut self, line: u64, stop: Stop)
        ensures { Adds self.old (stop_line line stop) self.new }
    {
        self.put_named(b"line", line);
        self.put_word(stop.word());
        self.put_text(stop.why());
    }
}

/// Why a session stops.
#[derive(Clone, Copy, Debug, PartialEq, Eq)]
pub enum Stop {
    Input(ReadError),
    TypesFull,
    MembersFull,
    /// A line cannot be read.
    Line(Reason),
}

impl Stop {
    /// The number of the word that is wrong, from 1 on.
    pub fn word(self) -> Option<u32>
        ensures { result ≡ word_of self }
    {
        match self {
            Stop::Line(Reason::NotANumber(word) | Reason::TooLarge(word)) => Some(word),
            _ => None,
        }
    }

    /// The rest of the line that says why.
    #[tactic(auto, unfolding(crate::specs::Answers::why_text))]
    pub fn why(self) -> &'static [u8]
        ensures { result.now ≡ why_text self }
    {
        match self {
            Stop::Input(ReadError::Long) => b": longer than 65535 bytes\n",
            Stop::Input(ReadError::Failed) => b": the input cannot be read\n",
            Stop::TypesFull => b": the arena is full, with 1024 types\n",
            Stop::MembersFull => b": the member table is full, with 4096 members\n",
            Stop::Line(Reason::NotANumber(_)) => b" is not a decimal number\n",
            Stop::Line(Reason::TooLarge(_)) => b" is above 4294967295\n",
            Stop::Line(Reason::ByteOrderMark) => b": a byte order mark stands in it\n",
            Stop::Line(Reason::Nul) => b": a NUL byte stands in it\n",
            Stop::Line(Reason::Return) => b": a carriage return stands before its end\n",
            Stop::Line(Reason::NoCommand) =>
                b": no such command; there are caps, rule, type, member, layout, judge, check, members, slots, range, place, short, report, plain, pass, set, choose, run, clear and order\n",
            Stop::Line(Reason::Usage(command)) => usage_text(command),
        }
    }
}

// What a command takes.
// Kept: how many numbers a command takes stands in `usage_of` of program_lines: a row of both would take what is printed into the crate that reads.
#[tactic(auto, unfolding(crate::specs::Answers::usage_text))]
fn usage_text(command: Command) -> &'static [u8]
    ensures { result.now ≡ usage_text command }
{
    match command {
        Command::Capabilities => b": caps takes one number\n",
        Command::Rule => b": rule takes one number\n",
        Command::TypeRecord => b": type takes a kind and at most 5 words\n",
        Command::MemberRecord =>
            b": member takes a type and an offset, and may take a location and a blend source\n",
        Command::Layout => b": layout takes no number\n",
        Command::Judge => b": judge takes no number\n",
        Command::Check => b": check takes no number\n",
        Command::Members => b": members takes a type\n",
        Command::Slots => b": slots takes a type and an offset\n",
        Command::Range => b": range takes an offset and a size\n",
        Command::Place => b": place takes a type and at most 1024 steps\n",
        Command::Short => b": short takes a type and at most 1024 steps\n",
        Command::Report => b": report takes no number\n",
        Command::Plain => b": plain takes a shape and a width\n",
        Command::Pass => b": pass takes no number\n",
        Command::SetRange => b": set takes an offset and a size\n",
        Command::Choose => b": choose takes a type\n",
        Command::Run => b": run takes no number\n",
        Command::Clear => b": clear takes no number\n",
        Command::Order => b": order takes a span and at most 1024 types\n",
    }
}
