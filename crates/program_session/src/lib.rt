// Answers the commands on standard input, line by line, over one arena.
#![tactic(auto)]

ghost use Rattle.std.specs.Prelude.{◌≡◌, ◌≤◌, false, cond, length, take};
ghost use Rattle.program_output.specs.Written.{Sends};
ghost use Rattle.program_answers.specs.Answered.{held};
ghost use Rattle.program_session.specs.Transcript.{lines, rest, after_lines, said, has_stopped, Answers};
ghost use Rattle.program_session.specs.Serving.{Unended, ended_if, kept, Heard, Turned};

use program_answers::Program;
use program_commands::{Session, State};
use program_output::{Output, Standard, Stop};
use std::io::{Read, Write};

const NEWLINE: u8 = b'\n';

// Kept: `has_stopped (held program.old) ≡ false`: the program is lent from function to function and changes between them; a struct that says that it
// reads would be made anew at each call.
// Answers the whole lines of the input, and says how many bytes are left after them; none where the session stops.
fn answer_lines<W: Write>(program: &mut Program, to: &mut W, input: &[u8]) -> usize
    requires short { length input.now ≤ 65536 }
    requires reads { has_stopped (held program.old) ≡ false }
    ensures after { held program.new ≡ after_lines (lines input.now) (held program.old) }
    ensures written { Sends (W.contents to.old) program.old.out (said (lines input.now) (held program.old)) (W.contents to.new) program.new.out }
    ensures left { result ≡ cond (has_stopped (held program.new)) 0 (length (rest input.now)) }
{
    let mut rest = input;
    let mut end = program_words::run_end(rest, 0, |b| b != NEWLINE);
    // Kept: a line is answered once its newline is there, and what stands after the last one stays: `split_inclusive` gives that rest as a piece too, which
    // would have to be told by its last byte, and the bytes answered would be counted by hand to know how many are left.
    while end < rest.len() {
        program.answer(to, &rest[..end]);
        if program.session.state != State::Reading {
            return 0;
        }
        program.session.line = program.session.line.wrapping_add(1);
        rest = &rest[end + 1..];
        end = program_words::run_end(rest, 0, |b| b != NEWLINE);
    }
    rest.len()
}

// Answers the whole lines that a read gave, and keeps the rest; so many bytes are held of it.
fn answer_read<W: Write>(
    program: &mut Program,
    to: &mut W,
    buffer: &mut [u8],
    input: program_input::Input,
) -> usize
    requires within { input.end ≤ length buffer.old }
    requires short { length buffer.old ≤ 65536 }
    requires reads { has_stopped (held program.old) ≡ false }
    ensures after { held program.new ≡ ended_if input.last (after_lines (lines (take input.end buffer.old)) (held program.old)) }
    ensures written { Sends (W.contents to.old) program.old.out (said (lines (take input.end buffer.old)) (held program.old))
        (W.contents to.new) program.new.out }
    ensures held { take result buffer.new ≡ kept (after_lines (lines (take input.end buffer.old)) (held program.old)) (take input.end buffer.old) }
    ensures fits { result ≤ length buffer.old }
{
    let left = answer_lines(program, to, &buffer[..input.end]);
    program_input::keep_rest(buffer, input.end - left..input.end);
    if input.last & (program.session.state == State::Reading) {
        program.session.state = State::Ended;
    }
    left
}

// Reads once, answers the whole lines, and keeps the rest of the input; so many bytes are held of it.
fn read_lines<R: Read, W: Write>(
    program: &mut Program,
    source: &mut R,
    to: &mut W,
    buffer: &mut [u8],
    front: usize,
) -> usize
    requires reads { has_stopped (held program.old) ≡ false }
    requires buffer { length buffer.old ≡ 65536 }
    requires fits { front ≤ 65536 }
    requires unended { Unended (take front buffer.old) }
    ensures heard { Heard (held program.old) (take front buffer.old) (R.remaining source.old) (W.contents to.old) program.old.out
        (held program.new) (take result buffer.new) (R.remaining source.new) (W.contents to.new) program.new.out }
    ensures fits { result ≤ 65536 }
    ensures unended { Unended (take result buffer.new) }
{
    match program_input::read_more(source, buffer, front) {
        Ok(input) => answer_read(program, to, buffer, input),
        Err(error) => {
            program.session.state = State::Stopped(Stop::Input(error));
            0
        }
    }
}

// The same, and writes the answers.
fn turn<R: Read, W: Write>(
    program: &mut Program,
    source: &mut R,
    to: &mut W,
    buffer: &mut [u8],
    front: usize,
) -> usize
    requires reads { has_stopped (held program.old) ≡ false }
    requires none_waits { program.old.out.end ≡ 0 }
    requires room { length program.old.out.bytes ≡ 1114112 }
    requires buffer { length buffer.old ≡ 65536 }
    requires fits { front ≤ 65536 }
    requires unended { Unended (take front buffer.old) }
    ensures turned { Turned (held program.old) (take front buffer.old) (R.remaining source.old) (W.contents to.old)
        (held program.new) (take result buffer.new) (R.remaining source.new) (W.contents to.new) }
    ensures none_waits { program.new.out.end ≡ 0 }
    ensures room { length program.new.out.bytes ≡ 1114112 }
    ensures fits { result ≤ 65536 }
    ensures unended { Unended (take result buffer.new) }
{
    let left = read_lines(program, source, to, buffer, front);
    program.session.flush(&mut program.out, to);
    left
}

/// The whole session: it ends with the input, or at a line that cannot be read, and tells which.
// The reader holds no bytes of its own: each turn answers what one read gives, as it comes.
pub fn answer_input<R: Read, W: Write>(source: &mut R, to: &mut W) -> State
    ensures { Answers result (R.remaining source.old) (W.contents to.old) (W.contents to.new) }
{
    let mut buffer = [0u8; 65536];
    let mut program = Program {
        session: Session::new(),
        arena: program_answers::zeros(),
        rows: program_answers::zeros(),
        out: Output::new(),
    };
    let mut front = 0;
    // Kept: a proved loop has to end, and nothing says that the input does: the turns are counted, up to a number that no run reaches.
    for _ in 0..u64::MAX {
        front = turn(&mut program, source, to, &mut buffer, front);
        if program.session.state != State::Reading {
            break;
        }
    }
    program.session.state
}

/// From standard input to standard output.
pub fn run<R: Input>(rt: &R) {
    answer_input(&mut rt.reader(), &mut Standard);
}
