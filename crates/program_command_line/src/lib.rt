// The program `inspect`: it answers its arguments, and without one the commands on standard input.
#![tactic(auto)]

ghost use Rattle.std.specs.Prelude.{◌≡◌, true};
ghost use Rattle.std.specs.Io.KnownBytes.{Appends};
ghost use Rattle.program_output.specs.Bytes.{Adds};
ghost use Rattle.program_command_line.specs.Arguments.{help_text, is_help, unknown_bytes, argument_bytes};

use program_output::{Output, Standard};
use std::io::Write;
use std::rt::Env;

// Whether an argument is --help.
fn is_help(name: &[u8]) -> bool
    ensures { result ≡ is_help name.now }
{
    name == b"--help".as_slice()
}

#[tactic(auto, unfolding(crate::specs::Arguments::help_text))]
fn put_help(out: &mut Output)
    ensures { Adds out.old help_text out.new }
{
    out.put_text(
        b"inspect answers the commands on standard input, one to a line. Numbers are decimal; # starts a comment.
  caps N              sets the capability word
  rule N              sets the uniform rule: 0 the older, 1 the newer
  type K W1 .. W5     appends a type; words left off are 0
  member TYPE OFFSET [LOCATION [SOURCE]]
                      appends a member row; location and blend source as value plus one, 0 for none
  clear               empties the arena, capability word 0, uniform rule 0
  layout              ok, and a line for each type: its number, size, alignment and zeros
  judge               ok, and a line for each type: its number and its row, whatever the rows hold
  check               lays out, then judges: the same
  members T           members, and four words a row: type, offset, location, blend source
  slots T OFFSET      slots TOUCHED PARTLY, two masks
  range OFFSET SIZE   the same
  place T S1 .. Sk    place BYTE TYPE
  short T S1 .. Sk    the same, by three words for each type
  report              report CARRIED WASTED, and a line for each type: its number and its two counts
  plain SHAPE WIDTH   plain SIZE ALIGNMENT STEP
  pass                starts a pass: no slot set, no pipeline
  set OFFSET SIZE     set MASK, all slots set so far
  choose T            needs MASK, the slots that the type needs
  run                 passes, or a refusal and missing MASK
  order SPAN T1 .. Tk order TYPE SPAN N1 .. Nk: the first order of these types that has at most the span, as a struct of the arena
A refusal is refused NUMBER TYPE MEMBER DETAIL. A line that cannot be read ends the program.
",
    );
}

fn put_unknown(name: &[u8], out: &mut Output)
    ensures { Adds out.old (unknown_bytes name.now) out.new }
{
    out.put_text(name);
    out.put_text(b": no such argument; there is --help\n");
}

// Puts the answer to an argument.
#[tactic(auto, unfolding(crate::specs::Arguments::argument_bytes))]
pub fn put_argument(name: &[u8], out: &mut Output)
    ensures { Adds out.old (argument_bytes name.now) out.new }
{
    if is_help(name) {
        put_help(out);
    } else {
        put_unknown(name, out);
    }
}

// Writes the answer to an argument, and tells whether it could be written.
fn answer_name<W: Write>(to: &mut W, name: &[u8]) -> bool
    ensures { result ≡ true → Appends (W.contents to.old) (W.contents to.new) (argument_bytes name.now) }
{
    let mut out = Output::new();
    put_argument(name, &mut out);
    out.write_out(to)
}

// The name of an argument that is longer than the buffer is left out.
fn answer<R: Env>(rt: &R, i: usize) {
    let mut name = io::buffer();
    let name = program_files::argument(rt, i, &mut name).unwrap_or(&[]);
    answer_name(&mut Standard, name);
}

pub fn run<R: Env + Input>(rt: &R) {
    let count = program_files::argument_count(rt);
    if count < 2 {
        program_session::run(rt);
        return;
    }
    for i in 1..count {
        answer(rt, i);
    }
}
