// The program `from_wgsl`: reads WGSL text from standard input, or from the file that its argument names, and writes a line for each type and
// member that `inspect` takes, or the refusal with its place.
#![tactic(auto)]

ghost use Rattle.std.specs.Prelude.{◌≡◌, true, List, ℕ, IfSome};
ghost use Rattle.std.specs.Io.KnownBytes.{Appends};
ghost use Rattle.wgsl_lines.specs.Lines.{Answers};

use program_files::Messages;
use program_output::Standard;
use std::io::{Read, Write};

const UNREAD: Messages = Messages {
    long: b"the text is longer than 1048576 bytes\n",
    failed: b"the text cannot be read\n",
};

// Writes the answer to the text that the input is, and tells whether all of the input was read and the answer could be written.
fn answer_open<S: Read, W: Write>(source: &mut S, to: &mut W) -> bool
    ensures { result ≡ true
        → IfSome (S.remaining source.old) (λ input. (bytes : List ℕ) × Answers input bytes × Appends (W.contents to.old) (W.contents to.new) bytes) }
{
    let mut bytes = program_files::filled::<u8, { program_files::INPUT_BYTES }>(0);
    match program_files::read_text(source, &mut bytes, UNREAD) {
        Some(text) => wgsl_lines::answer(to, text),
        None => false,
    }
}

fn main(rt: HostRuntime) {
    if let Some(mut source) = program_files::opened(&rt) {
        answer_open(&mut source, &mut Standard);
    }
}
