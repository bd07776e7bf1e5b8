// The answer to a WGSL text: a line for each record, or the refusal and a line that says where it stands and what is wrong.
#![tactic(auto)]

ghost use Rattle.std.specs.Prelude.{◌≡◌, true, List, ℕ};
ghost use Rattle.std.specs.Io.KnownBytes.{Appends};
ghost use Rattle.program_output.specs.Bytes.{Adds};
ghost use Rattle.wgsl_lines.specs.Lines.{Answers};

use ir_records::{MEMBER_TABLE, Refusal, TYPE_TABLE};
use program_output::Output;
use std::io::Write;

pub fn put_answer(out: &mut Output, text: &[u8])
    ensures { (bytes : List ℕ) × Answers text.now bytes × Adds out.old bytes out.new }
{
    let mut types = [0u32; TYPE_TABLE];
    let mut members = [0u32; MEMBER_TABLE];
    match wgsl_read::read_at(text, &mut types, &mut members) {
        Ok(made) => program_record_lines::put_records(out, &types, &members, made),
        Err(refusal) => {
            out.put_refusal(Refusal::of(refusal.fault));
            wgsl_messages::put_message(out, text, refusal);
        }
    }
}

/// Writes the answer to a text, and tells whether it could be written.
// Kept: `answer` of from_spirv puts the answer to a module between the same two calls, of `new` and of `write_out`. A function that is lent what to put
// would take a closure for each, and save each one line.
pub fn answer<W: Write>(to: &mut W, text: &[u8]) -> bool
    ensures { result ≡ true → (bytes : List ℕ) × Answers text.now bytes × Appends (W.contents to.old) (W.contents to.new) bytes }
{
    let mut out = Output::new();
    put_answer(&mut out, text);
    out.write_out(to)
}
