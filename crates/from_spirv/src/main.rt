// The program `from_spirv`: reads a SPIR-V module from standard input, or from each file that an argument names, and writes a line for each
// type and member that `inspect` takes, or the refusal.
#![tactic(auto)]

ghost use Rattle.std.specs.Prelude.{◌≡◌, ◌≤◌, length, take, true, IfSome};
ghost use Rattle.std.specs.Io.KnownBytes.{Appends};
ghost use Rattle.io.specs.Counts.{IsPrefixLen};
ghost use Rattle.program_output.specs.Bytes.{Adds};
ghost use Rattle.from_spirv.specs.Serving.{HeldWithin, count_of};
ghost use Rattle.from_spirv.specs.Lines.{module_lines};
ghost use Rattle.from_spirv.specs.Inputs.{error_text, HeldWith, Came, HeldAfter, Answered};

use ir_records::Refusal;
use program_input::STDOUT;
use program_output::{Output, Standard};
use std::io::{Read, Write};
use std::rt::{Env, Files};

// The most words that are held of a module.
const MODULE_WORDS: usize = 1048576;

// Why an input is no module: it has no whole number of words, or more than are held.
#[derive(Clone, Copy, Debug, PartialEq, Eq)]
enum InputError {
    Odd,
    Long,
}

impl InputError {
    fn message(self) -> &'static [u8]
        ensures { result.now ≡ error_text self }
    {
        match self {
            InputError::Odd => b"the module is no whole number of words\n",
            InputError::Long => b"the module is longer than 1048576 words\n",
        }
    }
}

/// How many bytes or words are held of the input, and whether it is known to have ended there: a full buffer and a read that failed do not tell.
#[derive(Clone, Copy, Debug, PartialEq, Eq)]
pub struct Held {
    pub count: usize,
    pub ended: bool,
}

// What is written of a module.
#[tactic(auto, unfolding(crate::specs::Lines::module_lines))]
fn put_answer(out: &mut Output, words: &[u32])
    ensures { Adds out.old (module_lines words.now) out.new }
{
    let mut types = [0u32; ir_records::TYPE_TABLE];
    let mut members = [0u32; ir_records::MEMBER_TABLE];
    match spirv_reader::read_module(words, &mut types, &mut members) {
        Ok(read) => program_record_lines::put_records(out, &types, &members, read),
        Err(fault) => out.put_refusal(Refusal::of(fault)),
    }
}

// Writes the answer to a module, and tells whether it could be written.
fn answer<W: Write>(to: &mut W, words: &[u32]) -> bool
    ensures { result ≡ true → Appends (W.contents to.old) (W.contents to.new) (module_lines words.now) }
{
    let mut out = Output::new();
    put_answer(&mut out, words);
    out.write_out(to)
}

// What is held with the bytes of one read.
// Kept: `words, held` here and in `read_more`: the table is fixed and lent with `&mut`; a struct of both would be lent anew by each loop, and
// `spirv_input::append` takes both.
fn with_bytes(words: &mut [u32], held: usize, bytes: &[u8]) -> Result<usize, InputError>
    requires { held ≤ length words.old }
    ensures within { HeldWithin held (length words.old) result }
    ensures words { HeldWith bytes.now held words.old words.new result }
{
    let got = bytes.len();
    if got % 4 != 0 {
        return Err(InputError::Odd);
    }
    let more = got / 4;
    let free = words.len() - held;
    if free < more {
        return Err(InputError::Long);
    }
    Ok(spirv_input::append(words, held, bytes))
}

// Reads until the buffer is full, the input ends or a read fails, and says how many bytes stand at the start of the buffer.
fn read_full<S: Read>(source: &mut S, buffer: &mut [u8]) -> Held
    ensures within { IsPrefixLen result.count buffer.new }
    ensures bytes { Came (S.remaining source.old) (S.remaining source.new) (take result.count buffer.new) result.ended }
{
    let mut held: usize = 0;
    // Kept: a read gives as many bytes as it has, so no range counts it; and `program_files::read_all` refuses a full buffer and a failed read, and tells
    // no count with them, where here the bytes that came are used.
    while let Ok(more) = program_input::read_after(source, buffer, held) {
        if more == 0 {
            return Held {
                count: held,
                ended: true,
            };
        }
        held += more;
    }
    Held {
        count: held,
        ended: false,
    }
}

// What one full buffer of the input adds to the words that are held.
fn read_more<S: Read>(source: &mut S, words: &mut [u32], held: usize) -> Result<Held, InputError>
    requires { held ≤ length words.old }
    ensures within { HeldWithin held (length words.old) (count_of result) }
    ensures words { HeldAfter (S.remaining source.old) (S.remaining source.new) held words.old words.new result }
{
    let mut buffer = io::large_buffer();
    let got = read_full(source, &mut buffer);
    let count = with_bytes(words, held, &buffer[..got.count])?;
    Ok(Held {
        count,
        ended: got.ended,
    })
}

// All words of the input.
// Kept: program_files::read_all reads bytes. Here each full buffer is made words at once; by it 4 MiB of bytes would be held beside 4 MiB of words.
fn read_all<S: Read>(source: &mut S, words: &mut [u32]) -> Result<Held, InputError>
    ensures within { HeldWithin 0 (length words.old) (count_of result) }
    ensures words { HeldAfter (S.remaining source.old) (S.remaining source.new) 0 words.old words.new result }
{
    let mut held: usize = 0;
    // Kept: it ends where nothing more is held, after as many buffers as the input has.
    loop {
        let now = read_more(source, words, held)?;
        if now.count <= held {
            return Ok(now);
        }
        held = now.count;
    }
}

// Writes the answer to the module that the input is, and tells whether all of the input was read and the answer could be written.
fn read_and_answer<S: Read, W: Write>(source: &mut S, to: &mut W) -> bool
    ensures { result ≡ true → IfSome (S.remaining source.old) (λ input. Answered input (W.contents to.old) (W.contents to.new)) }
{
    let mut words = program_files::filled::<u32, MODULE_WORDS>(0);
    match read_all(source, &mut words) {
        Ok(held) => answer(to, &words[..held.count]) & held.ended,
        Err(error) => {
            program_files::tell(error.message());
            false
        }
    }
}

// The name of a file as a comment.
fn put_name<R: Env>(rt: &R, i: usize) {
    let mut name = io::buffer();
    let name = program_files::argument(rt, i, &mut name).unwrap_or(&[]);
    io::write_all(STDOUT, b"# ");
    io::write_all(STDOUT, name);
    io::write_all(STDOUT, b"\n");
}

// The file that argument i names; of several files each after a comment with its name.
fn read_file<R: Env + Files>(rt: &R, i: usize, several: bool) {
    if several {
        put_name(rt, i);
    }
    if let Some(mut file) = program_files::named(rt, i) {
        read_and_answer(&mut file, &mut Standard);
    }
}

fn read_files<R: Env + Files>(rt: &R, n: usize) {
    for i in 1..n {
        read_file(rt, i, 2 < n);
    }
}

fn main(rt: HostRuntime) {
    let n = program_files::argument_count(&rt);
    if n < 2 {
        read_and_answer(&mut rt.reader(), &mut Standard);
    } else {
        read_files(&rt, n);
    }
}
