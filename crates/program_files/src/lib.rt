// The arguments of a program, and the file that it reads: standard input, or the one that its argument names. What is wrong with it is told on
// standard error.
#![tactic(auto)]

mod arguments;

ghost use Rattle.std.specs.Prelude.{◌≡◌, ℕ, ◌≤◌, ◌<◌, length, get_or, take, IfOk, IfSome, IsUtf8};
ghost use Rattle.program_files.specs.Sources.{left_of};
ghost use Rattle.program_files.specs.Serving.{HeldWithin, message_of};

pub use arguments::{argument, argument_count};
pub use program_input::ReadError;
use std::io::Read;
use std::rt::{Env, Files};

// What a program reads.
#[derive(Drop)]
pub enum Source<S, F> {
    Standard(S),
    Named(F),
}

impl<S: Read, F: Read> Read for Source<S, F> {
    ghost remaining = { left_of S.remaining F.remaining };

    fn read(&mut self, bytes: &mut [u8]) -> std::io::Result<usize> {
        match self {
            Source::Standard(input) => input.read(bytes),
            Source::Named(file) => file.read(bytes),
        }
    }
}

pub fn tell(why: &[u8]) {
    io::write_all(program_input::STDERR, why);
}

// The file of that name, where it can be opened; a name that is no UTF-8 names none.
pub fn open<R: Files>(rt: &R, name: &[u8]) -> Option<R::File>
    ensures { IfSome result (λ _. IsUtf8 name.now) }
{
    let path = std::str::from_utf8(name).ok()?;
    std::fs::open(rt, path).ok()
}

// The file that argument i names, where it can be opened.
pub fn named<R: Env + Files>(rt: &R, i: usize) -> Option<R::File> {
    let mut name = io::buffer();
    let file = argument(rt, i, &mut name).and_then(|name| open(rt, name));
    if file.is_none() {
        tell(b"the file cannot be opened\n");
    }
    file
}

// What there is to read, where there is something.
pub fn opened<R: Env + Files + Input>(rt: &R) -> Option<Source<R::Reader, R::File>> {
    let count = argument_count(rt);
    if count < 2 {
        return Some(Source::Standard(rt.reader()));
    }
    if 2 < count {
        tell(b"there is one argument at most, the file to read\n");
        return None;
    }
    Some(Source::Named(named(rt, 1)?))
}

/// Reads all bytes of the input, and tells how many there are. They must be fewer than there is room for, since a full buffer does not tell whether there are more.
pub fn read_all<S: Read>(source: &mut S, bytes: &mut [u8]) -> Result<usize, ReadError>
    ensures held { HeldWithin 0 (length bytes.old) result }
    ensures bytes { IfOk result (λ n. IfSome (S.remaining source.old) (λ input. take n bytes.new ≡ input)) }
{
    let mut held: usize = 0;
    // Kept: a read gives as many bytes as it has, and the loop ends with the input, so no range counts it.
    loop {
        let more = program_input::read_after(source, bytes, held)?;
        if more == 0 {
            return Ok(held);
        }
        held += more;
    }
}

/// One byte more than a text or a module may have, so that a full buffer tells that there are more.
pub const INPUT_BYTES: usize = 1048577;

/// An array of one item so many times. A caller's proof knows its length, and does not write the items out.
pub fn filled<T: Copy, const N: usize>(item: T) -> [T; N]
    ensures length { N ≡ length result }
    ensures items { (k : ℕ) (d : T) → k < N → get_or result k d ≡ item }
{
    [item; N]
}

/// What is said of an input that cannot be answered.
#[derive(Clone, Copy, Debug, PartialEq, Eq)]
pub struct Messages {
    pub long: &'static [u8],
    pub failed: &'static [u8],
}

impl Messages {
    /// What is said of this error.
    pub fn of(self, error: ReadError) -> &'static [u8]
        ensures { result.now ≡ message_of self error }
    {
        match error {
            ReadError::Long => self.long,
            ReadError::Failed => self.failed,
        }
    }
}

/// The text that the input holds, of at most so many bytes but one, or tells why there is none.
pub fn read_text<'a, S: Read>(
    source: &mut S,
    bytes: &'a mut [u8],
    messages: Messages,
) -> Option<&'a [u8]>
    ensures within { IfSome result (λ text. length text.now ≤ length bytes.old) }
    ensures bytes { IfSome result (λ text. IfSome (S.remaining source.old) (λ input. text.now ≡ input)) }
{
    match read_all(source, bytes) {
        Ok(held) => Some(&bytes[..held]),
        Err(error) => {
            tell(messages.of(error));
            None
        }
    }
}
