// The input, read into a buffer after the bytes that are held there.
#![tactic(auto)]

ghost use Rattle.std.specs.Prelude.{◌≤◌, length};
ghost use Rattle.program_input.specs.Input.{ReadAfter, CameAfter, ReadMore, CameMore, Kept, end_of, read_of};

use std::io::Read;
use std::ops::Range;

/// Why nothing was read.
#[derive(Clone, Copy, Debug, PartialEq, Eq)]
pub enum ReadError {
    /// The bytes that are held leave no room for more.
    Long,
    Failed,
}

/// What was read.
#[derive(Clone, Copy, Debug, PartialEq, Eq)]
pub struct Input {
    /// How many bytes of the buffer are to be answered.
    pub end: usize,
    /// Whether the input has ended.
    pub last: bool,
}

const NEWLINE: u8 = 10;

/// The system's numbers of the streams that a program writes to.
pub const STDOUT: i32 = 1;

pub const STDERR: i32 = 2;

// Kept: here and in the next a buffer and how many bytes of it are held: there is no heap for a vector. A struct of both would lend the buffer, and the number
// stays where the buffer is not: in the session of `inspect`, from read to read.
/// Reads once, after the bytes that are held, and tells how many bytes came; none at the end of the input.
pub fn read_after<R: Read>(
    input: &mut R,
    buffer: &mut [u8],
    held: usize,
) -> Result<usize, ReadError>
    ensures buffer { ReadAfter buffer.old held buffer.new result }
    ensures bytes { CameAfter (R.remaining input.old) (R.remaining input.new) held buffer.new result }
{
    if buffer.len() <= held {
        return Err(ReadError::Long);
    }
    input
        .read(&mut buffer[held..])
        .map_err(|_| ReadError::Failed)
}

/// Reads once, after the bytes that are held. At the end of the input a newline ends its last line.
pub fn read_more<R: Read>(input: &mut R, buffer: &mut [u8], held: usize) -> Result<Input, ReadError>
    ensures buffer { ReadMore buffer.old held buffer.new (end_of result) (read_of result) }
    ensures bytes { CameMore (R.remaining input.old) (R.remaining input.new) held buffer.new result }
{
    let more = read_after(input, buffer, held)?;
    if more == 0 {
        buffer[held] = NEWLINE;
        return Ok(Input {
            end: held + 1,
            last: true,
        });
    }
    Ok(Input {
        end: held + more,
        last: false,
    })
}

/// Moves the bytes of a range to the front.
pub fn keep_rest(buffer: &mut [u8], rest: Range<usize>)
    requires { rest.end ≤ length buffer.old }
    ensures { Kept buffer.old rest.start rest.end buffer.new }
{
    if rest.start < rest.end {
        buffer.copy_within(rest, 0);
    }
}
