// The numbers after a command, read one by one.
#![tactic(auto)]

ghost use Rattle.std.specs.Prelude.{◌≡◌, ◌≤◌, length};
ghost use Rattle.program_words.specs.Words.{words};
ghost use Rattle.program_words.specs.Number.{number_of};
ghost use Rattle.program_arguments.specs.Arguments.{numbers_of, reason_of, reason_of_stray};
ghost use Rattle.program_arguments.specs.Serving.{told_at, numbers_in, filled, count_of, NumberAt};

use program_words::{NumberError, NumberRead, Stray};

#[derive(Clone, Copy, Debug, PartialEq, Eq)]
pub enum Command {
    Capabilities,
    Rule,
    TypeRecord,
    MemberRecord,
    Layout,
    Judge,
    Check,
    Members,
    Slots,
    Range,
    Place,
    Short,
    Report,
    Plain,
    Pass,
    SetRange,
    Choose,
    Run,
    Clear,
    Order,
}

/// Why a line cannot be read. A word is named by its number in the line, from 1.
#[derive(Clone, Copy, Debug, PartialEq, Eq)]
pub enum Reason {
    NotANumber(u32),
    TooLarge(u32),
    /// The first word is no command.
    NoCommand,
    /// The command has too few or too many numbers after it.
    Usage(Command),
    ByteOrderMark,
    Nul,
    Return,
}

impl From<Stray> for Reason {
    ghost from_gives = { λ stray result. result ≡ reason_of_stray stray };

    fn from(stray: Stray) -> Reason {
        match stray {
            Stray::ByteOrderMark => Reason::ByteOrderMark,
            Stray::Nul => Reason::Nul,
            Stray::Return => Reason::Return,
        }
    }
}

// Why word `at` of a line is no number.
fn reason_of(error: NumberError, at: u32) -> Reason
    ensures { result ≡ reason_of error at }
{
    match error {
        NumberError::NotANumber => Reason::NotANumber(at),
        NumberError::TooLarge => Reason::TooLarge(at),
    }
}

// The number that a word is, which is that of so many of the line.
fn number_at(word: &[u8], place: u32) -> Result<u32, Reason>
    ensures { result ≡ told_at (number_of word.now) place }
{
    program_words::number_of(word).map_err(|error| reason_of(error, place))
}

// The first number of a text, where there is a word, which is that of so many of the line.
fn next_number(s: &[u8], place: u32) -> Result<Option<NumberRead>, Reason>
    ensures { NumberAt s.now place result }
{
    let Some(word) = program_words::next_word(s, 0) else {
        return Ok(None);
    };
    let value = number_at(word.bytes(s), place)?;
    Ok(Some(NumberRead {
        value,
        at: word.end,
    }))
}

/// Reads the numbers of a text into the lent words, as many as there is room for at most, and says how many they are.
pub fn fill_numbers(s: &[u8], command: Command, numbers: &mut [u32]) -> Result<usize, Reason>
    requires { length numbers.old ≤ 1025 }
    ensures numbers_after { filled result numbers.new ≡ numbers_of command (length numbers.old) 2 (words s.now) }
    ensures within { count_of result ≤ length numbers.old }
    ensures long { length numbers.new ≡ length numbers.old }
{
    let mut rest = s;
    // Kept: an index: where the text ends the answer is how many stand before it, and the invariant says what stands there.
    for k in 0..numbers.len() {
        let Some(number) = next_number(rest, k as u32 + 2)? else {
            return Ok(k);
        };
        numbers[k] = number.value;
        rest = &rest[number.at..];
    }
    if program_words::next_word(rest, 0).is_some() {
        return Err(Reason::Usage(command));
    }
    Ok(numbers.len())
}

/// The same, and gives the numbers.
pub fn read_numbers<'a>(
    s: &[u8],
    command: Command,
    numbers: &'a mut [u32],
) -> Result<&'a [u32], Reason>
    requires { length numbers.old ≤ 1025 }
    ensures { numbers_in result ≡ numbers_of command (length numbers.old) 2 (words s.now) }
{
    let count = fill_numbers(s, command, numbers)?;
    Ok(&numbers[..count])
}
