// Reads a line of the program `inspect`: the command and the numbers after it.
// Kept: `1025 ≤ length numbers.old`: `read_line` takes each slice that is long enough, and a reference to an array there would ask more of its callers;
// for the two functions above it, which it calls, a slice would have to become an array, which can fail.
#![tactic(auto)]

ghost use Rattle.std.specs.Prelude.{◌≡◌, ◌≤◌, length};
ghost use Rattle.program_words.specs.Words.{text_of, words};
ghost use Rattle.program_lines.specs.Line.{last_command_of, answer_command_of, later_command_of, command_of, least_of, most_of};
ghost use Rattle.program_lines.specs.Line.{arguments_of, list_of, Holds, line_by, line_with, line_of, numbers_read, line_in, line_numbers};
ghost use Rattle.program_lines.specs.Said.{member_in, said, said_in, read_said, read_said_of, read_said_in, count_of, count_in};

use ir_member_words::Member;
use ir_records::Words;
use program_arguments::{Command, Reason};

/// What changes the session or its arena, and asks for no answer.
#[derive(Clone, Copy, Debug, PartialEq, Eq)]
pub enum Change {
    Capabilities(u32),
    Rule(u32),
    TypeRecord(Words),
    MemberRecord(Member),
    Pass,
    Clear,
}

/// A step of the pass.
#[derive(Clone, Copy, Debug, PartialEq, Eq)]
pub enum Step {
    SetRange { offset: u32, size: u32 },
    Choose(u32),
    Run,
}

/// What asks for an answer, and changes nothing.
#[derive(Clone, Copy, Debug, PartialEq, Eq)]
pub enum Query<'a> {
    Layout,
    Judge,
    Check,
    Members(u32),
    Slots { ty: u32, offset: u32 },
    Range { offset: u32, size: u32 },
    Place { start: u32, steps: &'a [u32] },
    Short { start: u32, steps: &'a [u32] },
    Report,
    Plain { shape: u32, width: u32 },
}

/// What a line says.
#[derive(Clone, Copy, Debug, PartialEq, Eq)]
pub enum Line<'a> {
    Change(Change),
    Step(Step),
    Query(Query<'a>),
    /// It asks for an answer, and what is found becomes a struct of the arena.
    Order { span: u32, given: &'a [u32] },
}

/// What was read of a line: its command, and how many numbers after it the lent words begin with.
#[derive(Clone, Copy, Debug, PartialEq, Eq)]
pub struct Read {
    pub command: Command,
    pub count: usize,
}

/// The command that a word is, by its bytes.
#[tactic(auto, unfolding(crate::specs::Line::command_of, crate::specs::Line::later_command_of, crate::specs::Line::answer_command_of, crate::specs::Line::last_command_of))]
pub fn command_of(word: &[u8]) -> Option<Command>
    ensures { result ≡ command_of word.now }
{
    let command = match word {
        b"caps" => Command::Capabilities,
        b"rule" => Command::Rule,
        b"type" => Command::TypeRecord,
        b"member" => Command::MemberRecord,
        b"layout" => Command::Layout,
        b"judge" => Command::Judge,
        b"check" => Command::Check,
        b"members" => Command::Members,
        b"slots" => Command::Slots,
        b"range" => Command::Range,
        b"place" => Command::Place,
        b"short" => Command::Short,
        b"report" => Command::Report,
        b"plain" => Command::Plain,
        b"pass" => Command::Pass,
        b"set" => Command::SetRange,
        b"choose" => Command::Choose,
        b"run" => Command::Run,
        b"clear" => Command::Clear,
        b"order" => Command::Order,
        _ => return None,
    };
    Some(command)
}

/// So many numbers may follow a command: a type and 1,024 steps.
pub const MOST_NUMBERS: usize = 1025;

// The fewest and the most numbers that a command takes.
#[derive(Clone, Copy, Debug, PartialEq, Eq)]
struct Usage {
    least: usize,
    most: usize,
}

// Kept: each arm is a command's row, under its name; a table by the command's number would say the same with the names beside it in comments.
fn usage_of(command: Command) -> Usage
    ensures { (result.least ≡ least_of command) × (result.most ≡ most_of command) × (result.most ≤ 1025) }
{
    match command {
        Command::Capabilities => Usage { least: 1, most: 1 },
        Command::Rule => Usage { least: 1, most: 1 },
        Command::TypeRecord => Usage { least: 1, most: 6 },
        Command::MemberRecord => Usage { least: 2, most: 4 },
        Command::Layout => Usage { least: 0, most: 0 },
        Command::Judge => Usage { least: 0, most: 0 },
        Command::Check => Usage { least: 0, most: 0 },
        Command::Members => Usage { least: 1, most: 1 },
        Command::Slots => Usage { least: 2, most: 2 },
        Command::Range => Usage { least: 2, most: 2 },
        Command::Place => Usage {
            least: 1,
            most: MOST_NUMBERS,
        },
        Command::Short => Usage {
            least: 1,
            most: MOST_NUMBERS,
        },
        Command::Report => Usage { least: 0, most: 0 },
        Command::Plain => Usage { least: 2, most: 2 },
        Command::Pass => Usage { least: 0, most: 0 },
        Command::SetRange => Usage { least: 2, most: 2 },
        Command::Choose => Usage { least: 1, most: 1 },
        Command::Run => Usage { least: 0, most: 0 },
        Command::Clear => Usage { least: 0, most: 0 },
        Command::Order => Usage {
            least: 1,
            most: MOST_NUMBERS,
        },
    }
}

// A member record; words left off are 0.
fn member_in(numbers: &[u32]) -> Member
    ensures { result ≡ member_in numbers.now }
{
    Member {
        ty: ir_records::word_at(numbers, 0),
        offset: ir_records::word_at(numbers, 1),
        location: ir_records::word_at(numbers, 2),
        source: ir_records::word_at(numbers, 3),
    }
}

// A command with the numbers after it; words left off are 0.
// Kept: each command has numbers of its own, so a match says which ones; a conversion for each command would be a function of one line.
fn line_by<'a>(command: Command, numbers: &'a [u32]) -> Line<'a>
    ensures { said result ≡ line_by command numbers.now }
{
    let a = ir_records::word_at(numbers, 0);
    let b = ir_records::word_at(numbers, 1);
    let later = numbers.get(1..).unwrap_or(&[]);
    match command {
        Command::Capabilities => Line::Change(Change::Capabilities(a)),
        Command::Rule => Line::Change(Change::Rule(a)),
        Command::TypeRecord => {
            Line::Change(Change::TypeRecord(ir_records::record_words(numbers, 0)))
        }
        Command::MemberRecord => Line::Change(Change::MemberRecord(member_in(numbers))),
        Command::Layout => Line::Query(Query::Layout),
        Command::Judge => Line::Query(Query::Judge),
        Command::Check => Line::Query(Query::Check),
        Command::Members => Line::Query(Query::Members(a)),
        Command::Slots => Line::Query(Query::Slots { ty: a, offset: b }),
        Command::Range => Line::Query(Query::Range { offset: a, size: b }),
        Command::Place => Line::Query(Query::Place {
            start: a,
            steps: later,
        }),
        Command::Short => Line::Query(Query::Short {
            start: a,
            steps: later,
        }),
        Command::Report => Line::Query(Query::Report),
        Command::Plain => Line::Query(Query::Plain { shape: a, width: b }),
        Command::Pass => Line::Change(Change::Pass),
        Command::SetRange => Line::Step(Step::SetRange { offset: a, size: b }),
        Command::Choose => Line::Step(Step::Choose(a)),
        Command::Run => Line::Step(Step::Run),
        Command::Clear => Line::Change(Change::Clear),
        Command::Order => Line::Order {
            span: a,
            given: later,
        },
    }
}

impl Read {
    /// The line, by the words that were lent to `read_line`. The steps of a place and the types given for an order are a part of them.
    pub fn line<'a>(self, numbers: &'a [u32]) -> Line<'a>
        ensures { said result ≡ read_said self numbers.now }
    {
        line_by(self.command, numbers.get(..self.count).unwrap_or(numbers))
    }
}

// Reads a command's numbers, which stand in the text after it.
fn read_command(s: &[u8], command: Command, numbers: &mut [u32]) -> Result<Read, Reason>
    requires { 1025 ≤ length numbers.old }
    ensures value { read_said_of result numbers.new ≡ line_with command (arguments_of command (words s.now)) }
    ensures count { count_of result ≡ length (list_of (arguments_of command (words s.now))) }
    ensures holds { Holds numbers.new (list_of (arguments_of command (words s.now))) }
{
    let usage = usage_of(command);
    let count = program_arguments::fill_numbers(s, command, &mut numbers[..usage.most])?;
    if count < usage.least {
        return Err(Reason::Usage(command));
    }
    Ok(Read { command, count })
}

// Reads the words of a line; none where there is no word.
fn read_words(line: &[u8], numbers: &mut [u32]) -> Result<Option<Read>, Reason>
    requires { 1025 ≤ length numbers.old }
    ensures value { read_said_in result numbers.new ≡ line_of (words (text_of line.now)) }
    ensures count { count_in result ≡ length (numbers_read (words (text_of line.now))) }
    ensures holds { Holds numbers.new (numbers_read (words (text_of line.now))) }
{
    let s = program_words::text_of(line);
    let Some(word) = program_words::next_word(s, 0) else {
        return Ok(None);
    };
    let command = command_of(word.bytes(s)).ok_or(Reason::NoCommand)?;
    let read = read_command(&s[word.end..], command, numbers)?;
    Ok(Some(read))
}

/// Reads a line; none where it asks for nothing. The lent words then begin with its numbers.
pub fn read_line(line: &[u8], numbers: &mut [u32]) -> Result<Option<Read>, Reason>
    requires { 1025 ≤ length numbers.old }
    ensures value { read_said_in result numbers.new ≡ line_in line.now }
    ensures count { count_in result ≡ length (line_numbers line.now) }
    ensures holds { Holds numbers.new (line_numbers line.now) }
{
    if let Some(stray) = program_words::stray_in(line) {
        return Err(Reason::from(stray));
    }
    read_words(line, numbers)
}

/// What a line says; none where it asks for nothing. The steps of a place and the types given for an order are a part of the lent words.
pub fn said_line<'a>(line: &[u8], numbers: &'a mut [u32]) -> Result<Option<Line<'a>>, Reason>
    requires { 1025 ≤ length numbers.old }
    ensures { said_in result ≡ line_in line.now }
{
    let Some(read) = read_line(line, numbers)? else {
        return Ok(None);
    };
    Ok(Some(read.line(numbers)))
}
