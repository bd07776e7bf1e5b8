// Tokens read one after the other: marks, names and numbers, from a position in the text on.
#![tactic(auto)]

ghost use Rattle.std.specs.Prelude.{◌≡◌};
ghost use Rattle.wgsl_tokens.specs.Tokens.{from};
ghost use Rattle.wgsl_grammar.specs.Grammar.{expect, skipping, name_of, number_of};
ghost use Rattle.wgsl_grammar.specs.Serving.{fault_of, refusal_of, next_read, NameRead, number_read};

use ir_records::Fault;
use program_words::{NumberRead, Span};
use wgsl_tokens::Lexed;

/// What is wrong in a text: one for each text that `wgsl_messages` says of it.
#[derive(Clone, Copy, Debug, PartialEq, Eq)]
pub enum Problem {
    OpenComment,
    NotAscii,
    NoComma,
    NoName,
    NoNumber,
    NoDeclaration,
    NoAttribute,
    NoScalar,
    TooDeep,
    UnknownType,
    RepeatedType,
    RepeatedMember,
    LargeNumber,
    ZeroCount,
    LargeArray,
    Align,
    Size,
    LargeStruct,
    TypesFull,
    MembersFull,
}

/// What was wrong at a place: a mark that was expected is not there, or another problem.
#[derive(Clone, Copy, Debug, PartialEq, Eq)]
pub enum Why {
    Mark(u8),
    Other(Problem),
}

/// A refusal; beside its fault, for a message, a position before the token at which it stands, and what was wrong there.
/// No reading of a text tells the last two: they are for the message.
#[derive(Clone, Copy, Debug, PartialEq, Eq)]
pub struct Refusal {
    pub fault: Fault,
    pub at: usize,
    pub why: Why,
}

impl From<Problem> for Fault {
    ghost from_gives = { λ problem result. result ≡ fault_of problem };

    fn from(problem: Problem) -> Fault {
        match problem {
            Problem::UnknownType | Problem::RepeatedType | Problem::RepeatedMember => Fault::Name,
            Problem::LargeNumber
            | Problem::ZeroCount
            | Problem::LargeArray
            | Problem::Align
            | Problem::Size
            | Problem::LargeStruct => Fault::Attribute,
            Problem::TypesFull | Problem::MembersFull => Fault::TableLength,
            _ => Fault::Grammar,
        }
    }
}

impl Refusal {
    /// The refusal for a problem at a position.
    pub fn of(problem: Problem, at: usize) -> Refusal
        ensures { result ≡ refusal_of problem at }
    {
        Refusal {
            fault: Fault::from(problem),
            at,
            why: Why::Other(problem),
        }
    }
}

// Kept: the text and a position are two parameters: what is read answers a position alone, which records and refusals hold, so a struct of both would be
// built again from the text at each call: `Place { text: s, at }.expect(b',')?` for `expect(s, at, b',')?`.
/// The position after a mark that must stand here.
pub fn expect(s: &[u8], at: usize, byte: u8) -> Result<usize, Refusal>
    ensures { expect byte (from s.now at) ≡ next_read s.now result }
{
    match wgsl_tokens::next_token(s, at) {
        Ok(Some(Lexed::Mark { byte: c, end })) if c == byte => Ok(end),
        _ => Err(Refusal {
            fault: Fault::Grammar,
            at,
            why: Why::Mark(byte),
        }),
    }
}

/// The position after a mark, where it stands here.
pub fn skipping(s: &[u8], at: usize, byte: u8) -> usize
    ensures { from s.now result ≡ skipping byte (from s.now at) }
{
    expect(s, at, byte).unwrap_or(at)
}

/// A word that is no keyword; the text goes on at its end.
pub fn name_at(s: &[u8], at: usize) -> Result<Span, Refusal>
    ensures { NameRead s.now at result }
{
    match wgsl_tokens::next_token(s, at) {
        Ok(Some(Lexed::Word(name))) if !wgsl_names::is_keyword(name.bytes(s)) => Ok(name),
        _ => Err(Refusal::of(Problem::NoName, at)),
    }
}

/// A number, at most 4,294,967,295.
pub fn number_at(s: &[u8], at: usize) -> Result<NumberRead, Refusal>
    ensures { number_of (from s.now at) ≡ number_read s.now result }
{
    match wgsl_tokens::next_token(s, at) {
        Ok(Some(Lexed::Number { value, end })) => Ok(NumberRead { value, at: end }),
        Ok(Some(Lexed::Large(_))) => Err(Refusal::of(Problem::LargeNumber, at)),
        _ => Err(Refusal::of(Problem::NoNumber, at)),
    }
}
