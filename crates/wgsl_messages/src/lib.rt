// What is said of a WGSL text that is refused: the line and the column where the refusal stands, what stands there, and what is wrong with it.
#![tactic(auto)]

ghost use Rattle.std.specs.Prelude.{◌≡◌, length, List, ℕ, min};
ghost use Rattle.program_output.specs.Bytes.{Adds};
ghost use Rattle.wgsl_messages.specs.Position.{breaks_line, position_of};
ghost use Rattle.wgsl_messages.specs.Message.{token_text, found_text, sentence, mark_text, reason_text, position_text, broken_text};
ghost use Rattle.wgsl_messages.specs.Says.{Says};

use program_output::Output;
use wgsl_grammar::{Problem, Refusal, Why};
use wgsl_tokens::{BadToken, Lexed};

// Both count from 1, columns in bytes.
#[derive(Clone, Copy, Debug, PartialEq, Eq)]
pub struct Position {
    pub line: usize,
    pub column: usize,
}

fn breaks_line(c: u8, next: u8) -> bool
    ensures { result ≡ breaks_line c next }
{
    wgsl_tokens::ends_line(c) & !((c == b'\r') & (next == b'\n'))
}

// Line and column of a byte; past the end of the text, those of its end.
pub fn line_and_column(text: &[u8], at: usize) -> Position
    ensures { result ≡ position_of text.now (min at (length text.now)) }
{
    let end = at.min(text.len());
    let mut line = 1;
    let mut column = 1;
    // Kept: an index: a byte is judged by the one after it, which may stand past `end`; `windows(2)` would give the pairs, and none for the text's last byte.
    for i in 0..end {
        if breaks_line(text[i], wgsl_tokens::byte_at(text, i + 1)) {
            line += 1;
            column = 1;
        } else {
            column += 1;
        }
    }
    Position { line, column }
}

// A token in its own bytes.
// Kept: two positions: the end is the token's own, so a `Span` would be put together for this one call and taken apart for `get`.
#[tactic(auto, unfolding(crate::specs::Message::token_text))]
fn put_token(out: &mut Output, text: &[u8], start: usize, end: usize)
    ensures { Adds out.old (token_text text.now start end) out.new }
{
    if let Some(token) = text.get(start..end) {
        out.put_text(b"`");
        out.put_text(token);
        out.put_text(b"`: ");
    }
}

// The token that was found at a place.
// Kept: the Result is what stands there, of which the message says something in each case, and no outcome that is handed on.
fn put_found(out: &mut Output, text: &[u8], start: usize, token: Result<Option<Lexed>, BadToken>)
    ensures { Adds out.old (found_text text.now start token) out.new }
{
    let Ok(found) = token else {
        out.put_text(b"no word, number or mark: ");
        return;
    };
    match found {
        Some(lexed) => put_token(out, text, start, lexed.end()),
        None => out.put_text(b"the end of the text: "),
    }
}

// What is said of a problem.
#[tactic(auto, unfolding(crate::specs::Message::sentence))]
fn sentence(problem: Problem) -> &'static [u8]
    ensures { result.now ≡ sentence problem }
{
    match problem {
        Problem::OpenComment => b"a comment is not closed\n",
        Problem::NotAscii => b"a comment holds a byte that is no ASCII\n",
        Problem::NoComma => b"expected a comma or a closing mark\n",
        Problem::NoName => b"expected a name that is no keyword\n",
        Problem::NoNumber => b"expected a decimal number with no leading zero, point or suffix\n",
        Problem::NoDeclaration => b"expected struct, a semicolon or the end of the text\n",
        Problem::NoAttribute => b"no such attribute; there are @align and @size\n",
        Problem::NoScalar => b"expected bool, i32, u32, f32 or f16\n",
        Problem::TooDeep => b"types stand inside types more than 32 deep\n",
        Problem::UnknownType => b"no earlier type has this name\n",
        Problem::RepeatedType => b"an earlier type has this name\n",
        Problem::RepeatedMember => b"an earlier member of the struct has this name\n",
        Problem::LargeNumber => b"the number is above 4294967295\n",
        Problem::ZeroCount => b"an array has one element at least\n",
        Problem::LargeArray => b"the array has more than 4294967295 bytes\n",
        Problem::Align =>
            b"@align stands twice, is no power of two or is no multiple of the type's alignment\n",
        Problem::Size =>
            b"@size stands twice, is less than the type's size or the type has no fixed size\n",
        Problem::LargeStruct => b"the struct has more than 4294967295 bytes\n",
        Problem::TypesFull => b"there is no room for one more type record\n",
        Problem::MembersFull => b"there is no room for one more member record\n",
    }
}

fn put_sentence(out: &mut Output, problem: Problem)
    ensures { Adds out.old (sentence problem) out.new }
{
    out.put_text(sentence(problem));
}

// A mark that was expected.
#[tactic(auto, unfolding(crate::specs::Message::mark_text))]
fn put_mark(out: &mut Output, mark: u8)
    ensures { Adds out.old (mark_text mark) out.new }
{
    if mark == b',' {
        put_sentence(out, Problem::NoComma);
        return;
    }
    out.put_text(b"expected `");
    out.put_text(&[mark]);
    out.put_text(b"`\n");
}

// What was wrong.
fn put_reason(out: &mut Output, why: Why)
    ensures { Adds out.old (reason_text why) out.new }
{
    match why {
        Why::Mark(mark) => put_mark(out, mark),
        Why::Other(problem) => put_sentence(out, problem),
    }
}

#[tactic(auto, unfolding(crate::specs::Message::position_text))]
fn put_position(out: &mut Output, text: &[u8], byte: usize)
    ensures { Adds out.old (position_text text.now byte) out.new }
{
    let p = line_and_column(text, byte);
    out.put_named(b"line", p.line as u64);
    out.put_named(b", column", p.column as u64);
    out.put_text(b": ");
}

// A line about a comment that is no text of WGSL.
fn put_broken(out: &mut Output, text: &[u8], byte: usize)
    ensures { Adds out.old (broken_text text.now byte) out.new }
{
    put_position(out, text, byte);
    if byte < text.len() {
        put_sentence(out, Problem::NotAscii);
        return;
    }
    put_sentence(out, Problem::OpenComment);
}

// A line about a refusal: its place, what stands there, and what is wrong.
pub fn put_message(out: &mut Output, text: &[u8], refusal: Refusal)
    ensures { (message : List ℕ) × Says text.now refusal.at refusal.why message × Adds out.old message out.new }
{
    match wgsl_tokens::token_start(text, refusal.at) {
        Err(broken) => put_broken(out, text, broken.at),
        Ok(start) => {
            let token = wgsl_tokens::next_token(text, start);
            put_position(out, text, start);
            put_found(out, text, start, token);
            put_reason(out, refusal.why);
        }
    }
}
