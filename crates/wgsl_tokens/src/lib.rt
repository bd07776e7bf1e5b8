// WGSL text as tokens: the next one from a position on, after blankspace and comments.
// Kept: `s` and `at`, the text and a position, are two parameters, as in wgsl_grammar: positions are what is read, and tokens, records and refusals hold them
// alone, so a struct of both would be built again from the text at each call.
#![tactic(auto)]

ghost use Rattle.std.specs.Prelude.{◌≡◌, true, false, ◌≤◌, ◌<◌, length, get_or};
ghost use Rattle.program_words.specs.Number.{is_digit};
ghost use Rattle.wgsl_tokens.specs.Tokens.{code, is_blank, ends_line, is_ascii, starts_word, in_word};
ghost use Rattle.wgsl_tokens.specs.Tokens.{is_mark, opens_line, opens_block, closes_block, line, block};
ghost use Rattle.wgsl_tokens.specs.Lexed.{starts_gap, end_of, StartAt, LexedAt, TokenAt};
ghost use Rattle.wgsl_tokens.specs.Serving.{GapAt, BlockAt};

use program_words::{NumberError, Span};

// A token, and where the text goes on after it.
#[derive(Clone, Copy, Debug, PartialEq, Eq)]
pub enum Lexed {
    Word(Span),
    Number { value: u32, end: usize },
    // A number above 4,294,967,295.
    // Kept: a token of its own, as in the definition of tokens; with an Option as the value of `Number` its readers would tell the two apart all the same.
    Large(usize),
    Mark { byte: u8, end: usize },
}

impl Lexed {
    /// Where the text goes on after it.
    pub fn end(self) -> usize
        ensures { result ≡ end_of self }
    {
        match self {
            Lexed::Word(word) => word.end,
            Lexed::Number { end, .. } | Lexed::Large(end) | Lexed::Mark { end, .. } => end,
        }
    }
}

/// Text that is no token, or a broken comment before it.
#[derive(Clone, Copy, Debug, PartialEq, Eq)]
pub struct BadToken;

/// A comment that is no text of WGSL: `at` is a byte in it that is no ASCII, or the end of the text where it is not closed.
#[derive(Clone, Copy, Debug, PartialEq, Eq)]
pub struct BrokenComment {
    pub at: usize,
}

impl From<BrokenComment> for BadToken {
    fn from(_broken: BrokenComment) -> BadToken {
        BadToken
    }
}

// A byte later in block comments: in how many of them, or after the last one.
// Kept: as a `ControlFlow<usize, Depth>` it would need a struct for the position and the depth, and its two cases would lose their names.
#[derive(Clone, Copy, Debug, PartialEq, Eq)]
pub enum Block {
    Inside { at: usize, depth: usize },
    Closed(usize),
}

// The byte at a position; 0 past the end.
pub fn byte_at(s: &[u8], at: usize) -> u8
    ensures { result ≡ get_or s.now at 0 }
{
    ir_records::item_or(s, at, 0)
}

fn is_blank(c: u8) -> bool
    ensures { result ≡ is_blank c }
{
    matches!(c, b' ' | 9..=13)
}

// Line feed, vertical tab, form feed, carriage return.
pub fn ends_line(c: u8) -> bool
    ensures { result ≡ ends_line c }
{
    (10..=13).contains(&c)
}

fn is_ascii(c: u8) -> bool
    ensures { result ≡ is_ascii c }
{
    (1..=127).contains(&c)
}

// Kept: `is_letter` of sheet_identifiers is the rule of C's and Rust's names, not of WGSL's.
fn starts_word(c: u8) -> bool
    ensures { result ≡ starts_word c }
{
    c.is_ascii_alphabetic() | (c == b'_')
}

fn in_word(c: u8) -> bool
    ensures { result ≡ in_word c }
{
    starts_word(c) | program_words::is_digit(c)
}

fn is_mark(c: u8) -> bool
    ensures { result ≡ is_mark c }
{
    matches!(
        c,
        b'{' | b'}' | b'<' | b'>' | b'(' | b')' | b':' | b',' | b';' | b'@'
    )
}

// Kept: here and in the next two, a mark of two bytes under its name, as the definitions have it; one function for all would be the comparison itself.
fn opens_line(c: u8, next: u8) -> bool
    ensures { result ≡ opens_line c next }
{
    (c == b'/') & (next == b'/')
}

fn opens_block(c: u8, next: u8) -> bool
    ensures { result ≡ opens_block c next }
{
    (c == b'/') & (next == b'*')
}

fn closes_block(c: u8, next: u8) -> bool
    ensures { result ≡ closes_block c next }
{
    (c == b'*') & (next == b'/')
}

// From `at` on in a line comment, which may end with the text.
// Kept: the loop has two ends, the end of the line and a byte that is no ASCII; after `position` the byte would be looked at again to tell which.
fn line_end(s: &[u8], at: usize) -> Result<usize, BrokenComment>
    requires { at < length s.now }
    ensures { GapAt line s.now at result }
{
    for i in at..s.len() {
        if !is_ascii(s[i]) {
            return Err(BrokenComment { at: i });
        }
        if ends_line(s[i]) {
            return Ok(i + 1);
        }
    }
    Ok(s.len())
}

// A byte, or two, of block comments: how deep the text is after it.
fn block_step(s: &[u8], at: usize, depth: usize) -> Result<Block, BrokenComment>
    requires { (at < length s.now) × (1 ≤ depth) × (depth ≤ at) }
    ensures { BlockAt s.now at depth result }
{
    let c = s[at];
    if !is_ascii(c) {
        return Err(BrokenComment { at });
    }
    let next = byte_at(s, at + 1);
    if closes_block(c, next) {
        if depth == 1 {
            return Ok(Block::Closed(at + 2));
        }
        return Ok(Block::Inside {
            at: at + 2,
            depth: depth - 1,
        });
    }
    if opens_block(c, next) {
        return Ok(Block::Inside {
            at: at + 2,
            depth: depth + 1,
        });
    }
    Ok(Block::Inside { at: at + 1, depth })
}

// From `at` on in a block comment, which must end before the text does.
fn block_end(s: &[u8], at: usize) -> Result<usize, BrokenComment>
    requires { 1 ≤ at }
    ensures { GapAt (block 0 1) s.now at result }
{
    let mut i = at;
    let mut depth = 1;
    // Kept: a step takes a byte or the two of a mark, and may end the comment or refuse it; an iterator would carry the position and the depth alike.
    while i < s.len() {
        match block_step(s, i, depth)? {
            Block::Closed(end) => {
                return Ok(end);
            }
            Block::Inside {
                at: next,
                depth: within,
            } => {
                i = next;
                depth = within;
            }
        }
    }
    Err(BrokenComment { at: i })
}

// A byte of blankspace, or a comment.
fn gap_end(s: &[u8], at: usize) -> Result<usize, BrokenComment>
    requires { (at < length s.now) × (starts_gap s.now at ≡ true) }
    ensures { GapAt (code 0) s.now at result }
{
    let c = s[at];
    if is_blank(c) {
        return Ok(at + 1);
    }
    let next = byte_at(s, at + 1);
    if opens_line(c, next) {
        return line_end(s, at + 1);
    }
    block_end(s, at + 2)
}

// Whether blankspace or a comment begins at a position.
fn starts_gap(s: &[u8], at: usize) -> bool
    requires { at < length s.now }
    ensures { result ≡ starts_gap s.now at }
{
    let c = s[at];
    let next = byte_at(s, at + 1);
    is_blank(c) | opens_line(c, next) | opens_block(c, next)
}

// Where the next token starts, or the text ends, after blankspace and comments.
pub fn token_start(s: &[u8], at: usize) -> Result<usize, BrokenComment>
    ensures { StartAt s.now at result }
{
    let mut i = at;
    // Kept: a step passes a whole gap, or refuses it by `?`; an iterator of gaps would give results to be taken apart here.
    while i < s.len() {
        if !starts_gap(s, i) {
            return Ok(i);
        }
        i = gap_end(s, i)?;
    }
    Ok(i)
}

// A word that starts at a position: never `_` alone, never a start of two underscores.
fn word_at(s: &[u8], start: usize) -> Result<Lexed, BadToken>
    requires { (start < length s.now) × (starts_gap s.now start ≡ false) × (starts_word (get_or s.now start 0) ≡ true) }
    ensures { LexedAt s.now start result }
{
    let end = program_words::run_end(s, start + 1, in_word);
    let second = byte_at(s, start + 1);
    let long = end - start;
    if (s[start] == b'_') & ((long == 1) | (second == b'_')) {
        return Err(BadToken);
    }
    Ok(Lexed::Word(Span { start, end }))
}

// A number that starts at a position: no leading zero, no suffix, no point.
fn number_at(s: &[u8], start: usize) -> Result<Lexed, BadToken>
    requires { (start < length s.now) × (starts_gap s.now start ≡ false) × (starts_word (get_or s.now start 0) ≡ false)
        × (is_digit (get_or s.now start 0) ≡ true) }
    ensures { LexedAt s.now start result }
{
    let end = program_words::run_end(s, start + 1, program_words::is_digit);
    let next = byte_at(s, end);
    let long = end - start;
    if ((s[start] == b'0') & (1 < long)) | in_word(next) | (next == b'.') {
        return Err(BadToken);
    }
    match program_words::number_of(&s[start..end]) {
        Ok(value) => Ok(Lexed::Number { value, end }),
        Err(NumberError::TooLarge) => Ok(Lexed::Large(end)),
        Err(NumberError::NotANumber) => Err(BadToken),
    }
}

// The token that starts at a position in the text.
fn lexed_at(s: &[u8], start: usize) -> Result<Lexed, BadToken>
    requires { (start < length s.now) × (starts_gap s.now start ≡ false) }
    ensures { LexedAt s.now start result }
{
    let c = s[start];
    if starts_word(c) {
        return word_at(s, start);
    }
    if program_words::is_digit(c) {
        return number_at(s, start);
    }
    if is_mark(c) {
        return Ok(Lexed::Mark {
            byte: c,
            end: start + 1,
        });
    }
    Err(BadToken)
}

// The next token from a position on; none at the end of the text.
pub fn next_token(s: &[u8], at: usize) -> Result<Option<Lexed>, BadToken>
    ensures { TokenAt s.now at result }
{
    let start = token_start(s, at)?;
    if s.len() <= start {
        return Ok(None);
    }
    let token = lexed_at(s, start)?;
    Ok(Some(token))
}
