// The words of a line, the number that a word is, and the bytes that no line may hold.
#![tactic(auto)]

ghost use Rattle.std.specs.Prelude.{◌≡◌, Bool, ℕ, ◌+◌, ◌≤◌, ◌<◌, min, ltb, length, get_or, drop};
ghost use Rattle.program_words.specs.Words.{Tells, is_blank, run_of, before_comment, text_of, part, WordAt};
ghost use Rattle.program_words.specs.Number.{is_digit, all_digits, decimal, number_of};
ghost use Rattle.program_words.specs.Stray.{is_mark, stray_of, stray_at, stray_in};

/// Where a word stands in a text.
#[derive(Clone, Copy, Debug, PartialEq, Eq)]
pub struct Span {
    pub start: usize,
    pub end: usize,
}

impl Span {
    /// The bytes of the text that stand there.
    pub fn bytes(self, s: &[u8]) -> &[u8]
        requires { (self.start ≤ self.end) × (self.end ≤ length s.now) }
        ensures { result.now ≡ part s.now self.start self.end }
    {
        &s[self.start..self.end]
    }
}

/// A number of a text, and where the text goes on after it.
#[derive(Clone, Copy, Debug, PartialEq, Eq)]
pub struct NumberRead {
    pub value: u32,
    pub at: usize,
}

/// Why a word is no number from 0 to 4294967295.
#[derive(Clone, Copy, Debug, PartialEq, Eq)]
pub enum NumberError {
    NotANumber,
    TooLarge,
}

/// What no line may hold.
#[derive(Clone, Copy, Debug, PartialEq, Eq)]
pub enum Stray {
    ByteOrderMark,
    Nul,
    /// A carriage return that is not the last byte.
    Return,
}

// One above the largest number.
const ABOVE: u64 = 4294967296;

// A space or a tab.
fn is_blank(b: u8) -> bool
    ensures { result ≡ is_blank b }
{
    matches!(b, b' ' | b'\t')
}

/// Where the run of bytes that pass a test ends, which starts at `at`.
pub fn run_end<F: Fn(u8) -> bool>(s: &[u8], at: usize, in_run: F) -> usize
    requires callable { F.IsAlwaysCallable in_run }
    requires within { at ≤ length s.now }
    ensures value { (test : ℕ → Bool) → Tells (F.post in_run) test → result ≡ at + run_of test (drop at s.now) }
    ensures lower_bound { (at ≤ result) × (result ≤ length s.now) }
{
    let rest = &s[at..];
    let length = rest.iter().position(|b| !in_run(*b)).unwrap_or(rest.len());
    at + length
}

/// The next word from `at` on.
pub fn next_word(s: &[u8], at: usize) -> Option<Span>
    requires { at ≤ length s.now }
    ensures { WordAt s.now at result }
{
    let start = run_end(s, at, is_blank);
    if start == s.len() {
        return None;
    }
    let end = run_end(s, start, |b| !is_blank(b));
    Some(Span { start, end })
}

/// A line without its comment, and without the carriage return that may stand before a newline.
pub fn text_of(line: &[u8]) -> &[u8]
    ensures { result.now ≡ text_of line.now }
{
    match line.strip_suffix(b"\r") {
        Some(front) => before_comment(front),
        None => before_comment(line),
    }
}

fn before_comment(line: &[u8]) -> &[u8]
    ensures { result.now ≡ before_comment line.now }
{
    let end = run_end(line, 0, |b| b != b'#');
    &line[..end]
}

/// Whether a byte is a decimal digit.
pub fn is_digit(b: u8) -> bool
    ensures { result ≡ is_digit b }
{
    b.is_ascii_digit()
}

#[tactic(auto, unfolding(crate::specs::Number::all_digits))]
fn all_digits(word: &[u8]) -> bool
    ensures { result ≡ all_digits word.now }
{
    word.iter().all(|b| is_digit(*b))
}

// A decimal number, cut down to ABOVE so that it fits however long the word is.
fn capped(word: &[u8]) -> u64
    ensures { result ≡ min (decimal 0 word.now) 4294967296 }
{
    let mut n: u64 = 0;
    for b in word {
        let next = n * 10 + u64::from(b.saturating_sub(b'0'));
        n = next.min(ABOVE);
    }
    n
}

/// The number that a word is.
// Kept: a word is bytes, where `FromStr` reads a `str`; `TryFrom<&[u8]>` for `u32` would be a trait of std for types of std, which no crate but std may write.
#[tactic(auto, unfolding(crate::specs::Number::number_of))]
pub fn number_of(word: &[u8]) -> Result<u32, NumberError>
    ensures { result ≡ number_of word.now }
{
    if word.is_empty() || !all_digits(word) {
        return Err(NumberError::NotANumber);
    }
    u32::try_from(capped(word)).map_err(|_| NumberError::TooLarge)
}

// What a byte is, by those after it. A byte order mark is one of UTF-8, or of UTF-16 of either order.
#[tactic(auto, unfolding(crate::specs::Stray::stray_of))]
fn stray_at(line: &[u8], i: usize) -> Option<Stray>
    requires { i < length line.now }
    ensures { result ≡ stray_at line.now i }
{
    match &line[i..] {
        [b'\0', ..] => Some(Stray::Nul),
        [b'\r', _, ..] => Some(Stray::Return),
        [0xef, 0xbb, 0xbf, ..] | [0xfe, 0xff, ..] | [0xff, 0xfe, ..] => Some(Stray::ByteOrderMark),
        _ => None,
    }
}

/// The first of a line's bytes that no line may hold.
pub fn stray_in(line: &[u8]) -> Option<Stray>
    ensures { result ≡ stray_in line.now }
{
    // Kept: the byte is looked at again. `find_map` would give it at once, but the library has the law of a search over a range for `find` alone, so the one
    // for `find_map` would have to be proved here from its steps.
    let at = (0..line.len()).find(|i| stray_at(line, *i).is_some())?;
    stray_at(line, at)
}
