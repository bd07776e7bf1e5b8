// What every form of the sheet is made of: texts and numbers in the buffer of the answers.
#![tactic(auto)]

ghost use Rattle.std.specs.Prelude.{◌≡◌, ◌⊎◌, ◌-◌, ◌+◌, ◌++◌, ◌∷◌, [], ◌≤◌, ◌<◌, length, take, replicate, MatchOption, true, false};
ghost use Rattle.std.specs.Io.KnownBytes.{Appends};
ghost use Rattle.program_output.specs.Bytes.{decimal};
ghost use Rattle.sheet_output.specs.Written.{Writes, mark_bytes, name_bytes};

use program_output::Output;
use std::io::Write;

// How far a start lies past an end: the bytes between two parts, or the columns that a text leaves free; none where it lies before the end.
pub fn gap(end: u64, start: u64) -> u64
    ensures { result ≡ start - end }
{
    start.saturating_sub(end)
}

/// Bytes after a part that no part holds.
#[derive(Clone, Copy, Debug, PartialEq, Eq)]
pub struct Unused {
    pub start: u64,
    pub bytes: u64,
}

impl Unused {
    /// The bytes from the end of one part to the start of the next, where there are any.
    pub fn between(end: u64, start: u64) -> Option<Unused>
        ensures { MatchOption result (start ≤ end) (λ g. (g.start ≡ end) × (0 < g.bytes) × (g.bytes ≡ start - end)) }
    {
        let bytes = gap(end, start);
        (0 < bytes).then_some(Unused { start: end, bytes })
    }
}

// How many digits a number has.
pub fn digit_count(n: u64) -> usize
    ensures { result ≡ length (decimal n) }
{
    io::decimal(n, &mut [0; 20])
}

// Columns that a number at the right of so many leaves free.
fn free_columns(width: u64, n: u64) -> u64
    ensures { result ≡ width - length (decimal n) }
{
    gap(digit_count(n) as u64, width)
}

/// Whether `<`, `>` and `&` are written as they are, or as a page has them.
#[derive(Clone, Copy, Debug, PartialEq, Eq)]
pub enum Markup {
    Plain,
    Page,
}

/// The answers that wait, what they are written to, and how marks are written. What waits is written out where there is no room for more.
pub struct Writer<'a, W> {
    pub out: &'a mut Output,
    pub to: &'a mut W,
    pub markup: Markup,
}

impl<'a, W: Write> Writer<'a, W> {
    pub fn new(out: &'a mut Output, to: &'a mut W, markup: Markup) -> Writer<'a, W>
        ensures out { (result.out.now ≡ out.old) × (result.out.ghost_name ≡ out.entry.ghost_name) }
        ensures to { (result.to.now ≡ to.old) × (result.to.ghost_name ≡ to.entry.ghost_name) }
        ensures markup { result.markup ≡ markup }
    {
        Writer { out, to, markup }
    }

    /// Writes out what waits at the end of a sheet; a writer is not let go without it. That it could not be has been told.
    pub fn finish(self) -> bool
        ensures past { 1114112 < self.entry.out.now.end → result ≡ false }
        ensures none_waits { self.exit.0.now.end ≡ 0 }
        ensures written { result ≡ true
            → Appends (W.contents self.entry.to.now) (W.contents self.exit.1.0.now) (take self.entry.out.now.end self.entry.out.now.bytes) }
    {
        let Writer { out, to, markup: _ } = self;
        out.write_out(to)
    }

    /// Makes room for n more bytes.
    pub fn make_room(&mut self, n: usize)
        ensures fits { self.old.out.now.end + n ≤ 1114112 → (self.new.out.now ≡ self.old.out.now) × (self.new.to.now ≡ self.old.to.now) }
        ensures made { 1114112 < self.old.out.now.end + n → (self.new.out.now.end ≡ 0) ⊎ (self.new.out.now.end ≡ 1114113) }
        ensures written { Writes W.contents self.old [] self.new }
    {
        self.out.make_room(self.to, n);
    }

    pub fn put_byte(&mut self, b: u8)
        ensures { Writes W.contents self.old (b ∷ []) self.new }
    {
        self.make_room(1);
        self.out.put_byte(b);
    }

    /// No text is longer than the buffer: it is a part of the input, or one of the program's own.
    pub fn put_text(&mut self, text: &[u8])
        ensures { Writes W.contents self.old text.now self.new }
    {
        self.make_room(text.len());
        self.out.put_text(text);
    }

    /// A number with nothing before it.
    pub fn put_number(&mut self, n: u64)
        ensures { Writes W.contents self.old (decimal n) self.new }
    {
        self.make_room(20);
        self.out.put_decimal(n);
    }

    /// A number between two texts.
    pub fn put_with(&mut self, before: &[u8], n: u64, after: &[u8])
        ensures { Writes W.contents self.old (before.now ++ decimal n ++ after.now) self.new }
    {
        self.put_text(before);
        self.put_number(n);
        self.put_text(after);
    }

    /// Two numbers between three texts.
    pub fn put_two(&mut self, before: &[u8], n: u64, between: &[u8], m: u64, after: &[u8])
        ensures { Writes W.contents self.old (before.now ++ decimal n ++ between.now ++ decimal m ++ after.now) self.new }
    {
        self.put_with(before, n, between);
        self.put_number(m);
        self.put_text(after);
    }

    pub fn put_blanks(&mut self, n: u64)
        ensures { Writes W.contents self.old (replicate n 32) self.new }
    {
        for _ in 0..n {
            self.put_byte(b' ');
        }
    }

    /// A number at the right of so many columns.
    pub fn put_right(&mut self, width: u64, n: u64)
        ensures { Writes W.contents self.old (replicate (width - length (decimal n)) 32 ++ decimal n) self.new }
    {
        self.put_blanks(free_columns(width, n));
        self.put_number(n);
    }

    /// `<`, `>` or `&`, which a page writes in another way.
    pub fn put_mark(&mut self, mark: u8)
        ensures { Writes W.contents self.old (mark_bytes self.old.markup mark) self.new }
    {
        match (self.markup, mark) {
            (Markup::Page, b'<') => self.put_text(b"&lt;"),
            (Markup::Page, b'>') => self.put_text(b"&gt;"),
            (Markup::Page, b'&') => self.put_text(b"&amp;"),
            _ => self.put_byte(mark),
        }
    }

    /// A name, byte by byte as a page has it; it is one text where marks are written as they are and it is no longer than the buffer.
    pub fn put_name(&mut self, name: &[u8])
        ensures { Writes W.contents self.old (name_bytes self.old.markup name.now) self.new }
    {
        // Kept: the test of the length: put_text takes no text that is longer than the buffer, and a name may be of any length.
        let fits = name.len() <= self.out.bytes.len();
        if (self.markup == Markup::Plain) & fits {
            return self.put_text(name);
        }
        for b in name {
            self.put_mark(*b);
        }
    }
}

#[cfg(test)]
mod tests {
    use super::*;

    // Whether a name of N bytes, which are more than the buffer has, is written to a sink that takes all.
    fn is_written<const N: usize>(markup: Markup) -> bool
        requires { N ≤ 1114113 }
    {
        let name = [b'a'; N];
        let mut out = Output::new();
        let longer = out.bytes.len() < name.len();
        let mut to = std::io::sink();
        let mut writer = Writer::new(&mut out, &mut to, markup);
        writer.put_name(&name);
        longer & writer.finish()
    }

    // No clause can say that a write did not fail, so none says that a name of any length is written.
    #[test]
    fn name_longer_than_the_buffer() -> Result<(), Markup> {
        for markup in [Markup::Plain, Markup::Page] {
            if !is_written::<1114113>(markup) {
                return Err(markup);
            }
        }
        Ok(())
    }
}
