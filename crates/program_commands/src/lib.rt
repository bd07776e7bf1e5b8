// The state of a session, and what the lines that ask for no answer do to it.
#![tactic(auto)]

ghost use Rattle.std.specs.Prelude.{◌≡◌, Bool, true, ◌≤◌, ◌<◌, ◌++◌, length, take};
ghost use Rattle.std.specs.Io.KnownBytes.{Appends};
ghost use Rattle.program_output.specs.declared.Stop.TheVariants as why;
ghost use Rattle.program_output.specs.Bytes.{Adds};
ghost use Rattle.program_commands.specs.Commands.{started, stopped, part_of, types_held, rows_held, held_after, end_after};
ghost use Rattle.program_commands.specs.Commands.{appended, cleared, changed, arena_after, after_write, stop_bytes};
ghost use Rattle.program_commands.specs.Serving.{after_change};

use immediates_pass::Pass;
use ir_records::{Records, Refusal};
use program_arguments::Reason;
use program_input::ReadError;
use program_lines::Change;
use program_output::{Output, Stop};
use std::io::Write;
use valid_type_info::UniformRule;

// The arena is one run of words: the types from its start on, the members from here on.
// Kept: as two arrays the end of the members would be counted from their own start, and the definitions of a session say where it stands in this run.
pub const MEMBERS_AT: usize = ir_records::TYPE_TABLE;

pub const ARENA_WORDS: usize = MEMBERS_AT + ir_records::MEMBER_TABLE;

pub type Arena = [u32; ARENA_WORDS];

// The rows of a full arena. The session keeps them from line to line.
pub type Rows = [u32; ir_records::ROW_TABLE];

// Kept: no Option or Result: that the input has ended is neither a reason to stop nor a wish to read on.
/// Whether a session goes on.
#[derive(Clone, Copy, Debug, PartialEq, Eq)]
pub enum State {
    Reading,
    /// The input has ended.
    Ended,
    Stopped(Stop),
}

#[derive(Clone, Copy, Debug, PartialEq, Eq)]
pub struct Session {
    pub capabilities: u32,
    // The uniform rule; number 1 where the word for it is none.
    pub rule: Result<UniformRule, Refusal>,
    // Where the types and the members end in the arena.
    pub types: usize,
    pub members: usize,
    // The pass that the lines `set`, `choose` and `run` try.
    pub pass: Pass,
    // The number of the line.
    pub line: u64,
    pub state: State,
}

// A record behind those of a table: where the table ends then. None where it would end past `limit`, and nothing is written.
#[tactic(auto, unfolding(crate::specs::Commands::end_after, crate::specs::Commands::appended))]
fn append(arena: &mut Arena, end: usize, limit: usize, words: &[u32]) -> Option<usize>
    requires { (length words.now ≤ limit) × (limit ≤ 22528) }
    ensures value { result ≡ end_after limit (length words.now) end }
    ensures arena_after { arena.new ≡ appended limit words.now end arena.old }
{
    if limit - words.len() < end {
        return None;
    }
    let after = end + words.len();
    arena[end..after].copy_from_slice(words);
    Some(after)
}

impl Session {
    /// Nothing is set, and the arena is empty.
    pub fn new() -> Session
        ensures { result ≡ started }
    {
        Session {
            capabilities: 0,
            rule: Ok(UniformRule::Older),
            types: 0,
            members: MEMBERS_AT,
            pass: immediates_pass::start(),
            line: 1,
            state: State::Reading,
        }
    }

    /// The types of the arena; none where they are not all there.
    #[tactic(auto, unfolding(crate::specs::Commands::part_of))]
    pub fn types_in(self, arena: &[u32]) -> &[u32]
        ensures { result.now ≡ part_of arena.now 0 self.types }
    {
        arena.get(..self.types).unwrap_or(&[])
    }

    /// The members of the arena; none where they are not all there.
    #[tactic(auto, unfolding(crate::specs::Commands::part_of))]
    pub fn members_in(self, arena: &[u32]) -> &[u32]
        ensures { result.now ≡ part_of arena.now 6144 self.members }
    {
        arena.get(MEMBERS_AT..self.members).unwrap_or(&[])
    }

    /// How many types the arena holds.
    // Kept: 0, here and in the next, is a count: where a table would end past its room no record is held, and `types_in` and `members_in` give none.
    pub fn types_held(self) -> u32
        ensures { result ≡ types_held self }
    {
        if self.types > MEMBERS_AT {
            return 0;
        }
        (self.types / ir_records::TYPE_WORDS) as u32
    }

    /// How many member rows the arena holds.
    pub fn rows_held(self) -> u32
        ensures { result ≡ rows_held self }
    {
        if self.members > ARENA_WORDS {
            return 0;
        }
        (self.members.saturating_sub(MEMBERS_AT) / ir_records::MEMBER_WORDS) as u32
    }

    /// One type and some member rows more than so many.
    pub fn hold(&mut self, held: Records, more: usize)
        ensures { self.new ≡ held_after held.types held.members more self.old }
    {
        self.types = (held.types as usize + 1) * ir_records::TYPE_WORDS;
        if more < 8 {
            self.members = MEMBERS_AT + (held.members as usize + more) * ir_records::MEMBER_WORDS;
        }
    }

    fn clear(&mut self)
        ensures { self.new ≡ cleared self.old }
    {
        self.capabilities = 0;
        self.rule = Ok(UniformRule::Older);
        self.types = 0;
        self.members = MEMBERS_AT;
    }

    /// A line that cannot be read stops the session; the arena stays.
    pub fn stop(&mut self, reason: Reason)
        ensures { self.new ≡ stopped (why.Line reason) self.old }
    {
        self.state = State::Stopped(Stop::Line(reason));
    }

    // What a line makes of the session and the arena, or why the session stops at it.
    fn apply(&mut self, change: Change, arena: &mut Arena) -> Result<(), Stop>
        ensures value { after_change self.new result ≡ changed change self.old }
        ensures arena_after { arena.new ≡ arena_after change self.old arena.old }
    {
        match change {
            Change::Capabilities(word) => self.capabilities = word,
            Change::Rule(word) => self.rule = UniformRule::try_from(word),
            Change::TypeRecord(w) => {
                let words = w.words();
                self.types = append(arena, self.types, MEMBERS_AT, &words).ok_or(Stop::TypesFull)?;
            }
            Change::MemberRecord(m) => {
                self.members = append(arena, self.members, ARENA_WORDS, &m.words()).ok_or(
                    Stop::MembersFull,
                )?;
            }
            Change::Pass => self.pass = immediates_pass::start(),
            Change::Clear => self.clear(),
        }
        Ok(())
    }

    /// What a line makes of the session and the arena.
    pub fn change(&mut self, change: Change, arena: &mut Arena)
        ensures value { self.new ≡ changed change self.old }
        ensures arena_after { arena.new ≡ arena_after change self.old arena.old }
    {
        if let Err(stop) = self.apply(change, arena) {
            self.state = State::Stopped(stop);
        }
    }

    // Why the session stops, where it does.
    fn put_stop(self, out: &mut Output)
        ensures { Adds out.old (stop_bytes self) out.new }
    {
        match self.state {
            State::Reading | State::Ended => {}
            State::Stopped(stop) => out.put_stop(self.line, stop),
        }
    }

    /// Writes the answers that wait, and why the session stops if it does. After a write that failed nothing more is answered.
    pub fn flush<W: Write>(&mut self, out: &mut Output, to: &mut W)
        ensures state { (written : Bool) × (self.new ≡ after_write written self.old)
            × (written ≡ true → length out.old.bytes ≡ 1114112 → (out.old.end ≤ 1114112)
            × Appends (W.contents to.old) (W.contents to.new) (take out.old.end out.old.bytes ++ stop_bytes self.old)) }
        ensures none_waits { out.new.end ≡ 0 }
        ensures room { length out.new.bytes ≡ length out.old.bytes }
    {
        self.put_stop(out);
        if out.flush(to).is_err() {
            self.state = State::Stopped(Stop::Input(ReadError::Failed));
        }
    }
}
