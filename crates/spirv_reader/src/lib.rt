// A reader that carries the lent words and its own position: thin functions over it. The work is in functions over a plain slice (spirv_read).
#![tactic(auto)]

ghost use Rattle.std.specs.Prelude.{◌≡◌, ◌≤◌, length};
ghost use Rattle.spirv_read.specs.Section.{section_answer_of};
ghost use Rattle.spirv_read.specs.Read.{read_into, section_of, types_after, members_after};
ghost use Rattle.spirv_reader.specs.Head.{head_at};
ghost use Rattle.spirv_reader.specs.Section.{section_at, types_at, members_at};

use ir_records::{Fault, Records};

#[derive(Clone, Copy, Debug, PartialEq, Eq)]
pub struct Reader<'a> {
    pub words: &'a [u32],
    pub at: usize,
}

// The work: the word at a position of a slice; none at the end.
// Kept beside `Reader::next`, as `read_from` beside `Reader::read`: each pair is a promise to callers, with plain words or with a reader that carries them.
pub fn head_at(words: &[u32], at: usize) -> Option<u32>
    ensures { result ≡ head_at words.now at }
{
    words.get(at).copied()
}

// The module that begins at a position of a slice; past its end there is none.
// Kept: words, position and two lent tables: a struct of the tables would be made by each caller for this one call, and every clause would name the same
// tables through it.
pub fn read_from(
    words: &[u32],
    at: usize,
    types: &mut [u32],
    members: &mut [u32],
) -> Result<Records, Fault>
    ensures { (section_answer_of result ≡ section_at words.now at types.old members.old) × (types.new ≡ types_at words.now at types.old members.old)
        × (members.new ≡ members_at words.now at types.old members.old) }
{
    spirv_read::read_words(&words[at.min(words.len())..], types, members)
}

impl<'a> Reader<'a> {
    // At the first word.
    pub fn new(words: &'a [u32]) -> Self
        ensures { (result.words ≡ words.entry) × (result.at ≡ 0) }
    {
        Reader { words, at: 0 }
    }

    // What stands where the reader is.
    pub fn next(self) -> Option<u32>
        ensures { result ≡ head_at self.entry.words.now self.entry.at }
    {
        head_at(self.words, self.at)
    }

    pub fn moved(self, at: usize) -> Self
        ensures { (result.words ≡ self.entry.words) × (result.at ≡ at) }
    {
        Reader { at, ..self }
    }

    // The module that begins where the reader is.
    pub fn read(self, types: &mut [u32], members: &mut [u32]) -> Result<Records, Fault>
        ensures { (section_answer_of result ≡ section_at self.entry.words.now self.entry.at types.old members.old)
            × (types.new ≡ types_at self.entry.words.now self.entry.at types.old members.old)
            × (members.new ≡ members_at self.entry.words.now self.entry.at types.old members.old) }
    {
        read_from(self.words, self.at, types, members)
    }
}

// A module's words, with plain parameters. Nothing is asked of the caller.
// Kept: they are those of the exported call; beside `spirv_read::read_words`, of the same contract, since both are a promise to callers: this is the
// reader's own name for a module that begins at the first word.
pub fn read_module(words: &[u32], types: &mut [u32], members: &mut [u32]) -> Result<Records, Fault>
    ensures { (section_answer_of result ≡ section_of (read_into words.now types.old members.old))
        × (types.new ≡ types_after (read_into words.now types.old members.old) types.old)
        × (members.new ≡ members_after (read_into words.now types.old members.old) members.old) }
{
    Reader::new(words).read(types, members)
}
