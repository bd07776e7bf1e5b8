// Member records, and the words that they stand for.
#![tactic(auto)]

ghost use Rattle.std.specs.Prelude.{◌≡◌, [], ◌∷◌, ◌*◌, ◌≤◌, leb, length, take};
ghost use Rattle.ir_records.specs.Result.{pick};
ghost use Rattle.ir_records.specs.Record.{member_words};
ghost use Rattle.ir_member_words.specs.Flat.{flat};

// StructMember of naga's ir/mod.rs: a type, an offset, and the location and the blend source of its binding, each plus one, 0 for none.
// Kept: location and source as 02 stores them: the fields of a member record are its four words.
#[derive(Clone, Copy, Debug, PartialEq, Eq)]
pub struct Member {
    pub ty: u32,
    pub offset: u32,
    pub location: u32,
    pub source: u32,
}

impl Member {
    /// The words of the record.
    pub fn words(self) -> [u32; 4]
        ensures { result ≡ self.ty ∷ self.offset ∷ self.location ∷ self.source ∷ [] }
    {
        [self.ty, self.offset, self.location, self.source]
    }
}

// How many records are taken apart at most: one more than the core takes, so that the core refuses what is too long.
const MOST_RECORDS: usize = ir_records::MOST_MEMBERS + 1;

const MOST_WORDS: usize = MOST_RECORDS * ir_records::MEMBER_WORDS;

/// The words of member records, one record after the other.
// Kept: an array and how much of it is used: there is no heap for a vector.
#[derive(Drop)]
pub struct MemberWords {
    pub words: [u32; MOST_WORDS],
    pub end: usize,
    ghost fits: { end ≤ 16388 },
}

impl MemberWords {
    /// The words of the first records.
    pub fn of(ms: &[Member]) -> MemberWords
        ensures { take result.end result.words ≡ flat (take (pick (leb (length ms.now) 4097) (length ms.now) 4097) ms.now) }
    {
        let n = ms.len().min(MOST_RECORDS);
        let mut words = [0u32; MOST_WORDS];
        for (i, m) in ms[..n].iter().enumerate() {
            let at = i * ir_records::MEMBER_WORDS;
            words[at..at + ir_records::MEMBER_WORDS].copy_from_slice(&m.words());
        }
        MemberWords {
            words,
            end: n * ir_records::MEMBER_WORDS,
        }
    }

    pub fn used(&self) -> &[u32]
        ensures { result.now ≡ take self.now.end self.now.words }
    {
        &self.words[..self.end]
    }
}
