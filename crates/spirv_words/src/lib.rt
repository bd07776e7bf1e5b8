// Words and instructions of a SPIR-V module, and searches through the instructions before a place.
#![tactic(auto)]

ghost use Rattle.std.specs.Prelude.{◌≡◌, ◌&&◌, ◌≤◌, Bool, ℕ, eqb};
ghost use Rattle.spirv_words.specs.Module.{word_count, opcode, word, between, before, find, only, found};
ghost use Rattle.spirv_words.specs.Decorations.{is_integer, is_stride_of, is_offset_of, is_misplaced, is_otherwise};
ghost use Rattle.spirv_words.specs.Serving.{Tells};
ghost use Rattle.std.specs.Iterator.{YieldsFirst, item_count};

// Words of the header; the first instruction stands after them.
pub const HEADER_WORDS: usize = 5;

// The opcodes that are looked at.
// Kept: numbers, and no enum: a module may have any of 65,536 opcodes, and what is a type or is read is a range of them (spirv_ids); an enum would
// have a variant for all others, and each of these tests would go back to its number.
pub const TYPE_VOID: u32 = 19;

pub const TYPE_BOOL: u32 = 20;

pub const TYPE_INT: u32 = 21;

pub const TYPE_FLOAT: u32 = 22;

pub const TYPE_VECTOR: u32 = 23;

pub const TYPE_MATRIX: u32 = 24;

pub const TYPE_ARRAY: u32 = 28;

pub const TYPE_RUNTIME_ARRAY: u32 = 29;

pub const TYPE_STRUCT: u32 = 30;

pub const TYPE_PIPE: u32 = 38;

pub const CONSTANT: u32 = 43;

pub const DECORATE: u32 = 71;

pub const MEMBER_DECORATE: u32 = 72;

// The decorations that are looked at.
// Kept: numbers, and no enum: a module may have any other number, so an enum would have a variant for all others, and each test here would compare with
// one of its variants as it does with a number.
pub const ROW_MAJOR: u32 = 4;

pub const ARRAY_STRIDE: u32 = 6;

pub const MATRIX_STRIDE: u32 = 7;

pub const OFFSET: u32 = 35;

// Kept: `words, at` in the functions from here to `is_otherwise`: of a slice and a place in it nothing is asked, so a struct of both would have no
// invariant, and each search would make one for every instruction that it looks at.
// Word k of the instruction at `at`; 0 past the words.
pub fn word_of(words: &[u32], at: usize, k: usize) -> u32
    ensures { result ≡ word words.now at k }
{
    ir_records::word_at(words, at.saturating_add(k))
}

// The upper 16 bits of its first word; 0 past the words.
pub fn word_count(words: &[u32], at: usize) -> usize
    ensures { (result ≡ word_count words.now at) × (result ≤ 65535) }
{
    let upper = ir_records::word_at(words, at) / 65536;
    upper as usize
}

// The lower 16 bits.
pub fn opcode_of(words: &[u32], at: usize) -> u32
    ensures { result ≡ opcode words.now at }
{
    ir_records::word_at(words, at) % 65536
}

// An instruction of this opcode whose first operand is this id.
fn is_of(words: &[u32], op: u32, id: u32, at: usize) -> bool
    ensures { result ≡ (eqb (opcode words.now at) op && eqb (word words.now at 1) id) }
{
    (opcode_of(words, at) == op) & (word_of(words, at, 1) == id)
}

// The OpTypeInt that gives an id.
pub fn is_integer(words: &[u32], id: u32, at: usize) -> bool
    ensures { result ≡ is_integer words.now id at }
{
    is_of(words, TYPE_INT, id, at)
}

// The ArrayStride of a type.
pub fn is_stride_of(words: &[u32], id: u32, at: usize) -> bool
    ensures { result ≡ is_stride_of words.now id at }
{
    (opcode_of(words, at) == DECORATE)
        & (word_of(words, at, 2) == ARRAY_STRIDE)
        & (word_of(words, at, 1) == id)
}

// The Offset of a member of a struct.
pub fn is_offset_of(words: &[u32], id: u32, member: u32, at: usize) -> bool
    ensures { result ≡ is_offset_of words.now id member at }
{
    is_of(words, MEMBER_DECORATE, id, at)
        & (word_of(words, at, 2) == member)
        & (word_of(words, at, 3) == OFFSET)
}

// A decoration that a type of this opcode cannot have.
pub fn is_misplaced(words: &[u32], op: u32, id: u32, at: usize) -> bool
    ensures { result ≡ is_misplaced words.now op id at }
{
    let decoration = word_of(words, at, 3);
    (is_stride_of(words, id, at) & !((op == TYPE_ARRAY) | (op == TYPE_RUNTIME_ARRAY)))
        | (is_of(words, MEMBER_DECORATE, id, at)
            & !(op == TYPE_STRUCT)
            & ((decoration == OFFSET) | (decoration == MATRIX_STRIDE) | (decoration == ROW_MAJOR)))
}

// A member's matrix stored otherwise than in columns so many bytes apart.
pub fn is_otherwise(words: &[u32], id: u32, member: u32, step: u32, at: usize) -> bool
    ensures { result ≡ is_otherwise words.now id member step at }
{
    let decoration = word_of(words, at, 3);
    is_of(words, MEMBER_DECORATE, id, at)
        & (word_of(words, at, 2) == member)
        & ((decoration == ROW_MAJOR)
            | ((decoration == MATRIX_STRIDE) & !(word_of(words, at, 4) == step)))
}

/// The instructions from one place on and before another, by their places; none after one that has no words.
#[derive(Clone, Copy, Debug, PartialEq, Eq)]
pub struct Instructions<'a> {
    pub words: &'a [u32],
    pub at: usize,
    pub end: usize,
}

impl<'a> Iterator for Instructions<'a> {
    type Item = usize;

    ghost next_gives = { YieldsFirst (λ s. between s.words.now s.at s.end) };

    ghost remaining = { item_count (λ s. between s.words.now s.at s.end) };

    fn next(&mut self) -> Option<usize> {
        let at = self.at;
        if self.end <= at {
            return None;
        }
        let count = word_count(self.words, at);
        if count == 0 {
            return None;
        }
        self.at = at + count;
        Some(at)
    }
}

// The first wanted instruction from `from` on and before `end`.
pub fn first_between<F: Fn(usize) -> bool>(
    words: &[u32],
    from: usize,
    end: usize,
    is_wanted: F,
) -> Option<usize>
    requires { F.IsAlwaysCallable is_wanted }
    ensures { (test : ℕ → Bool) → Tells (F.post is_wanted) test → result ≡ find test (between words.now from end) }
{
    let mut instructions = Instructions {
        words,
        at: from,
        end,
    };
    instructions.find(|p| is_wanted(*p))
}

// The only wanted instruction before `at`; none where there are several.
pub fn only_before<F: Fn(usize) -> bool>(words: &[u32], at: usize, is_wanted: F) -> Option<usize>
    requires { F.IsAlwaysCallable is_wanted }
    ensures { (test : ℕ → Bool) → Tells (F.post is_wanted) test → result ≡ found (only test (before words.now at)) }
{
    let place = first_between(words, HEADER_WORDS, at, &is_wanted)?;
    let next = place + word_count(words, place);
    if first_between(words, next, at, &is_wanted).is_some() {
        return None;
    }
    Some(place)
}
