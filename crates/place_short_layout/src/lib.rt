// Three words for each type, size, alignment and flags, in lent words; and the layout of one type from those of the types before it, as in
// Layouter::update of naga's proc/layouter.rs, numbers 4 to 7.
#![tactic(auto)]

ghost use Rattle.std.specs.Prelude.{◌≡◌, ◌+◌, ◌*◌, ◌≤◌, ◌<◌, length};
ghost use Rattle.ir_records.specs.Serving.{LeafBounds, InnerBounds};
ghost use Rattle.ir_rows.specs.Rows.{with_part};
ghost use Rattle.proc_type_alignment.specs.TypeAlignment.{leaf_alignment, base_alignment, members_alignment, alignment_of};
ghost use Rattle.ir_records.specs.Refusal.{judged};
ghost use Rattle.proc_type_layout.specs.TypeLayout.{layout_of};
ghost use Rattle.place_short_layout.specs.ShortRows.{short_width, short_word, three_words, short_layouts};

use ir_records::{Fault, Leaf, TypeInner, TypeRefusal};
use proc_type_alignment::TypeLayout;

pub const SHORT_WORDS: usize = 3;

// The three words: the first of a row.
pub const SIZE: u32 = ir_rows::SIZE as u32;

pub const ALIGNMENT: u32 = ir_rows::ALIGNMENT as u32;

pub const FLAGS: u32 = ir_rows::FLAGS as u32;

/// Word j of the three of type k; 0 past the words.
// Kept: `short_word` and `ir_rows::row_word` are one line each over `table_word`; what differs is the definition that each names.
pub fn short_word(words: &[u32], k: u32, j: u32) -> u32
    ensures { result ≡ short_word words.now k j }
{
    ir_records::table_word(words, SHORT_WORDS as u32, k, j)
}

// Writes the three words of type i.
// Kept: three stores: by `copy_from_slice` of an array a program that writes such rows alone takes 3.6 times as long.
// Kept: `i * 3 + 3 ≤ length words.old`: the words are lent with `&mut`, so no struct that is copied holds them beside their length.
pub fn put_three(words: &mut [u32], i: u32, size: u32, alignment: u32, flags: u32)
    requires { i * 3 + 3 ≤ length words.old }
    ensures { words.new ≡ with_part short_width words.old (i * 3) (three_words size alignment flags) }
{
    let at = (i as usize) * SHORT_WORDS;
    words[at] = size;
    words[at + 1] = alignment;
    words[at + 2] = flags;
}

// Number 7 for a width that is no power of two.
// Kept: `LeafBounds leaf`, `InnerBounds inner`: a record may say any numbers, and these hold only of one that number 2 has passed; a struct around the
// enum that says so would be taken apart at each match.
fn leaf_alignment(leaf: Leaf) -> Result<u32, TypeRefusal>
    requires { LeafBounds leaf }
    ensures { judged result ≡ leaf_alignment leaf }
{
    match leaf {
        Leaf::Scalar(_, width) => proc_type_alignment::leaf_alignment(1, width),
        Leaf::Vector(size, _, width) => {
            proc_type_alignment::leaf_alignment(proc_alignment::vector_alignment(size), width)
        }
        Leaf::Matrix(_, rows, _, width) => {
            proc_type_alignment::leaf_alignment(proc_alignment::vector_alignment(rows), width)
        }
        Leaf::CooperativeMatrix(_, rows, _, width, _) => {
            proc_type_alignment::leaf_alignment(rows, width)
        }
        Leaf::Atomic(_, width) => proc_type_alignment::leaf_alignment(1, width),
        Leaf::RayQuery(_) => Ok(1),
    }
}

/// The three words of each type before type i.
// Kept: beside `ir_rows::Earlier`: this one asks nothing of its words, and a type that they lack reads as zeros.
#[derive(Clone, Copy, Debug, PartialEq, Eq)]
pub struct Before<'a> {
    pub words: &'a [u32],
    pub i: u32,
}

impl<'a> Before<'a> {
    // Number 5 for an element that is no earlier type.
    // Kept: a test and a read, as `proc_type_alignment::base_alignment` has them for rows of fourteen words; with the width as a parameter the read's
    // definition, short_word or row_word, would be one too.
    fn base_alignment(self, base: u32) -> Result<u32, TypeRefusal>
        ensures { judged result ≡ base_alignment (short_layouts self.entry.words.now) self.entry.i base }
    {
        if base < self.i {
            return Ok(short_word(self.words, base, ALIGNMENT));
        }
        Err(TypeRefusal::of(Fault::InvalidArrayElementType))
    }

    // The largest alignment of a struct's members; number 6 for a member that is no earlier type.
    // Kept: beside `proc_type_alignment::members_alignment`, which finds blend sources in the same pass, and number 2; here records are judged before.
    // And a count beside the rows, which nothing says are so many: a row that they lack reads as zeros.
    #[tactic(auto, unfolding(proc_type_alignment::specs::TypeAlignment::members_alignment))]
    fn members_alignment(self, part: &[u32], count: u32) -> Result<u32, TypeRefusal>
        ensures { judged result ≡ members_alignment (short_layouts self.entry.words.now) self.entry.i part.now count }
    {
        let mut a: u32 = 1;
        for j in 0..count {
            let ty = ir_records::member_type(part, j);
            if self.i <= ty {
                return Err(TypeRefusal::of_member(Fault::InvalidStructMemberType, j));
            }
            a = a.max(short_word(self.words, ty, ALIGNMENT));
        }
        Ok(a)
    }

    #[tactic(auto, unfolding(proc_type_alignment::specs::TypeAlignment::alignment_of))]
    fn alignment_of(self, inner: TypeInner, part: &[u32]) -> Result<u32, TypeRefusal>
        requires { InnerBounds inner }
        ensures { judged result ≡ alignment_of (short_layouts self.entry.words.now) self.entry.i inner part.now }
    {
        match inner {
            TypeInner::Plain(leaf) => leaf_alignment(leaf),
            TypeInner::Array {
                base,
                count: _,
                stride: _,
            } => self.base_alignment(base),
            TypeInner::RuntimeArray { base, stride: _ } => self.base_alignment(base),
            TypeInner::Struct { count, span: _ } => self.members_alignment(part, count),
            TypeInner::Other(_) => Ok(1),
        }
    }

    /// Numbers 4 to 7 of type i, or its layout. The size is tried before references and widths.
    #[tactic(auto, unfolding(proc_type_layout::specs::TypeLayout::layout_of))]
    pub fn layout_of(self, inner: TypeInner, part: &[u32]) -> Result<TypeLayout, TypeRefusal>
        requires { InnerBounds inner }
        ensures { judged result ≡ layout_of (short_layouts self.entry.words.now) self.entry.i inner part.now }
    {
        let size = proc_type_methods::try_size(inner).ok_or(TypeRefusal::of(Fault::TooLarge))?;
        let alignment = self.alignment_of(inner, part)?;
        Ok(TypeLayout { size, alignment })
    }
}
