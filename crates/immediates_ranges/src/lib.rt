// Slot masks: ImmediateSlots of naga's valid/immediates.rs without the walk of a type.
#![tactic(auto)]

ghost use Rattle.std.specs.Prelude.{◌≡◌, ◌≤◌};
ghost use Rattle.immediates_ranges.specs.Slots.{slot_count, slot_bytes, mask_of, range_slots, contains, difference};
ghost use Rattle.immediates_ranges.specs.Slots.{union, join, part_answer, mask_in, slots_found, slots_answer_of};
ghost use Rattle.immediates_ranges.specs.Serving.{cuts};

use ir_records::{Fault, Refusal};

/// The slots that a part touches, and those that it covers only in part.
#[derive(Clone, Copy, Debug, Default, PartialEq, Eq)]
pub struct Slots {
    pub touched: u64,
    pub partly: u64,
}

impl Slots {
    /// Two parts together: the union of each mask.
    pub fn join(self, other: Slots) -> Slots
        ensures { mask_in result ≡ join (mask_in self) (mask_in other) }
    {
        Slots {
            touched: union_of(self.touched, other.touched),
            partly: union_of(self.partly, other.partly),
        }
    }
}

/// The bytes that the slots have.
pub const SLOT_BYTES: u64 = 256;

// The slot that the border of a part lies inside; none where a slot begins or ends there, so that nothing is shifted by 64.
fn cut_slot(border: u64) -> u64
    requires { border ≤ slot_bytes }
    ensures { result ≡ mask_of (cuts border) slot_count }
{
    if border % 4 == 0 {
        return 0;
    }
    let slot = border / 4;
    1 << slot
}

/// from_range: the slots of the bytes from offset on, and those that one of their two borders lies inside. None where a nonempty part ends
/// past byte 256 or an offset sum leaves 32 bits.
#[tactic(auto, unfolding(crate::specs::Slots::range_slots))]
pub fn range_slots(offset: u32, size: u32) -> Option<Slots>
    ensures { slots_found result ≡ range_slots offset size }
{
    if size == 0 {
        return Some(Slots::default());
    }
    let end = (offset as u64) + (size as u64);
    if SLOT_BYTES < end {
        return None;
    }
    let lo = (offset as u64) / 4;
    let hi = end.div_ceil(4);
    let from = u64::MAX << lo;
    let rest = 64 - hi;
    let below = u64::MAX >> rest;
    let first = cut_slot(offset as u64);
    let last = cut_slot(end);
    Some(Slots {
        touched: from & below,
        partly: first | last,
    })
}

/// The slots of a range given as two numbers; it has no arena.
pub fn range(offset: u32, size: u32) -> Result<Slots, Refusal>
    ensures { slots_answer_of result ≡ part_answer (range_slots offset size) }
{
    part_answer(range_slots(offset, size))
}

// Whether every slot of other is one of this.
pub fn contains_all(this: u64, other: u64) -> bool
    ensures { result ≡ contains this other }
{
    other & !this == 0
}

// The slots of this that are not in other.
pub fn difference_of(this: u64, other: u64) -> u64
    ensures { result ≡ difference this other }
{
    this & !other
}

// The slots of either.
pub fn union_of(this: u64, other: u64) -> u64
    ensures { result ≡ union this other }
{
    this | other
}

// A part as the answer of a call; 25 carries zeros only.
// Kept beside `place_lookup::place_answer`: one function for both would be `ok_or` itself, handed the refusal; each contract speaks of the answer of its
// own call.
pub fn part_answer(part: Option<Slots>) -> Result<Slots, Refusal>
    ensures { slots_answer_of result ≡ part_answer (slots_found part) }
{
    part.ok_or(Refusal::of(Fault::PastImmediates))
}
