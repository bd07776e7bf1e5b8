// A part with its room: its slots, and how many bytes further on it may stand before it is refused.
#![tactic(auto)]

ghost use Rattle.std.specs.Prelude.{◌≡◌};
ghost use Rattle.immediates_part.specs.Part.{nothing_at, range_room, range_part, join_parts, raised, moved, part_in, part_found};

use immediates_ranges::Slots;

#[derive(Clone, Copy, Debug, PartialEq, Eq)]
pub struct Part {
    pub slots: Slots,
    pub room: u64,
}

impl Part {
    /// No slot: only 32 bits end its room.
    #[tactic(auto, unfolding(crate::specs::Part::nothing_at))]
    pub fn nothing_at(offset: u32) -> Part
        ensures { part_in result ≡ nothing_at offset }
    {
        Part {
            slots: Slots::default(),
            room: proc_alignment::MOST - u64::from(offset),
        }
    }

    /// Two parts together: they have the smaller room.
    pub fn join(self, other: Part) -> Part
        ensures { part_in result ≡ join_parts (part_in self) (part_in other) }
    {
        Part {
            slots: self.slots.join(other.slots),
            room: self.room.min(other.room),
        }
    }

    /// A part n slots further on; None where it has not the room.
    pub fn moved(self, n: u32) -> Option<Part>
        ensures { part_found result ≡ moved n (part_in self) }
    {
        let bytes = 4 * u64::from(n);
        let left = self.room.checked_sub(bytes)?;
        Some(Part {
            slots: Slots {
                touched: raise(self.slots.touched, n),
                partly: raise(self.slots.partly, n),
            },
            room: left,
        })
    }
}

// The room of the bytes from offset on.
fn range_room(offset: u32, size: u32) -> u64
    ensures { result ≡ range_room offset size }
{
    if size == 0 {
        return proc_alignment::MOST - u64::from(offset);
    }
    immediates_ranges::SLOT_BYTES.saturating_sub(u64::from(offset) + u64::from(size))
}

/// The part of the bytes from offset on; None as of `immediates_ranges::range_slots`.
#[tactic(auto, unfolding(crate::specs::Part::range_part))]
pub fn range_part(offset: u32, size: u32) -> Option<Part>
    ensures { part_found result ≡ range_part offset size }
{
    let slots = immediates_ranges::range_slots(offset, size)?;
    Some(Part {
        slots,
        room: range_room(offset, size),
    })
}

// A mask n slots further on: 64 or more leave none.
#[tactic(auto, unfolding(crate::specs::Part::raised))]
fn raise(mask: u64, n: u32) -> u64
    ensures { result ≡ raised mask n }
{
    mask.checked_shl(n).unwrap_or(0)
}
