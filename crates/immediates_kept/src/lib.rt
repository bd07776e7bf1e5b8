// The parts of structs that a slot walk keeps: one for each type and each remainder of its offset by 4.
#![tactic(auto)]

ghost use Rattle.std.specs.Prelude.{◌≡◌, ◌<◌, length, [], get_or, set};
ghost use Rattle.immediates_kept.specs.declared.Kept.TheVariants.{Unwalked};
ghost use Rattle.immediates_kept.specs.Kept.{kept_of, part_kept};

use immediates_part::Part;

/// What is kept of a struct.
// Kept: `Option<Option<Part>>` says the same, in 40 bytes in place of 32, since each enum has a tag of its own: a walk's array would take a quarter more stack.
#[derive(Clone, Copy, Debug, PartialEq, Eq)]
pub enum Kept {
    /// It has not been walked.
    Unwalked,
    /// It has been walked, and is refused.
    Past,
    /// It has been walked, and this is its part.
    Within(Part),
}

/// What is kept of a type: one for each remainder.
pub type OfType = [Kept; 4];

/// What is kept of type ty: None until it has been walked; then its part, or None where it is refused.
pub fn kept_part(kept: &[OfType], ty: u32, low: u32) -> Option<Option<Part>>
    requires ty_in_bounds { ty < length kept.now }
    requires low_bound { low < 4 }
    ensures { result ≡ part_kept (get_or (get_or kept.now ty []) low Unwalked) }
{
    match kept[ty as usize][low as usize] {
        Kept::Unwalked => None,
        Kept::Past => Some(None),
        Kept::Within(part) => Some(Some(part)),
    }
}

/// Keeps a part of type ty.
pub fn keep(kept: &mut [OfType], ty: u32, low: u32, part: Option<Part>)
    requires ty_in_bounds { ty < length kept.old }
    requires low_bound { low < 4 }
    ensures { kept.new ≡ set kept.old ty (set (get_or kept.old ty []) low (kept_of part)) }
{
    kept[ty as usize][low as usize] = match part {
        Some(within) => Kept::Within(within),
        None => Kept::Past,
    };
}
