// Plain types from a table: size, alignment and column step of 13 shapes at widths 1, 2, 4 and 8. Number 2.
#![tactic(auto)]

ghost use Rattle.std.specs.Prelude.{◌≡◌, ℕ, ◌^◌, ◌<◌};
ghost use Rattle.proc_plain_types.specs.PlainTypes.{leaf_with, worked_out, plain_answer, plain_in, plain_answer_of};
ghost use Rattle.proc_plain_types.specs.Serving.{entry_in};

use ir_records::{Fault, Refusal};

/// Of a plain type; the step is 0 where there are no columns.
// Kept: 0 and no Option: the definition gives three numbers, and the call of the C interface writes them.
#[derive(Clone, Copy, Debug, Default, PartialEq, Eq)]
pub struct PlainLayout {
    pub size: u32,
    pub alignment: u32,
    pub step: u32,
}

// Shape by shape, at widths 1, 2, 4 and 8: size, alignment and column step.
// Kept: a flat table, as the definition `entry_in` reads it: as 52 structs of three fields it would be 260 lines, and as arrays in arrays three brackets
// an entry, with a definition that opens them one after the other.
const NUMBERS: [u32; 156] = [
    // scalar
    1, 1, 0, 2, 2, 0, 4, 4, 0, 8, 8, 0,
    // vec2
    2, 2, 0, 4, 4, 0, 8, 8, 0, 16, 16, 0,
    // vec3
    3, 4, 0, 6, 8, 0, 12, 16, 0, 24, 32, 0,
    // vec4
    4, 4, 0, 8, 8, 0, 16, 16, 0, 32, 32, 0,
    // mat2x2
    4, 2, 2, 8, 4, 4, 16, 8, 8, 32, 16, 16,
    // mat2x3
    8, 4, 4, 16, 8, 8, 32, 16, 16, 64, 32, 32,
    // mat2x4
    8, 4, 4, 16, 8, 8, 32, 16, 16, 64, 32, 32,
    // mat3x2
    6, 2, 2, 12, 4, 4, 24, 8, 8, 48, 16, 16,
    // mat3x3
    12, 4, 4, 24, 8, 8, 48, 16, 16, 96, 32, 32,
    // mat3x4
    12, 4, 4, 24, 8, 8, 48, 16, 16, 96, 32, 32,
    // mat4x2
    8, 2, 2, 16, 4, 4, 32, 8, 8, 64, 16, 16,
    // mat4x3
    16, 4, 4, 32, 8, 8, 64, 16, 16, 128, 32, 32,
    // mat4x4
    16, 4, 4, 32, 8, 8, 64, 16, 16, 128, 32, 32,
];

const MOST_SHAPE: u32 = 12;

// The entry of a shape at a width, which is told by its place among the four. The table is lent, so that a proof can name it.
fn entry_in(numbers: &[u32; 156], shape: u32, place: u32) -> PlainLayout
    requires shape_bound { shape < 13 }
    requires place_bound { place < 4 }
    ensures { plain_in result ≡ entry_in numbers.now shape place }
{
    let at = ((shape * 4 + place) * 3) as usize;
    PlainLayout {
        size: numbers[at],
        alignment: numbers[at + 1],
        step: numbers[at + 2],
    }
}

// The same of the table above: the worked-out numbers of the shape, for every scalar kind.
fn entry(shape: u32, place: u32) -> PlainLayout
    requires shape_bound { shape < 13 }
    requires place_bound { place < 4 }
    ensures { (kind : ℕ) → plain_in result ≡ worked_out (leaf_with shape kind (2 ^ place)) }
{
    entry_in(&NUMBERS, shape, place)
}

// Kept: a shape by its number, which is what the call of the C interface takes; an enum of thirteen would be made of it for the table's index.
/// The numbers of a shape at a width; number 2 for another shape or width. Nothing is asked of the caller.
pub fn plain(shape: u32, width: u32) -> Result<PlainLayout, Refusal>
    ensures { plain_answer_of result ≡ plain_answer shape width }
{
    if MOST_SHAPE < shape {
        return Err(Refusal::of(Fault::FieldOutside));
    }
    match width {
        1 => Ok(entry(shape, 0)),
        2 => Ok(entry(shape, 1)),
        4 => Ok(entry(shape, 2)),
        8 => Ok(entry(shape, 3)),
        _ => Err(Refusal::of(Fault::FieldOutside)),
    }
}
