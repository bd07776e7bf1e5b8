// check_width of naga's valid/type.rs, and the widths of atomics.
// Kept: `capabilities`, `kind`, `width`: kind and width are naga's Scalar, but a record has them as words a and b, b and c, or c and d: with a struct
// of both, each call would say `Scalar { kind: w.b, width: w.c }` for `w.b, w.c`, and no contract would get shorter, since none has a fact of the two.
#![tactic(auto)]

ghost use Rattle.std.specs.Prelude.{◌≡◌, ◌<◌};
ghost use Rattle.valid_flags.specs.Flags.{bit};
ghost use Rattle.valid_width.specs.Width.{allowed_with, check_width, integer_atomic, atomic_width, immediates_word};
ghost use Rattle.valid_width.specs.Serving.{number_width};
ghost use Rattle.ir_records.specs.Refusal.{judged};

use ir_records::{Fault, ScalarKind, TypeRefusal};

// 01's capability bits.
// Kept: constants, as naga's capabilities are: they are public, and the two functions that take one take any bit, which an enum would ask more than.
pub const FLOAT64: u32 = 0;

pub const SHADER_FLOAT16: u32 = 1;

pub const SHADER_INT16: u32 = 2;

pub const SHADER_INT64: u32 = 3;

pub const SHADER_FLOAT32_ATOMIC: u32 = 4;

pub const SHADER_INT64_ATOMIC_MIN_MAX: u32 = 5;

pub const SHADER_INT64_ATOMIC_ALL_OPS: u32 = 6;

pub const COOPERATIVE_MATRIX: u32 = 7;

pub const CUBE_ARRAY_TEXTURES: u32 = 8;

pub const TEXTURE_EXTERNAL: u32 = 9;

pub const RAY_QUERY: u32 = 10;

pub const RAY_TRACING_PIPELINE: u32 = 11;

pub const RAY_HIT_VERTEX_POSITION: u32 = 12;

pub const DUAL_SOURCE_BLENDING: u32 = 13;

/// Number 8 with the capability's bit, where the caller has not allowed it.
pub fn require_type_capability(capabilities: u32, b: u32) -> Result<(), TypeRefusal>
    requires { b < 32 }
    ensures { judged result ≡ allowed_with (bit capabilities b) b }
{
    let capable = valid_flags::capable(capabilities, b);
    ir_records::require(
        capable,
        TypeRefusal::with_detail(Fault::MissingCapability, b),
    )
}

// Of an integer or a float: 4, or 2 and 8 with the capability for it.
fn number_width(capabilities: u32, half: u32, double: u32, width: u32) -> Result<(), TypeRefusal>
    requires half_bit { half < 32 }
    requires double_bit { double < 32 }
    ensures { judged result ≡ number_width capabilities half double width }
{
    match width {
        2 => require_type_capability(capabilities, half),
        4 => Ok(()),
        8 => require_type_capability(capabilities, double),
        _ => Err(TypeRefusal::of(Fault::InvalidWidth)),
    }
}

#[tactic(auto, unfolding(crate::specs::Width::check_width, crate::specs::Width::integer_width))]
pub fn check_width(capabilities: u32, kind: u32, width: u32) -> Result<(), TypeRefusal>
    ensures { judged result ≡ check_width capabilities kind width }
{
    match ScalarKind::try_from(kind) {
        Ok(ScalarKind::Sint | ScalarKind::Uint) => number_width(
            capabilities,
            SHADER_INT16,
            SHADER_INT64,
            width,
        ),
        Ok(ScalarKind::Float) => number_width(capabilities, SHADER_FLOAT16, FLOAT64, width),
        Ok(ScalarKind::Bool) if width == 1 => Ok(()),
        Ok(ScalarKind::Bool) => Err(TypeRefusal::of(Fault::InvalidWidth)),
        _ => Err(TypeRefusal::of(Fault::AbstractScalar)),
    }
}

#[tactic(auto, unfolding(crate::specs::Width::integer_atomic))]
fn integer_atomic(capabilities: u32, width: u32) -> Result<(), TypeRefusal>
    ensures { judged result ≡ integer_atomic capabilities width }
{
    match width {
        4 => Ok(()),
        // Either of two capabilities will do; naga names the second.
        8 if valid_flags::capable(capabilities, SHADER_INT64_ATOMIC_MIN_MAX) => Ok(()),
        8 => require_type_capability(capabilities, SHADER_INT64_ATOMIC_ALL_OPS),
        _ => Err(TypeRefusal::of(Fault::InvalidAtomicWidth)),
    }
}

#[tactic(auto, unfolding(crate::specs::Width::atomic_width))]
pub fn atomic_width(capabilities: u32, kind: u32, width: u32) -> Result<(), TypeRefusal>
    ensures { judged result ≡ atomic_width capabilities kind width }
{
    match ScalarKind::try_from(kind) {
        Ok(ScalarKind::Sint | ScalarKind::Uint) => integer_atomic(capabilities, width),
        Ok(ScalarKind::Float) if width == 4 => {
            require_type_capability(capabilities, SHADER_FLOAT32_ATOMIC)
        }
        _ => Err(TypeRefusal::of(Fault::InvalidAtomicWidth)),
    }
}

// 0, or 1 plus the scalar kind for an integer or float of width 2.
// Kept: 0 and no Option: this is a word of a row, as 01 has it, and a base's word is passed on as it lies there.
pub fn immediates_word(kind: u32, width: u32) -> u32
    ensures { result ≡ immediates_word kind width }
{
    match ScalarKind::try_from(kind) {
        Ok(ScalarKind::Sint | ScalarKind::Uint | ScalarKind::Float) if width == 2 => 1 + kind,
        _ => 0,
    }
}
