// What validate_type of naga's valid/type.rs says of a type's flags, by its kind.
// Kept: `capabilities`, `kind`, `width`: kind and width are naga's Scalar, but a record has them as words a and b, b and c, or c and d: with a struct
// of both, each call would say `Scalar { kind: w.b, width: w.c }` for `w.b, w.c`, and no contract would get shorter, since none has a fact of the two.
#![tactic(auto)]

ghost use Rattle.std.specs.Prelude.{◌≡◌, ℕ, eqb};
ghost use Rattle.ir_records.specs.Serving.{size_of};
ghost use Rattle.ir_records.specs.Record.{atomic_kind, value_pointer_kind, type_inner};
ghost use Rattle.ir_records.specs.Refusal.{judged};
ghost use Rattle.valid_flags.specs.Flags.{starting_flags, pointer_flags};
ghost use Rattle.valid_width.specs.Width.{check_width, atomic_width};
ghost use Rattle.valid_type_flags.specs.TypeFlags.{with_width, cooperative_flags, vertex_flags, matrix_flags, ray_query_flags, image_flags};
ghost use Rattle.valid_type_flags.specs.TypeFlags.{is_struct, is_external_image, pointer_to, acceleration_flags, is_binding_base, binding_array_of};
ghost use Rattle.valid_type_flags.specs.Serving.{NamesDimension, NamesClass, arrayed_image, external_image};

use ir_records::{Fault, Kind, ScalarKind, TypeRefusal};
use valid_flags::AddressSpace;

/// naga's ImageDimension, by its number in a record.
#[derive(Clone, Copy, Debug, PartialEq, Eq)]
pub enum ImageDimension {
    D1 = 0,
    D2 = 1,
    D3 = 2,
    Cube = 3,
}

impl TryFrom<u32> for ImageDimension {
    type Error = TypeRefusal;

    ghost try_from_gives = { NamesDimension };

    /// Number 2 for a number of no dimension.
    fn try_from(number: u32) -> Result<Self, TypeRefusal> {
        match number {
            0 => Ok(ImageDimension::D1),
            1 => Ok(ImageDimension::D2),
            2 => Ok(ImageDimension::D3),
            3 => Ok(ImageDimension::Cube),
            _ => Err(TypeRefusal::of(Fault::FieldOutside)),
        }
    }
}

/// naga's ImageClass, by its number in a record, which has not what the class says besides.
#[derive(Clone, Copy, Debug, PartialEq, Eq)]
pub enum ImageClass {
    Sampled = 0,
    Depth = 1,
    External = 2,
    Storage = 3,
}

impl TryFrom<u32> for ImageClass {
    type Error = TypeRefusal;

    ghost try_from_gives = { NamesClass };

    /// Number 2 for a number of no class.
    fn try_from(number: u32) -> Result<Self, TypeRefusal> {
        match number {
            0 => Ok(ImageClass::Sampled),
            1 => Ok(ImageClass::Depth),
            2 => Ok(ImageClass::External),
            3 => Ok(ImageClass::Storage),
            _ => Err(TypeRefusal::of(Fault::FieldOutside)),
        }
    }
}

pub fn cooperative_flags(capabilities: u32, kind: u32, width: u32) -> Result<u32, TypeRefusal>
    ensures { judged result ≡ cooperative_flags capabilities kind width }
{
    valid_width::require_type_capability(capabilities, valid_width::COOPERATIVE_MATRIX)?;
    match (ScalarKind::try_from(kind), width) {
        (Ok(ScalarKind::Float), 2 | 4) => Ok(valid_flags::starting_flags(Kind::CooperativeMatrix)),
        _ => Err(TypeRefusal::of(Fault::MatrixElementNotFloat)),
    }
}

// vertex_return asks for a capability of its own.
// Kept: vertex_return is a word of a record, of which any number but 0 asks.
fn vertex_flags(capabilities: u32, vertex_return: u32, flags: u32) -> Result<u32, TypeRefusal>
    ensures { judged result ≡ vertex_flags capabilities vertex_return flags }
{
    if vertex_return != 0 {
        valid_width::require_type_capability(capabilities, valid_width::RAY_HIT_VERTEX_POSITION)?;
    }
    Ok(flags)
}

pub fn matrix_flags(capabilities: u32, kind: u32, width: u32) -> Result<u32, TypeRefusal>
    ensures { judged result ≡ matrix_flags capabilities kind width }
{
    match ScalarKind::try_from(kind) {
        Ok(ScalarKind::Float) => {
            valid_width::check_width(capabilities, kind, width)?;
            Ok(valid_flags::starting_flags(Kind::Matrix))
        }
        _ => Err(TypeRefusal::of(Fault::MatrixElementNotFloat)),
    }
}

pub fn atomic_flags(capabilities: u32, kind: u32, width: u32) -> Result<u32, TypeRefusal>
    ensures { judged result ≡ with_width (atomic_width capabilities kind width) (starting_flags atomic_kind) }
{
    valid_width::atomic_width(capabilities, kind, width)?;
    Ok(valid_flags::starting_flags(Kind::Atomic))
}

pub fn ray_query_flags(capabilities: u32, vertex_return: u32) -> Result<u32, TypeRefusal>
    ensures { judged result ≡ ray_query_flags capabilities vertex_return }
{
    valid_width::require_type_capability(capabilities, valid_width::RAY_QUERY)?;
    vertex_flags(
        capabilities,
        vertex_return,
        valid_flags::starting_flags(Kind::RayQuery),
    )
}

// Kept: `dim`, `arrayed` and `class` are words of any record, here and in the three below: a number of no dimension or class is none of those asked for,
// and an enum would ask that number 2 has passed the record.
// Of an arrayed image: number 22 for one of three dimensions; an array of cubes asks for a capability.
fn arrayed_image(capabilities: u32, dim: u32) -> Result<(), TypeRefusal>
    ensures { judged result ≡ arrayed_image capabilities dim }
{
    match ImageDimension::try_from(dim) {
        Ok(ImageDimension::D3) => Err(TypeRefusal::of(Fault::UnsupportedImageType)),
        Ok(ImageDimension::Cube) => {
            valid_width::require_type_capability(capabilities, valid_width::CUBE_ARRAY_TEXTURES)
        }
        _ => Ok(()),
    }
}

// Of an external image: number 22 for another one than a plain image of two dimensions; then its capability.
fn external_image(capabilities: u32, dim: u32, arrayed: u32) -> Result<(), TypeRefusal>
    ensures { judged result ≡ external_image capabilities dim arrayed }
{
    match (ImageDimension::try_from(dim), arrayed) {
        (Ok(ImageDimension::D2), 0) => {
            valid_width::require_type_capability(capabilities, valid_width::TEXTURE_EXTERNAL)
        }
        _ => Err(TypeRefusal::of(Fault::UnsupportedImageType)),
    }
}

// Whether a class is External.
fn is_external(class: u32) -> bool
    ensures { result ≡ eqb class 2 }
{
    matches!(ImageClass::try_from(class), Ok(ImageClass::External))
}

pub fn image_flags(
    capabilities: u32,
    dim: u32,
    arrayed: u32,
    class: u32,
) -> Result<u32, TypeRefusal>
    ensures { judged result ≡ image_flags capabilities dim arrayed class }
{
    if arrayed == 1 {
        arrayed_image(capabilities, dim)?;
    }
    if is_external(class) {
        external_image(capabilities, dim, arrayed)?;
    }
    Ok(valid_flags::starting_flags(Kind::Image))
}

// A pointer to a base with these flags.
pub fn pointer_to(base: u32, space: u32) -> Result<u32, TypeRefusal>
    ensures { judged result ≡ pointer_to base space }
{
    if !valid_flags::is_data(base) {
        return Err(TypeRefusal::of(Fault::InvalidPointerBase));
    }
    let stored = matches!(AddressSpace::try_from(space), Ok(AddressSpace::Storage));
    if !(valid_flags::is_sized(base) | stored) {
        return Err(TypeRefusal::of(Fault::InvalidPointerToUnsized));
    }
    Ok(valid_flags::pointer_flags(space, valid_flags::starting_flags(Kind::Pointer)))
}

// Whether type t is a struct; its kind tells.
// Kept: beside is_array of valid_member_bounds: is_of_kind says that a number is the kind's, these what the record says; one function for both would
// need a definition from kinds to tests of TypeInner, which no rule reads.
pub fn is_struct(types: &[u32], t: u32) -> bool
    ensures { result ≡ is_struct (type_inner types.now t) }
{
    ir_records::is_of_kind(types, t, Kind::Struct)
}

fn is_external_image(types: &[u32], t: u32) -> bool
    ensures { result ≡ is_external_image (type_inner types.now t) }
{
    let class = ir_records::type_word(types, t, 3);
    ir_records::is_of_kind(types, t, Kind::Image) & is_external(class)
}

// Number 23: data in a binding array is a struct. base: the flags of type t.
fn is_binding_base(types: &[u32], t: u32, base: u32) -> bool
    ensures { result ≡ is_binding_base (type_inner types.now t) base }
{
    !valid_flags::is_data(base) | is_struct(types, t)
}

// A binding array of this size over type t, which has the flags `base`.
pub fn binding_array_of(
    types: &[u32],
    t: u32,
    base: u32,
    size: Option<u32>,
) -> Result<u32, TypeRefusal>
    ensures { (form count : ℕ) → size ≡ size_of form count → judged result ≡ binding_array_of (type_inner types.now t) base form }
{
    if !is_binding_base(types, t, base) {
        return Err(TypeRefusal::of(Fault::BindingArrayBaseTypeNotStruct));
    }
    if is_external_image(types, t) {
        return Err(TypeRefusal::of(Fault::BindingArrayBaseExternalTextures));
    }
    if !valid_flags::is_creation_resolved(base) {
        return Err(TypeRefusal::of(Fault::InvalidData));
    }
    Ok(valid_flags::flags_over_base(Kind::BindingArray, size, base))
}

// Either of two capabilities will do; naga names RAY_QUERY.
pub fn acceleration_flags(capabilities: u32, vertex_return: u32) -> Result<u32, TypeRefusal>
    ensures { judged result ≡ acceleration_flags capabilities vertex_return }
{
    if !valid_flags::capable(capabilities, valid_width::RAY_TRACING_PIPELINE) {
        valid_width::require_type_capability(capabilities, valid_width::RAY_QUERY)?;
    }
    vertex_flags(
        capabilities,
        vertex_return,
        valid_flags::starting_flags(Kind::AccelerationStructure),
    )
}

pub fn value_pointer_flags(
    capabilities: u32,
    kind: u32,
    width: u32,
    space: u32,
) -> Result<u32, TypeRefusal>
    ensures { judged result ≡ with_width (check_width capabilities kind width) (pointer_flags space (starting_flags value_pointer_kind)) }
{
    valid_width::check_width(capabilities, kind, width)?;
    let flags = valid_flags::starting_flags(Kind::ValuePointer);
    Ok(valid_flags::pointer_flags(space, flags))
}
