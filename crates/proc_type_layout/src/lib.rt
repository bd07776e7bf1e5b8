// The layout of one type, from the rows of the types before it, as in Layouter::update of naga's proc/layouter.rs; numbers 2 to 7.
#![tactic(auto)]

ghost use Rattle.std.specs.Prelude.{◌≡◌, List, ℕ, ◌+◌, ◌*◌, ◌≤◌, ◌<◌, ltb, length, take, drop};
ghost use Rattle.ir_records.specs.Result.{ok, require};
ghost use Rattle.ir_records.specs.Fields.{sources_located};
ghost use Rattle.ir_records.specs.Record.{scalar_kind, vector_kind, matrix_kind, cooperative_matrix_kind, pointer_kind, value_pointer_kind};
ghost use Rattle.ir_records.specs.Record.{array_kind, struct_kind, image_kind, sampler_kind, acceleration_structure_kind, ray_query_kind};
ghost use Rattle.ir_records.specs.Record.{binding_array_kind, type_count, member_words, member_count};
ghost use Rattle.proc_type_methods.specs.Serving.{size_by_count};
ghost use Rattle.proc_type_alignment.specs.declared.TypeLayout as layout;
ghost use Rattle.proc_type_alignment.specs.TypeAlignment.{base_alignment};
ghost use Rattle.ir_records.specs.Refusal.{judged};
ghost use Rattle.proc_type_alignment.specs.Serving.{layouts_in};
ghost use Rattle.proc_type_layout.specs.TypeLayout.{sized_layout};
ghost use Rattle.proc_type_layout.specs.Serving.{words_layout, record_layout};

use ir_records::{Fault, Kind, TypeRefusal, Words};
use ir_rows::Earlier;
use proc_type_alignment::TypeLayout;

pub fn scalar_layout(w: Words) -> Result<TypeLayout, TypeRefusal>
    ensures { (m n i : ℕ) (layouts : ℕ → layout.TypeLayout) (members : List ℕ)
        → judged result ≡ words_layout m n layouts i scalar_kind w.a w.b w.c w.d w.e members }
{
    ir_fields::scalar_fields(w)?;
    let alignment = proc_type_alignment::leaf_alignment(1, w.b)?;
    Ok(TypeLayout {
        size: w.b,
        alignment,
    })
}

pub fn vector_layout(w: Words) -> Result<TypeLayout, TypeRefusal>
    ensures { (m n i : ℕ) (layouts : ℕ → layout.TypeLayout) (members : List ℕ)
        → judged result ≡ words_layout m n layouts i vector_kind w.a w.b w.c w.d w.e members }
{
    ir_fields::vector_fields(w)?;
    let factor = proc_alignment::vector_alignment(w.a);
    let alignment = proc_type_alignment::leaf_alignment(factor, w.c)?;
    Ok(TypeLayout {
        size: proc_type_methods::vector_size(w.a, w.c),
        alignment,
    })
}

pub fn matrix_layout(w: Words) -> Result<TypeLayout, TypeRefusal>
    ensures { (m n i : ℕ) (layouts : ℕ → layout.TypeLayout) (members : List ℕ)
        → judged result ≡ words_layout m n layouts i matrix_kind w.a w.b w.c w.d w.e members }
{
    ir_fields::matrix_fields(w)?;
    let factor = proc_alignment::vector_alignment(w.b);
    let alignment = proc_type_alignment::leaf_alignment(factor, w.d)?;
    Ok(TypeLayout {
        size: proc_type_methods::matrix_size(w.a, w.b, w.d),
        alignment,
    })
}

pub fn cooperative_layout(w: Words) -> Result<TypeLayout, TypeRefusal>
    ensures { (m n i : ℕ) (layouts : ℕ → layout.TypeLayout) (members : List ℕ)
        → judged result ≡ words_layout m n layouts i cooperative_matrix_kind w.a w.b w.c w.d w.e members }
{
    ir_fields::cooperative_fields(w)?;
    let alignment = proc_type_alignment::leaf_alignment(w.b, w.d)?;
    Ok(TypeLayout {
        size: proc_type_methods::cooperative_size(w.a, w.b, w.d),
        alignment,
    })
}

// Of a type whose alignment is 1: its size is given.
// Kept: each kind below is its fields, which differ by kind, the test of its base where it has one, and its size. One function would take the fields as a
// closure, and its contract would have to say the closure's again.
fn handle_layout(size: u32) -> TypeLayout
    ensures { result ≡ record { size = size; alignment = 1 } }
{
    TypeLayout { size, alignment: 1 }
}

pub fn pointer_layout(types: &[u32], w: Words) -> Result<TypeLayout, TypeRefusal>
    ensures { (m i : ℕ) (layouts : ℕ → layout.TypeLayout) (members : List ℕ)
        → judged result ≡ words_layout m (type_count types.now) layouts i pointer_kind w.a w.b w.c w.d w.e members }
{
    ir_fields::pointer_fields(w)?;
    ir_fields::base_within(types, w.a)?;
    Ok(handle_layout(4))
}

pub fn value_pointer_layout(w: Words) -> Result<TypeLayout, TypeRefusal>
    ensures { (m n i : ℕ) (layouts : ℕ → layout.TypeLayout) (members : List ℕ)
        → judged result ≡ words_layout m n layouts i value_pointer_kind w.a w.b w.c w.d w.e members }
{
    ir_fields::value_pointer_fields(w)?;
    Ok(handle_layout(4))
}

pub fn image_layout(w: Words) -> Result<TypeLayout, TypeRefusal>
    ensures { (m n i : ℕ) (layouts : ℕ → layout.TypeLayout) (members : List ℕ)
        → judged result ≡ words_layout m n layouts i image_kind w.a w.b w.c w.d w.e members }
{
    ir_fields::image_fields(w)?;
    Ok(handle_layout(0))
}

pub fn sampler_layout(w: Words) -> Result<TypeLayout, TypeRefusal>
    ensures { (m n i : ℕ) (layouts : ℕ → layout.TypeLayout) (members : List ℕ)
        → judged result ≡ words_layout m n layouts i sampler_kind w.a w.b w.c w.d w.e members }
{
    ir_fields::sampler_fields(w)?;
    Ok(handle_layout(0))
}

pub fn acceleration_layout(w: Words) -> Result<TypeLayout, TypeRefusal>
    ensures { (m n i : ℕ) (layouts : ℕ → layout.TypeLayout) (members : List ℕ)
        → judged result ≡ words_layout m n layouts i acceleration_structure_kind w.a w.b w.c w.d w.e members }
{
    ir_fields::acceleration_fields(w)?;
    Ok(handle_layout(0))
}

// A ray query has the fields of an acceleration structure.
pub fn ray_query_layout(w: Words) -> Result<TypeLayout, TypeRefusal>
    ensures { (m n i : ℕ) (layouts : ℕ → layout.TypeLayout) (members : List ℕ)
        → judged result ≡ words_layout m n layouts i ray_query_kind w.a w.b w.c w.d w.e members }
{
    ir_fields::acceleration_fields(w)?;
    Ok(handle_layout(0))
}

pub fn binding_array_layout(types: &[u32], w: Words) -> Result<TypeLayout, TypeRefusal>
    ensures { (m i : ℕ) (layouts : ℕ → layout.TypeLayout) (members : List ℕ)
        → judged result ≡ words_layout m (type_count types.now) layouts i binding_array_kind w.a w.b w.c w.d w.e members }
{
    ir_fields::binding_array_fields(w)?;
    ir_fields::base_within(types, w.a)?;
    Ok(handle_layout(0))
}

// The size is tried before the reference.
// Kept: `rows`, `i`, `w`: any rows will do, as for `proc_type_alignment::base_alignment`; with an Earlier this would ask more of a caller.
pub fn array_record(rows: &[u32], i: u32, w: Words) -> Result<TypeLayout, TypeRefusal>
    ensures { (m n : ℕ) (members : List ℕ) → judged result ≡ words_layout m n (layouts_in rows.now) i array_kind w.a w.b w.c w.d w.e members }
{
    ir_fields::array_fields(w)?;
    let size = proc_type_methods::size_by_count(w.array_size(), w.d).ok_or(TypeRefusal::of(
        Fault::TooLarge,
    ))?;
    let alignment = proc_type_alignment::base_alignment(rows, i, w.a)?;
    Ok(TypeLayout { size, alignment })
}

fn struct_record(members: &[u32], before: Earlier, w: Words) -> Result<TypeLayout, TypeRefusal>
    ensures { (n : ℕ) → judged result ≡
        require (sources_located (take (w.b * member_words) (drop (w.a * member_words) members.now))) 2 0 0
        (words_layout (member_count members.now) n (layouts_in before.entry.rows.now) before.entry.i struct_kind w.a w.b w.c w.d w.e
        (take (w.b * member_words) (drop (w.a * member_words) members.now))) }
{
    ir_fields::struct_fields(ir_records::member_count(members), w)?;
    let part = ir_records::member_part(members, w.a, w.b);
    let located = proc_type_alignment::members_alignment(before, part)?;
    Ok(TypeLayout {
        size: w.c,
        alignment: located.alignment,
    })
}

// Numbers 2 to 7 of a type, or its layout, from the rows of the types before it: one choice by the kind.
pub fn layout_of(types: &[u32], members: &[u32], before: Earlier) -> Result<TypeLayout, TypeRefusal>
    requires { before.i * 6 + 6 ≤ length types.now }
    ensures { judged result ≡ record_layout types.now members.now (layouts_in before.entry.rows.now) before.entry.i }
{
    let w = ir_records::own_record(types, before.i);
    match Kind::try_from(w.kind)? {
        Kind::Scalar => scalar_layout(w),
        Kind::Vector => vector_layout(w),
        Kind::Matrix => matrix_layout(w),
        Kind::CooperativeMatrix => cooperative_layout(w),
        Kind::Atomic => scalar_layout(w),
        Kind::Pointer => pointer_layout(types, w),
        Kind::ValuePointer => value_pointer_layout(w),
        Kind::Array => array_record(before.rows, before.i, w),
        Kind::Struct => struct_record(members, before, w),
        Kind::Image => image_layout(w),
        Kind::Sampler => sampler_layout(w),
        Kind::AccelerationStructure => acceleration_layout(w),
        Kind::RayQuery => ray_query_layout(w),
        Kind::BindingArray => binding_array_layout(types, w),
    }
}
