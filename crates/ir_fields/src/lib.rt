// Refusals 2 and 3: the sets that the fields of a type record lie in.
// Kept: `types`, `members`, `i`: a struct of both tables and a type's number would be made by records_ok for each type, for fields_at and record_at alone.
#![tactic(auto, unfolding(ir_records::specs::Fields::fields_ok))]

ghost use Rattle.std.specs.Prelude.{◌≡◌, ◌&&◌, ℕ, ◌+◌, ◌*◌, ◌/◌, ◌≤◌, ◌<◌, ltb};
ghost use Rattle.ir_records.specs.Record.{type_count, scalar_kind, vector_kind, matrix_kind, cooperative_matrix_kind, pointer_kind, value_pointer_kind};
ghost use Rattle.ir_records.specs.Record.{array_kind, struct_kind, image_kind, sampler_kind, acceleration_structure_kind, binding_array_kind};
ghost use Rattle.ir_records.specs.Fields.{vector_size_ok, cooperative_size_ok, array_size_ok, fields_ok, fields_at, record_at};
ghost use Rattle.ir_records.specs.Table.{first_refusal};
ghost use Rattle.ir_records.specs.Result.{ok, require};
ghost use Rattle.ir_records.specs.Refusal.{judged, outcome_of};
ghost use Rattle.ir_fields.specs.Serving.{FieldsTold};

use ir_records::{Fault, Kind, Refusal, TypeRefusal, Words};

// The sets, by their largest number.
// Kept: numbers, as the definitions have them: `ScalarKind::try_from` would say the same of one word; AddressSpace, ImageDimension and ImageClass stand
// in crates of the rules, of which this one uses nothing; and widths, roles and flags have no enum.
const MOST_SCALAR_KIND: u32 = 5;

const MOST_WIDTH: u32 = 255;

const MOST_SPACE: u32 = 9;

const MOST_DIM: u32 = 3;

const MOST_CLASS: u32 = 3;

const MOST_ROLE: u32 = 2;

// Number 2 where the fields do not lie in their sets.
#[tactic(auto)]
fn within(fit: bool) -> Result<(), TypeRefusal>
    ensures { FieldsTold result fit }
{
    ir_records::require(fit, TypeRefusal::of(Fault::FieldOutside))
}

// A vector's size, or one of a matrix.
fn vector_size_ok(n: u32) -> bool
    ensures { result ≡ vector_size_ok n }
{
    (2..=4).contains(&n)
}

fn cooperative_size_ok(n: u32) -> bool
    ensures { result ≡ cooperative_size_ok n }
{
    matches!(n, 8 | 16)
}

// Form 0 has a count of at least 1, form 1 none.
fn array_size_ok(form: u32, count: u32) -> bool
    ensures { result ≡ array_size_ok form count }
{
    matches!((form, count), (0, 1..) | (1, 0))
}

// By kind: the words after the kind lie in their sets, and those that it does not name are 0.
// The sets of atomics are the same.
pub fn scalar_fields(w: Words) -> Result<(), TypeRefusal>
    ensures { (m : ℕ) → FieldsTold result (fields_ok m scalar_kind w.a w.b w.c w.d w.e) }
{
    within((w.a <= MOST_SCALAR_KIND) & (w.b <= MOST_WIDTH) & (w.c == 0) & (w.d == 0) & (w.e == 0))
}

pub fn vector_fields(w: Words) -> Result<(), TypeRefusal>
    ensures { (m : ℕ) → FieldsTold result (fields_ok m vector_kind w.a w.b w.c w.d w.e) }
{
    within(
        vector_size_ok(w.a)
            & ((w.b <= MOST_SCALAR_KIND) & (w.c <= MOST_WIDTH))
            & (w.d == 0)
            & (w.e == 0),
    )
}

pub fn matrix_fields(w: Words) -> Result<(), TypeRefusal>
    ensures { (m : ℕ) → FieldsTold result (fields_ok m matrix_kind w.a w.b w.c w.d w.e) }
{
    within(
        vector_size_ok(w.a)
            & vector_size_ok(w.b)
            & ((w.c <= MOST_SCALAR_KIND) & (w.d <= MOST_WIDTH))
            & (w.e == 0),
    )
}

pub fn cooperative_fields(w: Words) -> Result<(), TypeRefusal>
    ensures { (m : ℕ) → FieldsTold result (fields_ok m cooperative_matrix_kind w.a w.b w.c w.d w.e) }
{
    within(
        cooperative_size_ok(w.a)
            & cooperative_size_ok(w.b)
            & ((w.c <= MOST_SCALAR_KIND) & (w.d <= MOST_WIDTH))
            & (w.e <= MOST_ROLE),
    )
}

pub fn pointer_fields(w: Words) -> Result<(), TypeRefusal>
    ensures { (m a : ℕ) → FieldsTold result (fields_ok m pointer_kind a w.b w.c w.d w.e) }
{
    within((w.b <= MOST_SPACE) & (w.c == 0) & (w.d == 0) & (w.e == 0))
}

pub fn value_pointer_fields(w: Words) -> Result<(), TypeRefusal>
    ensures { (m : ℕ) → FieldsTold result (fields_ok m value_pointer_kind w.a w.b w.c w.d w.e) }
{
    within(
        ((w.a <= MOST_SCALAR_KIND) & (w.b <= MOST_WIDTH))
            & (w.c <= MOST_SPACE)
            & (w.d == 0)
            & (w.e == 0),
    )
}

pub fn array_fields(w: Words) -> Result<(), TypeRefusal>
    ensures { (m a d : ℕ) → FieldsTold result (fields_ok m array_kind a w.b w.c d w.e) }
{
    within(array_size_ok(w.b, w.c) & (w.e == 0))
}

// rows: how many rows the member table has.
pub fn struct_fields(rows: usize, w: Words) -> Result<(), TypeRefusal>
    ensures { (c : ℕ) → FieldsTold result (fields_ok rows struct_kind w.a w.b c w.d w.e) }
{
    let last = w.a as usize + w.b as usize;
    within((last <= rows) & (w.d == 0) & (w.e == 0))
}

pub fn image_fields(w: Words) -> Result<(), TypeRefusal>
    ensures { (m : ℕ) → FieldsTold result (fields_ok m image_kind w.a w.b w.c w.d w.e) }
{
    within((w.a <= MOST_DIM) & (w.b <= 1) & (w.c <= MOST_CLASS) & (w.d == 0) & (w.e == 0))
}

pub fn sampler_fields(w: Words) -> Result<(), TypeRefusal>
    ensures { (m : ℕ) → FieldsTold result (fields_ok m sampler_kind w.a w.b w.c w.d w.e) }
{
    within((w.a == 0) & (w.b == 0) & (w.c == 0) & (w.d == 0) & (w.e == 0))
}

// The sets of ray queries are the same.
pub fn acceleration_fields(w: Words) -> Result<(), TypeRefusal>
    ensures { (m : ℕ) → FieldsTold result (fields_ok m acceleration_structure_kind w.a w.b w.c w.d w.e) }
{
    within((w.a <= 1) & (w.b == 0) & (w.c == 0) & (w.d == 0) & (w.e == 0))
}

pub fn binding_array_fields(w: Words) -> Result<(), TypeRefusal>
    ensures { (m a : ℕ) → FieldsTold result (fields_ok m binding_array_kind a w.b w.c w.d w.e) }
{
    within(array_size_ok(w.b, w.c) & (w.d == 0) & (w.e == 0))
}

// Number 2. rows: how many rows the member table has.
#[tactic(auto)]
fn fields_ok(rows: usize, w: Words) -> Result<(), TypeRefusal>
    ensures { FieldsTold result (fields_ok rows w.kind w.a w.b w.c w.d w.e) }
{
    match Kind::try_from(w.kind)? {
        Kind::Scalar => scalar_fields(w),
        Kind::Vector => vector_fields(w),
        Kind::Matrix => matrix_fields(w),
        Kind::CooperativeMatrix => cooperative_fields(w),
        Kind::Atomic => scalar_fields(w),
        Kind::Pointer => pointer_fields(w),
        Kind::ValuePointer => value_pointer_fields(w),
        Kind::Array => array_fields(w),
        Kind::Struct => struct_fields(rows, w),
        Kind::Image => image_fields(w),
        Kind::Sampler => sampler_fields(w),
        Kind::AccelerationStructure => acceleration_fields(w),
        Kind::RayQuery => acceleration_fields(w),
        Kind::BindingArray => binding_array_fields(w),
    }
}

/// Number 3 where the base of a pointer or a binding array is no type of the arena.
#[tactic(auto)]
pub fn base_within(types: &[u32], base: u32) -> Result<(), TypeRefusal>
    ensures { judged result ≡ require (ltb base (type_count types.now)) 3 0 0 (ok tt) }
{
    let fit = (base as usize) < ir_records::type_count(types);
    ir_records::require(fit, TypeRefusal::of(Fault::BaseOutside))
}

// Numbers 2 and 3 of record i by its fields, 2 first.
fn fields_at(types: &[u32], members: &[u32], i: u32) -> Result<(), TypeRefusal>
    ensures { judged result ≡ fields_at types.now members.now i }
{
    let w = ir_records::record_words(types, i);
    fields_ok(ir_records::member_count(members), w)?;
    if w.is(Kind::Pointer) | w.is(Kind::BindingArray) {
        base_within(types, w.a)?;
    }
    Ok(())
}

// The same, and number 2 of a struct's own rows.
fn record_at(types: &[u32], members: &[u32], i: u32) -> Result<(), TypeRefusal>
    ensures { judged result ≡ record_at types.now members.now i }
{
    let part = ir_records::struct_members(types, members, i);
    if !ir_records::sources_located(part) {
        return Err(TypeRefusal::of(Fault::FieldOutside));
    }
    fields_at(types, members, i)
}

// Numbers 2 and 3 over the first n records.
pub fn records_ok(types: &[u32], members: &[u32], n: u32) -> Result<(), Refusal>
    ensures { outcome_of result ≡ first_refusal (record_at types.now members.now) n }
{
    for i in 0..n {
        ir_records::at_type(record_at(types, members, i), i)?;
    }
    Ok(())
}
