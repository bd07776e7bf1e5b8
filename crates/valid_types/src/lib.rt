// validate_type of naga's valid/type.rs: the row of one type that is no struct. Numbers 2 to 7 of its record come first, as Layouter::update
// has them, in the same choice by its kind.
#![tactic(auto)]

ghost use Rattle.std.specs.Prelude.{◌≡◌, List, ℕ, ◌+◌, ◌*◌, ◌≤◌, length, take};
ghost use Rattle.ir_records.specs.Kinds.{kind_number};
ghost use Rattle.ir_records.specs.Record.{scalar_kind, vector_kind, matrix_kind, cooperative_matrix_kind, atomic_kind, pointer_kind};
ghost use Rattle.ir_records.specs.Record.{value_pointer_kind, array_kind, struct_kind, image_kind, sampler_kind, acceleration_structure_kind};
ghost use Rattle.ir_records.specs.Record.{ray_query_kind, binding_array_kind, type_count, type_inner};
ghost use Rattle.ir_records.specs.declared.TypeInner as inner;
ghost use Rattle.valid_flags.specs.Flags.{starting_flags, scalar_flags};
ghost use Rattle.valid_width.specs.Width.{check_width};
ghost use Rattle.ir_records.specs.Refusal.{judged};
ghost use Rattle.valid_type_flags.specs.TypeFlags.{with_width};
ghost use Rattle.valid_type_info.specs.TypeInfo.{rows_in};
ghost use Rattle.valid_types.specs.Serving.{array_of, words_row, RowIn, RowTold, Settled};

use ir_records::{Fault, Kind, TypeRefusal, Words};
use proc_type_alignment::TypeLayout;
use valid_type_info::Row;

// The row of a type that is neither array nor struct: both verdicts are Ok with one alignment.
#[derive(Clone, Copy, Debug, PartialEq, Eq)]
pub struct PlainRow {
    pub layout: TypeLayout,
    pub flags: u32,
    pub verdict: u32,
    pub immediates: u32,
}

// Of a type without a width: its alignment is 1.
fn handle(layout: TypeLayout, flags: u32) -> PlainRow
    ensures { result ≡ record { layout = layout; flags = flags; verdict = 1; immediates = 0 } }
{
    PlainRow {
        layout,
        flags,
        verdict: 1,
        immediates: 0,
    }
}

/// The flags of a scalar or a vector: those of its kind, as far as its scalar has them.
pub fn numeric_flags(
    capabilities: u32,
    kind: Kind,
    scalar_kind: u32,
    width: u32,
) -> Result<u32, TypeRefusal>
    ensures { judged result ≡ with_width (check_width capabilities scalar_kind width) (scalar_flags scalar_kind (starting_flags (kind_number kind))) }
{
    valid_width::check_width(capabilities, scalar_kind, width)?;
    Ok(valid_flags::scalar_flags(scalar_kind, valid_flags::starting_flags(kind)))
}

// By its kind, a record with the words w: numbers 2 to 7, then those of the flags.
fn scalar_row(capabilities: u32, w: Words) -> Result<PlainRow, TypeRefusal>
    ensures { RowTold result capabilities scalar_kind w }
{
    let layout = proc_type_layout::scalar_layout(w)?;
    let flags = numeric_flags(capabilities, Kind::Scalar, w.a, w.b)?;
    Ok(PlainRow {
        layout,
        flags,
        verdict: w.b,
        immediates: valid_width::immediates_word(w.a, w.b),
    })
}

fn vector_row(capabilities: u32, w: Words) -> Result<PlainRow, TypeRefusal>
    ensures { RowTold result capabilities vector_kind w }
{
    let layout = proc_type_layout::vector_layout(w)?;
    let flags = numeric_flags(capabilities, Kind::Vector, w.b, w.c)?;
    Ok(PlainRow {
        layout,
        flags,
        verdict: layout.alignment,
        immediates: valid_width::immediates_word(w.b, w.c),
    })
}

fn matrix_row(capabilities: u32, w: Words) -> Result<PlainRow, TypeRefusal>
    ensures { RowTold result capabilities matrix_kind w }
{
    let layout = proc_type_layout::matrix_layout(w)?;
    let flags = valid_type_flags::matrix_flags(capabilities, w.c, w.d)?;
    Ok(PlainRow {
        layout,
        flags,
        verdict: layout.alignment,
        immediates: valid_width::immediates_word(w.c, w.d),
    })
}

// The alignment in the verdicts is that of the width, and not that of the layout.
// Kept: alike in form to atomics, but laid out and flagged by the functions of its kind (other fields, another capability): only closures could share it.
fn cooperative_row(capabilities: u32, w: Words) -> Result<PlainRow, TypeRefusal>
    ensures { RowTold result capabilities cooperative_matrix_kind w }
{
    let layout = proc_type_layout::cooperative_layout(w)?;
    let flags = valid_type_flags::cooperative_flags(capabilities, w.c, w.d)?;
    Ok(PlainRow {
        layout,
        flags,
        verdict: w.d,
        immediates: 0,
    })
}

// An atomic has the layout of its scalar.
fn atomic_row(capabilities: u32, w: Words) -> Result<PlainRow, TypeRefusal>
    ensures { RowTold result capabilities atomic_kind w }
{
    let layout = proc_type_layout::scalar_layout(w)?;
    let flags = valid_type_flags::atomic_flags(capabilities, w.a, w.b)?;
    Ok(PlainRow {
        layout,
        flags,
        verdict: w.b,
        immediates: 0,
    })
}

fn pointer_row(types: &[u32], rows: &[u32], w: Words) -> Result<PlainRow, TypeRefusal>
    ensures { (k : ℕ) → RowIn result k (type_count types.now) (type_inner types.now) rows.now pointer_kind w }
{
    let layout = proc_type_layout::pointer_layout(types, w)?;
    let base = ir_rows::row_word(rows, w.a, ir_rows::FLAGS as u32);
    let flags = valid_type_flags::pointer_to(base, w.b)?;
    Ok(handle(layout, flags))
}

// Kept: value pointers and images, and below acceleration structures and ray queries, are alike in form; each is laid out and flagged by its kind's
// functions, and its contract names the kind. One function would be handed both as closures, and its contract would have to say both of theirs again.
fn value_pointer_row(capabilities: u32, w: Words) -> Result<PlainRow, TypeRefusal>
    ensures { RowTold result capabilities value_pointer_kind w }
{
    let layout = proc_type_layout::value_pointer_layout(w)?;
    let flags = valid_type_flags::value_pointer_flags(capabilities, w.a, w.b, w.c)?;
    Ok(handle(layout, flags))
}

fn image_row(capabilities: u32, w: Words) -> Result<PlainRow, TypeRefusal>
    ensures { RowTold result capabilities image_kind w }
{
    let layout = proc_type_layout::image_layout(w)?;
    let flags = valid_type_flags::image_flags(capabilities, w.a, w.b, w.c)?;
    Ok(handle(layout, flags))
}

fn sampler_row(w: Words) -> Result<PlainRow, TypeRefusal>
    ensures { (k : ℕ) → RowTold result k sampler_kind w }
{
    let layout = proc_type_layout::sampler_layout(w)?;
    Ok(handle(layout, valid_flags::starting_flags(Kind::Sampler)))
}

// Kept: as value pointers: each by its kind's functions; a ray query asks for another capability, and is data.
fn acceleration_row(capabilities: u32, w: Words) -> Result<PlainRow, TypeRefusal>
    ensures { RowTold result capabilities acceleration_structure_kind w }
{
    let layout = proc_type_layout::acceleration_layout(w)?;
    let flags = valid_type_flags::acceleration_flags(capabilities, w.a)?;
    Ok(handle(layout, flags))
}

fn ray_query_row(capabilities: u32, w: Words) -> Result<PlainRow, TypeRefusal>
    ensures { RowTold result capabilities ray_query_kind w }
{
    let layout = proc_type_layout::ray_query_layout(w)?;
    let flags = valid_type_flags::ray_query_flags(capabilities, w.a)?;
    Ok(handle(layout, flags))
}

fn binding_array_row(types: &[u32], rows: &[u32], w: Words) -> Result<PlainRow, TypeRefusal>
    ensures { (k : ℕ) → RowIn result k (type_count types.now) (type_inner types.now) rows.now binding_array_kind w }
{
    let layout = proc_type_layout::binding_array_layout(types, w)?;
    let base = ir_rows::row_word(rows, w.a, ir_rows::FLAGS as u32);
    let flags = valid_type_flags::binding_array_of(types, w.a, base, w.array_size())?;
    Ok(handle(layout, flags))
}

// A type whose record has the words w and is neither array nor struct.
fn judge_plain(
    capabilities: u32,
    types: &[u32],
    rows: &[u32],
    w: Words,
) -> Result<PlainRow, TypeRefusal>
    requires fact { w.kind ≡ array_kind → ⊥ }
    requires fact_2 { w.kind ≡ struct_kind → ⊥ }
    ensures { RowIn result capabilities (type_count types.now) (type_inner types.now) rows.now w.kind w }
{
    match Kind::try_from(w.kind)? {
        Kind::Scalar => scalar_row(capabilities, w),
        Kind::Vector => vector_row(capabilities, w),
        Kind::Matrix => matrix_row(capabilities, w),
        Kind::CooperativeMatrix => cooperative_row(capabilities, w),
        Kind::Atomic => atomic_row(capabilities, w),
        Kind::Pointer => pointer_row(types, rows, w),
        Kind::ValuePointer => value_pointer_row(capabilities, w),
        Kind::Image => image_row(capabilities, w),
        Kind::Sampler => sampler_row(w),
        Kind::AccelerationStructure => acceleration_row(capabilities, w),
        Kind::RayQuery => ray_query_row(capabilities, w),
        Kind::BindingArray => binding_array_row(types, rows, w),
        // The caller has taken these.
        Kind::Array | Kind::Struct => unreachable!(),
    }
}

// Kept: `rows`, `i`, `w`: the rows are lent with `&mut`; a struct of the three would be lent in turn, and each contract say what it leaves of each.
// Of type i, which is neither array nor struct: numbers 2 to 7 and then its row, which is written where there is one.
pub fn plain_row(
    capabilities: u32,
    types: &[u32],
    rows: &mut [u32],
    i: u32,
    w: Words,
) -> Result<(), TypeRefusal>
    requires i_in_bounds { i * 14 + 14 ≤ length rows.old }
    requires fact { w.kind ≡ array_kind → ⊥ }
    requires fact_2 { w.kind ≡ struct_kind → ⊥ }
    ensures { (least m : ℕ) (members : List ℕ)
        → Settled result (i * 14) rows.old rows.new
        (words_row least capabilities m (type_count types.now) (type_inner types.now) (take (i * 14) rows.old) i w.kind w.a w.b w.c w.d w.e members) }
{
    let at = (i as usize) * ir_records::ROW_WORDS;
    let row = judge_plain(capabilities, types, &rows[..at], w)?;
    let both = valid_type_info::ok_verdict(row.verdict);
    valid_type_rows::put(
        rows,
        i,
        Row {
            size: row.layout.size,
            alignment: row.layout.alignment,
            flags: row.flags,
            uniform: both,
            storage: both,
            immediates: row.immediates,
        },
    );
    Ok(())
}

// The row of array i, a record with these words, by its layout; `least` is the minimum alignment in its uniform verdict.
fn array_over(
    least: u32,
    rows: &mut [u32],
    i: u32,
    w: Words,
    layout: TypeLayout,
) -> Result<(), TypeRefusal>
    requires { i * 14 + 14 ≤ length rows.old }
    ensures { Settled result (i * 14) rows.old rows.new (array_of least w.b i w.d (rows_in (take (i * 14) rows.old) w.a) layout) }
{
    let at = (i as usize) * ir_records::ROW_WORDS;
    let element = valid_type_rows::row_at(&rows[..at], w.a);
    if !valid_flags::is_sized_data(element.flags) {
        return Err(TypeRefusal::of(Fault::InvalidArrayBaseType));
    }
    let alignment = element.alignment;
    let uniform = valid_type_info::array_verdict(least, i, w.d, alignment, element.uniform);
    let storage = valid_type_info::array_verdict(
        valid_type_info::MIN_STORAGE,
        i,
        w.d,
        alignment,
        element.storage,
    );
    let flags = valid_flags::flags_over_base(Kind::Array, w.array_size(), element.flags);
    valid_type_rows::put(
        rows,
        i,
        Row {
            size: layout.size,
            alignment: layout.alignment,
            flags,
            uniform,
            storage,
            immediates: element.immediates,
        },
    );
    Ok(())
}

// The same of an array, with numbers 2 to 7 before it.
pub fn array_row(least: u32, rows: &mut [u32], i: u32, w: Words) -> Result<(), TypeRefusal>
    requires { i * 14 + 14 ≤ length rows.old }
    ensures { (c m n : ℕ) (inner : ℕ → inner.TypeInner) (members : List ℕ)
        → Settled result (i * 14) rows.old rows.new (words_row least c m n inner (take (i * 14) rows.old) i array_kind w.a w.b w.c w.d w.e members) }
{
    let at = (i as usize) * ir_records::ROW_WORDS;
    let layout = proc_type_layout::array_record(&rows[..at], i, w)?;
    array_over(least, rows, i, w, layout)
}
