// The alignment of one type, from the rows of the types before it, as in Layouter::update of naga's proc/layouter.rs; numbers 5 to 7.
#![tactic(auto)]

ghost use Rattle.std.specs.Prelude.{Err, ◌≡◌, ◌*◌, ◌≤◌, length};
ghost use Rattle.ir_records.specs.Result.{err, ok, require};
ghost use Rattle.ir_records.specs.Record.{member_words, member_count, Sourceless};
ghost use Rattle.ir_records.specs.Fields.{sources_located};
ghost use Rattle.proc_type_alignment.specs.TypeAlignment.{width_alignment, base_alignment};
ghost use Rattle.ir_records.specs.Refusal.{judged};
ghost use Rattle.proc_type_alignment.specs.Serving.{struct_alignment, layouts_in, located_result, SourcesTold};

use ir_records::{Fault, Members, TypeRefusal};
use ir_rows::Earlier;

// naga's TypeLayout.
#[derive(Clone, Copy, Debug, PartialEq, Eq)]
pub struct TypeLayout {
    pub size: u32,
    pub alignment: u32,
}

// Of a struct; whether one of its members has a blend source.
#[derive(Clone, Copy, Debug, PartialEq, Eq)]
pub struct Located {
    pub alignment: u32,
    pub sourced: bool,
}

// Number 7 for a width that is no power of two.
// Kept: `width ≤ 255`: as in proc_type_methods.
pub fn leaf_alignment(factor: u32, width: u32) -> Result<u32, TypeRefusal>
    requires factor_bound { factor ≤ 16 }
    requires width_bound { width ≤ 255 }
    ensures { judged result ≡ width_alignment factor width }
{
    if proc_alignment::power_of_two(width) {
        Ok(factor * width)
    } else {
        Err(TypeRefusal::of(Fault::NonPowerOfTwoWidth))
    }
}

// Number 5 for an element that is no earlier type.
// Kept: `rows`, `i`: any rows will do; an Earlier, which its callers could make, says that they end before type i, and would ask that of every caller.
pub fn base_alignment(rows: &[u32], i: u32, base: u32) -> Result<u32, TypeRefusal>
    ensures { judged result ≡ base_alignment (layouts_in rows.now) i base }
{
    if base < i {
        Ok(ir_rows::row_word(rows, base, ir_rows::ALIGNMENT as u32))
    } else {
        Err(TypeRefusal::of(Fault::InvalidArrayElementType))
    }
}

// Number 6 of member j, or number 2 of the rows, which comes first.
fn late_member(part: &[u32], j: u32) -> TypeRefusal
    ensures { located_result (Err result) ≡ require (sources_located part.now) 2 0 0 (err 6 j 0) }
{
    if ir_records::sources_located(part) {
        TypeRefusal::of_member(Fault::InvalidStructMemberType, j)
    } else {
        TypeRefusal::of(Fault::FieldOutside)
    }
}

// The alignment, or number 2 of the rows. sources: the words of all blend sources in one.
fn with_sources(part: &[u32], sources: u32, alignment: u32) -> Result<Located, TypeRefusal>
    requires { sources ≡ 0 → Sourceless part.now (member_count part.now) }
    ensures result_value { located_result result ≡ require (sources_located part.now) 2 0 0 (ok alignment) }
    ensures sources_told { SourcesTold part.now result }
{
    if sources == 0 {
        return Ok(Located {
            alignment,
            sourced: false,
        });
    }
    if ir_records::sources_located(part) {
        return Ok(Located {
            alignment,
            sourced: true,
        });
    }
    Err(TypeRefusal::of(Fault::FieldOutside))
}

// The largest alignment of a struct's members; number 2 for a blend source without a location, then 6 for a member that is no earlier type.
// The rows are read again for 2 only where one has a blend source, or for a refusal.
// Inlined: as a call of its own, whose result goes through memory, laying out small structs took 1.8 times as long.
#[inline(always)]
pub fn members_alignment(before: Earlier, part: Members) -> Result<Located, TypeRefusal>
    ensures result_value { located_result result ≡ struct_alignment (layouts_in before.entry.rows.now) before.entry.i part.entry.words.now part.entry.count }
    ensures sources_told { SourcesTold part.entry.words.now result }
{
    let mut a: u32 = 1;
    let mut sources: u32 = 0;
    for j in 0..part.count {
        let ty = part.type_of(j);
        if before.i <= ty {
            return Err(late_member(part.words, j));
        }
        a = a.max(before.word(ty, ir_rows::ALIGNMENT));
        sources |= part.source_of(j);
    }
    with_sources(part.words, sources, a)
}
