// Layouts: Layouter::update of naga's proc/layouter.rs, over lent rows.
// Kept: `rows`, `n`: the caller may lend rows for more types than there are, and gets the rest back as it was.
// Kept: `n ≡ type_count types.now`: without n layout_tables and layout_all would each work it out of the table again, and prove again that it fits 32
// bits.
// Kept: `types`, `members`, `rows`, `i`: the tables that a caller lends, and the type whose row is made; as in ir_records.
// Kept: `i * 6 + 6 ≤ length types.now`, `n * 14 ≤ length rows.old`: that there is a record and a row for each type, which tables_fit tells once a call;
// the rows are lent with `&mut`, so that no struct that says so can outlive the write of one row.
// Kept: `i * 14 + 14 ≤ length rows.old`: of rows that each type writes in turn. With `split_at_mut` a function would be lent the rows before its type
// and its own row, and each caller would have to put together what is said of both.
#![tactic(auto)]

ghost use Rattle.std.specs.Prelude.{◌≡◌, ◌+◌, ◌*◌, ◌≤◌, ◌<◌, length, take};
ghost use Rattle.ir_records.specs.Record.{type_count};
ghost use Rattle.ir_records.specs.Table.{first_refusal};
ghost use Rattle.proc_type_alignment.specs.Serving.{layouts_in};
ghost use Rattle.ir_records.specs.Refusal.{judged, outcome_of};
ghost use Rattle.proc_type_layout.specs.Serving.{record_layout};
ghost use Rattle.proc_layouter.specs.LentRows.{rows_after};
ghost use Rattle.proc_layouter.specs.Layouter.{layout_rows, layout_outcome, layout_answer, layout_words};
ghost use Rattle.proc_layouter.specs.Serving.{words_after, record_then_layout};

use ir_records::{Refusal, TypeRefusal};
use ir_rows::Earlier;
use proc_type_alignment::TypeLayout;

// Numbers 2 to 7 of type i, or its layout, which is written into its row.
fn layout_at(
    types: &[u32],
    members: &[u32],
    rows: &mut [u32],
    i: u32,
) -> Result<TypeLayout, TypeRefusal>
    requires i_in_bounds { i * 14 + 14 ≤ length rows.old }
    requires i_in_bounds_2 { i * 6 + 6 ≤ length types.now }
    ensures result_value { judged result ≡ record_layout types.now members.now (layouts_in (take (i * 14) rows.old)) i }
    ensures rows_after { rows.new ≡ words_after (judged result) (i * 14) rows.old }
{
    let layout = proc_type_layout::layout_of(types, members, Earlier::of(rows, i))?;
    let at = (i as usize) * ir_records::ROW_WORDS;
    ir_rows::put_layout(rows, at, layout.size, layout.alignment);
    Ok(layout)
}

// Numbers 2 to 7 type by type, over n types; the rows of all, or zeros.
fn layout_all(types: &[u32], members: &[u32], rows: &mut [u32], n: u32) -> Result<(), Refusal>
    requires n_in_bounds { n * 14 ≤ length rows.old }
    requires n_in_bounds_2 { n * 6 ≤ length types.now }
    ensures value { outcome_of result ≡ first_refusal (record_then_layout types.now members.now) n }
    ensures rows_after { rows.new ≡ rows_after (outcome_of result) (layout_rows types.now members.now n) n rows.old }
{
    for i in 0..n {
        if let Err(refusal) = layout_at(types, members, rows, i) {
            let words = (n as usize) * ir_records::ROW_WORDS;
            ir_rows::clear(rows, words);
            return Err(refusal.at(i));
        }
    }
    Ok(())
}

// Numbers 2 to 7, once the tables are known to fit. Numbers 2 and 3 of all records come before 4 to 7 of any.
fn layout_tables(types: &[u32], members: &[u32], rows: &mut [u32], n: u32) -> Result<(), Refusal>
    requires n_in_bounds { n * 14 ≤ length rows.old }
    requires n_value { n ≡ type_count types.now }
    ensures value { outcome_of result ≡ layout_outcome types.now members.now }
    ensures rows_after { rows.new ≡ rows_after (outcome_of result) (layout_rows types.now members.now n) n rows.old }
{
    let found = layout_all(types, members, rows, n);
    if found.is_err() {
        ir_fields::records_ok(types, members, n)?;
    }
    found
}

// Sizes and alignments of all types of an arena, in words 0 and 1 of the lent rows. Nothing is asked of the caller.
pub fn layout(types: &[u32], members: &[u32], rows: &mut [u32]) -> Result<(), Refusal>
    ensures value { outcome_of result ≡ layout_answer types.now members.now rows.old }
    ensures rows_after { rows.new ≡ layout_words types.now members.now rows.old }
{
    ir_records::tables_fit(types.len(), members.len(), rows.len())?;
    let n = ir_records::type_count(types) as u32;
    layout_tables(types, members, rows, n)
}
