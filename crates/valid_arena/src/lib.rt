// Judging an arena, the types in order, as Validator::validate of naga's valid/mod.rs has those of a module; and the arena check, which lays out
// and then judges.
// Kept: `types`, `members`, `rows`: the tables that a caller lends, as in ir_records.
// Kept: `n ≡ type_count types.now`, `n * 14 ≤ length rows.old`: as in proc_layouter.
// Kept: `rows`, `n`: the caller may lend rows for more types than there are, and gets the rest back as it was.
#![tactic(auto)]

ghost use Rattle.ir_records.specs.Refusal.{outcome_of, refused_by};
ghost use Rattle.std.specs.Prelude.{◌≡◌, true, ◌*◌, ◌≤◌, length, take, drop};
ghost use Rattle.ir_records.specs.Record.{type_count};
ghost use Rattle.ir_records.specs.Fields.{tables_fit};
ghost use Rattle.ir_records.specs.Table.{also, first_refusal, flat};
ghost use Rattle.ir_records.specs.Outcome.{Accepted};
ghost use Rattle.ir_rows.specs.Rows.{cleared};
ghost use Rattle.proc_layouter.specs.LentRows.{rows_after};
ghost use Rattle.proc_layouter.specs.Layouter.{layout_outcome};
ghost use Rattle.valid_type_info.specs.Verdict.{least_for};
ghost use Rattle.valid_arena.specs.Arena.{row_at, arena_outcome, arena_rows, arena_answer, arena_words};
ghost use Rattle.valid_arena.specs.Serving.{laid_then_judged};

use ir_records::Refusal;
use valid_type_info::UniformRule;

// Numbers 2 to 7 and then the row, type by type, over n types, up to the first refusal. Each row is made from those that this loop has written.
fn judge_all(
    capabilities: u32,
    rule: UniformRule,
    types: &[u32],
    members: &[u32],
    rows: &mut [u32],
    n: u32,
) -> Result<(), Refusal>
    requires n_in_bounds { n * 14 ≤ length rows.old }
    requires n_in_bounds_2 { n * 6 ≤ length types.now }
    ensures value { outcome_of result ≡ first_refusal (laid_then_judged (least_for rule) capabilities types.now members.now) n }
    ensures rows_after { outcome_of result ≡ Accepted → take (n * 14) rows.new ≡ flat (row_at (least_for rule) capabilities types.now members.now) n }
    ensures rows_unchanged { drop (n * 14) rows.new ≡ drop (n * 14) rows.old }
{
    for i in 0..n {
        let judged = valid_structs::record_row(capabilities, rule, types, members, rows, i);
        ir_records::at_type(judged, i)?;
    }
    Ok(())
}

// Where type by type a refusal was found: 2 to 7 of any type come before it. The rows are zeroed.
fn refused(types: &[u32], members: &[u32], rows: &mut [u32], n: u32, found: Refusal) -> Refusal
    requires n_value { n ≡ type_count types.now }
    requires rows_value { tables_fit (length types.now) (length members.now) (length rows.old) ≡ true }
    ensures value { refused_by result ≡ also (layout_outcome types.now members.now) (refused_by found) }
    ensures rows_after { rows.new ≡ cleared rows.old (n * 14) }
{
    match proc_layouter::layout(types, members, rows) {
        Ok(()) => {
            let words = (n as usize) * ir_records::ROW_WORDS;
            ir_rows::clear(rows, words);
            found
        }
        Err(first) => first,
    }
}

// Judging, once tables and capabilities are in order.
fn judge_tables(
    capabilities: u32,
    rule: UniformRule,
    types: &[u32],
    members: &[u32],
    rows: &mut [u32],
    n: u32,
) -> Result<(), Refusal>
    requires n_value { n ≡ type_count types.now }
    requires rows_value { tables_fit (length types.now) (length members.now) (length rows.old) ≡ true }
    ensures value { outcome_of result ≡ arena_outcome capabilities types.now members.now }
    ensures rows_after { rows.new ≡ rows_after (outcome_of result) (arena_rows rule capabilities types.now members.now n) n rows.old }
{
    // Kept: no `map_err`, whose contract says what its closure answers and not what it writes; this one writes the rows.
    if let Err(found) = judge_all(capabilities, rule, types, members, rows, n) {
        return Err(refused(types, members, rows, n, found));
    }
    Ok(())
}

// Kept: `capabilities`, `rule`: two parameters of the calls: they are only handed on together, and part below, where the layout needs neither,
// plain types the capabilities alone, and verdicts the rule alone.
// Judging: the answer, and the rows of all types in the lent words, whatever these hold: none of them is read before it is written. Nothing is
// asked of the caller.
pub fn judge(
    types: &[u32],
    members: &[u32],
    capabilities: u32,
    rule: UniformRule,
    rows: &mut [u32],
) -> Result<(), Refusal>
    ensures value { outcome_of result ≡ arena_answer capabilities types.now members.now rows.old }
    ensures rows_after { rows.new ≡ arena_words rule capabilities types.now members.now rows.old }
{
    ir_records::capabilities_known(capabilities)?;
    ir_records::tables_fit(types.len(), members.len(), rows.len())?;
    let n = ir_records::type_count(types) as u32;
    judge_tables(capabilities, rule, types, members, rows, n)
}

// The arena check: the capability word is tested, the arena laid out, and what that left judged. Nothing is asked of the caller.
pub fn check(
    types: &[u32],
    members: &[u32],
    capabilities: u32,
    rule: UniformRule,
    rows: &mut [u32],
) -> Result<(), Refusal>
    ensures value { outcome_of result ≡ arena_answer capabilities types.now members.now rows.old }
    ensures rows_after { rows.new ≡ arena_words rule capabilities types.now members.now rows.old }
{
    ir_records::capabilities_known(capabilities)?; // Laying out asks for no capability word.
    proc_layouter::layout(types, members, rows)?;
    judge(types, members, capabilities, rule, rows)
}
