// Result rows, read from words and written to them.
#![tactic(auto)]

ghost use Rattle.std.specs.Prelude.{◌≡◌, ◌+◌, ◌*◌, ◌%◌, ◌≤◌, ◌<◌, length};
ghost use Rattle.ir_rows.specs.Serving.{with_row};
ghost use Rattle.valid_type_info.specs.TypeInfo.{words_of, rows_in, empty_row, verdict_in};
ghost use Rattle.valid_type_info.specs.Verdict.{member_verdict};

use valid_type_info::{MemberAt, Row, Verdict};

// A row of zeros, for a type that has none yet.
fn empty_row() -> Row
    ensures { result ≡ empty_row }
{
    Row::default()
}

// The verdict in words w to w + 4 of row k, which stands there.
fn verdict_at(rows: &[u32], k: u32, w: usize) -> Verdict
    requires { k * 14 + (w + 4) < length rows.now }
    ensures { result ≡ verdict_in rows.now k w }
{
    Verdict {
        code: ir_rows::own_word(rows, k, w),
        ty: ir_rows::own_word(rows, k, w + 1),
        index: ir_rows::own_word(rows, k, w + 2),
        value: ir_rows::own_word(rows, k, w + 3),
        bound: ir_rows::own_word(rows, k, w + 4),
    }
}

// Row k of whole rows; zeros past them.
pub fn row_at(rows: &[u32], k: u32) -> Row
    requires { length rows.now % 14 ≡ 0 }
    ensures { result ≡ rows_in rows.now k }
{
    let at = (k as usize) * ir_records::ROW_WORDS;
    if at + ir_records::ROW_WORDS <= rows.len() {
        return Row {
            size: ir_rows::own_word(rows, k, ir_rows::SIZE),
            alignment: ir_rows::own_word(rows, k, ir_rows::ALIGNMENT),
            flags: ir_rows::own_word(rows, k, ir_rows::FLAGS),
            uniform: verdict_at(rows, k, ir_rows::UNIFORM),
            storage: verdict_at(rows, k, ir_rows::STORAGE),
            immediates: ir_rows::own_word(rows, k, ir_rows::IMMEDIATES),
        };
    }
    empty_row()
}

// Writes the row of type i.
// Kept: `i * 14 + 14 ≤ length rows.old`: of rows that each type writes in turn, as in proc_layouter.
pub fn put(rows: &mut [u32], i: u32, row: Row)
    requires { i * 14 + 14 ≤ length rows.old }
    ensures { rows.new ≡ with_row rows.old (i * 14) (words_of row) }
{
    let at = (i as usize) * ir_records::ROW_WORDS;
    let words = [
        row.size,
        row.alignment,
        row.flags,
        row.uniform.code,
        row.uniform.ty,
        row.uniform.index,
        row.uniform.value,
        row.uniform.bound,
        row.storage.code,
        row.storage.ty,
        row.storage.index,
        row.storage.value,
        row.storage.bound,
        row.immediates,
    ];
    ir_rows::put_row(rows, at, &words);
}

// member_verdict of valid_type_info with the verdict in words w to w + 4 of the row of the member's type, read no further than needed.
pub fn member_verdict_at(rows: &[u32], w: usize, m: MemberAt, so_far: Verdict) -> Verdict
    requires { m.t * 14 + (w + 4) < length rows.now }
    ensures { result ≡ member_verdict m.i m.j m.offset so_far (verdict_in rows.now m.t w) }
{
    if !so_far.is_ok() {
        return so_far;
    }
    if ir_rows::own_word(rows, m.t, w) != 0 {
        return verdict_at(rows, m.t, w);
    }
    let alignment = ir_rows::own_word(rows, m.t, w + 1);
    valid_type_info::offset_verdict(m, so_far.ty, alignment)
}
