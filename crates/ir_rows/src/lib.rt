// The lent result rows: fourteen words a type.
#![tactic(auto)]

ghost use Rattle.std.specs.Prelude.{◌≡◌, ◌+◌, ◌*◌, ◌≤◌, ◌<◌, length, take};
ghost use Rattle.ir_rows.specs.Rows.{row_word, layout_row, cleared};
ghost use Rattle.ir_rows.specs.Serving.{with_row};

use ir_records::ROW_WORDS;

// The words of a row. A verdict has five words: its code, and next, where that is 0, its alignment.
pub const SIZE: usize = 0;

pub const ALIGNMENT: usize = 1;

pub const FLAGS: usize = 2;

pub const UNIFORM: usize = 3;

pub const UNIFORM_ALIGNMENT: usize = 4;

pub const STORAGE: usize = 8;

pub const STORAGE_ALIGNMENT: usize = 9;

pub const IMMEDIATES: usize = 13;

// Word j of row k; 0 past the rows.
// Kept: one line over `ir_records::table_word`: a caller that gave the width could give that of another table.
pub fn row_word(rows: &[u32], k: u32, j: u32) -> u32
    ensures { result ≡ row_word rows.now k j }
{
    ir_records::table_word(rows, ROW_WORDS as u32, k, j)
}

// The same of a row that stands there.
// Kept: as row_word.
pub fn own_word(rows: &[u32], k: u32, j: usize) -> u32
    requires { k * 14 + j < length rows.now }
    ensures { result ≡ row_word rows.now k j }
{
    ir_records::own_table_word(rows, ROW_WORDS, k, j)
}

/// The rows of the types before type i.
#[derive(Clone, Copy, Debug, PartialEq, Eq)]
pub struct Earlier<'a> {
    pub rows: &'a [u32],
    pub i: u32,
    pub ghost laid: { length rows.now ≡ i * 14 },
}

impl<'a> Earlier<'a> {
    /// The first i of the rows.
    pub fn of(rows: &'a [u32], i: u32) -> Earlier<'a>
        requires { i * 14 ≤ length rows.now }
        ensures rows { result.rows.now ≡ take (i * 14) rows.now }
        ensures i { result.i ≡ i }
    {
        Earlier {
            rows: &rows[..(i as usize) * ROW_WORDS],
            i,
        }
    }

    /// Word j of the row of type k, which is one of them.
    pub fn word(self, k: u32, j: usize) -> u32
        requires of_these { k < self.i }
        requires in_row { j < 14 }
        ensures { result ≡ row_word self.entry.rows.now k j }
    {
        own_word(self.rows, k, j)
    }
}

// Zeroes the first n words.
// Kept: n beside the words: what is left of the rest is proved here once for its callers; where the first n alone are lent, as to `fill`, each proves it.
pub fn clear(rows: &mut [u32], n: usize)
    requires { n ≤ length rows.old }
    ensures { rows.new ≡ cleared rows.old n }
{
    rows[..n].fill(0);
}

// Writes the words of one row from `at` on.
// Kept: a loop: by `copy_from_slice` a program that writes rows alone takes 1.3 times as long.
pub fn put_row(rows: &mut [u32], at: usize, row: &[u32; 14])
    requires { at + 14 ≤ length rows.old }
    ensures { rows.new ≡ with_row rows.old at row.now }
{
    for j in 0..ROW_WORDS {
        rows[at + j] = row[j];
    }
}

// Writes the row of a type that has a layout and no judgement yet.
pub fn put_layout(rows: &mut [u32], at: usize, size: u32, alignment: u32)
    requires { at + 14 ≤ length rows.old }
    ensures { rows.new ≡ with_row rows.old at (layout_row size alignment) }
{
    let row = [size, alignment, 0, 0, 0, 0, 0, 0, 0, 0, 0, 0, 0, 0];
    put_row(rows, at, &row);
}
