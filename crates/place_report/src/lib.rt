// The report over an arena: for each host-shareable struct the bytes that leaves carry and the bytes that are wasted. While it is made, the
// bytes that leaves carry of every host-shareable type stand in the lent report, from the first type up, so that a shared struct is counted once.
#![tactic(auto)]

ghost use Rattle.std.specs.Prelude.{◌≡◌, ℕ, ◌+◌, ◌*◌, ◌^◌, ◌≤◌, ◌<◌, length, Some};
ghost use Rattle.ir_records.specs.Record.{type_count, type_inner};
ghost use Rattle.ir_records.specs.Fields.{most_types};
ghost use Rattle.ir_records.specs.Refusal.{outcome_of, LengthsTold};
ghost use Rattle.ir_records.specs.Table.{first_refusal};
ghost use Rattle.ir_records.specs.Serving.{LeafBounds, InnerBounds};
ghost use Rattle.ir_rows.specs.Rows.{row_word, with_part, cleared};
ghost use Rattle.place_carried.specs.Serving.{leaf_carried};
ghost use Rattle.place_report.specs.Report.{report_width};
ghost use Rattle.place_report.specs.Serving.{entry_in, entry_words, array_bytes, members_bytes, leaf_bytes_of, leaf_bytes_at};
ghost use Rattle.place_report.specs.Serving.{RowsOf, narrow_struct, first_pass_words, Carries, counts_of, counts_pair};
ghost use Rattle.place_report.specs.Serving.{AllCarry, totals_in, second_pass_words, fill_answer, fill_words};
ghost use Rattle.place_report.specs.Answer.{report_answer_of};
ghost use Rattle.place_report.specs.Report.{lengths_fit, report_answer, report_rows, report_words};

use ir_records::{Fault, Leaf, Refusal, TypeInner, TypeRefusal};
use valid_type_info::UniformRule;

/// The bytes carried and the bytes wasted, of a struct or of all.
#[derive(Clone, Copy, Debug, Default, PartialEq, Eq)]
pub struct Totals {
    pub carried: u64,
    pub wasted: u64,
}

/// Words of the report a type, and of as many types as there may be.
pub const REPORT_WIDTH: usize = 2;

pub const REPORT_TABLE: usize = ir_records::MOST_TYPES * REPORT_WIDTH;

const SIZE: u32 = ir_rows::SIZE as u32;

const FLAGS: u32 = ir_rows::FLAGS as u32;

// What the first pass left in the report for type k.
// Kept: a word that says whether the one before it counts: there is no heap, so what the first pass finds stands in the lent report.
fn entry(report: &[u64], k: u32) -> Option<u64>
    ensures { result ≡ entry_in report.now k }
{
    let at = (k as usize) * REPORT_WIDTH;
    let mark = ir_records::item_or(report, at + 1, 0);
    (mark == 0).then_some(ir_records::item_or(report, at, 0))
}

// Writes two words of the report from `at` on.
// Kept: `at + 2 ≤ length report.old`: the report is lent with `&mut`; a slice of the two words would be cut by each caller, which would prove what is left.
fn put_pair(report: &mut [u64], at: usize, pair: [u64; 2])
    requires { at + 2 ≤ length report.old }
    ensures { report.new ≡ with_part report_width report.old at pair }
{
    report[at..at + REPORT_WIDTH].copy_from_slice(&pair);
}

// Writes what is kept of a type from `at` on.
fn put_leaf_bytes(report: &mut [u64], at: usize, own: Option<u64>)
    requires { at + 2 ≤ length report.old }
    ensures { report.new ≡ with_part report_width report.old at (entry_words own) }
{
    let pair = match own {
        Some(bytes) => [bytes, 0],
        None => [0, 1],
    };
    put_pair(report, at, pair);
}

// Writes the counts of a type from `at` on.
fn put_counts(report: &mut [u64], at: usize, counts: Totals)
    requires { at + 2 ≤ length report.old }
    ensures { report.new ≡ with_part report_width report.old at (counts_pair counts) }
{
    put_pair(report, at, [counts.carried, counts.wasted]);
}

// The bytes that leaves carry of data that is neither array nor struct, by what it measures.
// Kept: `LeafBounds leaf`, `InnerBounds inner`: they hold only of a record that number 2 has passed, as in `place_short_layout`.
fn leaf_carried(leaf: Leaf, size: u32) -> u32
    requires { LeafBounds leaf }
    ensures { result ≡ leaf_carried leaf size }
{
    match leaf {
        Leaf::Matrix(columns, rows, _, width) => columns * (rows * width),
        _ => size,
    }
}

// The tables, and of the types before one their rows and their report: sizes, and what the first pass left.
#[derive(Clone, Copy, Debug, PartialEq, Eq)]
struct Before<'a> {
    types: &'a [u32],
    members: &'a [u32],
    rows: &'a [u32],
    report: &'a [u64],
    ghost small: { (k bytes : ℕ) → entry_in report.now k ≡ Some bytes → bytes < 2 ^ 32 },
}

impl<'a> Before<'a> {
    // The bytes of so many elements; none where the next begins before one ends.
    fn array_bytes(self, base: u32, count: u32, stride: u32) -> Option<u64>
        ensures { result ≡ array_bytes count stride (row_word self.entry.rows.now base 0) (entry_in self.entry.report.now base) }
    {
        if stride < ir_rows::row_word(self.rows, base, SIZE) {
            return None;
        }
        Some(u64::from(count) * entry(self.report, base)?)
    }

    // The bytes of a struct, from its members'.
    // Kept: a count beside the rows: `leaf_bytes_of` is given what any record says, and a row that the part lacks reads as zeros; `Members` would ask
    // of each caller that the part has as many rows as the record says.
    #[tactic(auto, unfolding(crate::specs::Serving::members_bytes))]
    fn members_bytes(self, part: &[u32], count: u32) -> Option<u64>
        ensures { result ≡ members_bytes (entry_in self.entry.report.now) part.now count }
    {
        let mut total: u64 = 0;
        for j in 0..count {
            let bytes = entry(self.report, ir_records::member_type(part, j))?;
            total += bytes;
        }
        Some(total)
    }

    // Those of a type that measures `size`.
    #[tactic(auto, unfolding(crate::specs::Serving::leaf_bytes_of))]
    fn leaf_bytes_of(self, inner: TypeInner, part: &[u32], size: u32) -> Option<u64>
        requires { InnerBounds inner }
        ensures { result ≡ leaf_bytes_of (λ k. row_word self.entry.rows.now k 0) (entry_in self.entry.report.now) inner part.now size }
    {
        match inner {
            TypeInner::Plain(leaf) => Some(u64::from(leaf_carried(leaf, size))),
            TypeInner::Array {
                base,
                count,
                stride,
            } => self.array_bytes(base, count, stride),
            TypeInner::RuntimeArray { base, stride } => self.array_bytes(base, 1, stride),
            TypeInner::Struct { count, span: _ } => self.members_bytes(part, count),
            TypeInner::Other(_) => Some(0),
        }
    }

    // Those of type i, which measures `size`, where it is host-shareable; for another 0 is kept.
    #[tactic(auto, unfolding(crate::specs::Serving::leaf_bytes_at))]
    fn leaf_bytes_at(self, i: u32, size: u32) -> Option<u64>
        requires { InnerBounds (type_inner self.types.now i) }
        ensures { result ≡ leaf_bytes_at self.entry.types.now self.entry.members.now self.entry.rows.now self.entry.report.now i size }
    {
        let flags = ir_rows::row_word(self.rows, i, FLAGS);
        if valid_flags::is_host_shareable(flags) {
            let inner = ir_records::type_inner(self.types, i);
            let part = ir_records::struct_members(self.types, self.members, i);
            return self.leaf_bytes_of(inner, part, size);
        }
        Some(0)
    }
}

// Kept: `type_count types.now ≤ most_types`, `type_count types.now * 2 ≤ length report.old`: the report is lent with `&mut`, so that no struct that is
// copied holds it beside the types; both passes and `fill`, which calls them, take both.
// The first pass: the bytes that leaves carry of each type, in the report; or number 27, and zeros.
fn leaf_bytes_all(
    types: &[u32],
    members: &[u32],
    rows: &[u32],
    report: &mut [u64],
) -> Result<(), Refusal>
    requires few { type_count types.now ≤ most_types }
    requires room { type_count types.now * 2 ≤ length report.old }
    requires rows_of { RowsOf types.now members.now rows.now }
    ensures value { outcome_of result ≡ first_refusal (narrow_struct types.now members.now rows.now) (type_count types.now) }
    ensures report_after { report.new ≡ first_pass_words (outcome_of result) types.now members.now rows.now (type_count types.now) report.old }
{
    let n = ir_records::type_count(types);
    for i in 0..n as u32 {
        let at = (i as usize) * REPORT_WIDTH;
        let size = ir_rows::row_word(rows, i, SIZE);
        let before = Before {
            types,
            members,
            rows,
            report: &report[..at],
        };
        let own = before.leaf_bytes_at(i, size);
        let structured = valid_type_flags::is_struct(types, i);
        let narrow = own.is_none();
        if structured & narrow {
            report[..n * REPORT_WIDTH].fill(0);
            return Err(TypeRefusal::of(Fault::NarrowStride).at(i));
        }
        put_leaf_bytes(report, at, own);
    }
    Ok(())
}

// The counts of type i, of which leaves carry `bytes`: the rest of a struct's span is wasted. 0 for the unreported.
fn counts_at(types: &[u32], rows: &[u32], i: u32, bytes: u64) -> Totals
    requires { Carries types.now rows.now i bytes }
    ensures value { result ≡ counts_of types.now rows.now i bytes }
    ensures wasted_bound { result.carried + result.wasted ≤ 4294967295 }
{
    let shareable = valid_flags::is_host_shareable(ir_rows::row_word(rows, i, FLAGS));
    if valid_type_flags::is_struct(types, i) & shareable {
        let size = u64::from(ir_rows::row_word(rows, i, SIZE));
        return Totals {
            carried: bytes,
            wasted: size - bytes,
        };
    }
    Totals::default()
}

// The second pass: the counts of each type in place of what was kept, and their totals.
fn counts_all(types: &[u32], rows: &[u32], report: &mut [u64]) -> Totals
    requires few { type_count types.now ≤ most_types }
    requires room { type_count types.now * 2 ≤ length report.old }
    requires all_carry { AllCarry types.now rows.now report.old (type_count types.now) }
    ensures value { result ≡ totals_in types.now rows.now report.old (type_count types.now) }
    ensures report_after { report.new ≡ second_pass_words types.now rows.now report.old (type_count types.now) }
{
    let mut carried: u64 = 0;
    let mut wasted: u64 = 0;
    let n = ir_records::type_count(types);
    for i in 0..n as u32 {
        let at = (i as usize) * REPORT_WIDTH;
        let bytes = report[at];
        let counts = counts_at(types, rows, i, bytes);
        carried += counts.carried;
        wasted += counts.wasted;
        put_counts(report, at, counts);
    }
    Totals { carried, wasted }
}

// The report of accepted types: number 27, or both counts of each and the totals.
fn fill(types: &[u32], members: &[u32], rows: &[u32], report: &mut [u64]) -> Result<Totals, Refusal>
    requires few { type_count types.now ≤ most_types }
    requires room { type_count types.now * 2 ≤ length report.old }
    requires rows_of { RowsOf types.now members.now rows.now }
    ensures value { report_answer_of result ≡ fill_answer types.now members.now rows.now (type_count types.now) }
    ensures report_after { report.new ≡ fill_words types.now members.now rows.now (type_count types.now) report.old }
{
    leaf_bytes_all(types, members, rows, report)?;
    Ok(counts_all(types, rows, report))
}

// Number 1: the lengths and the capability word.
// Kept: `types`, `members`, `rows`: three lengths that the call has as they are, and no tables, as in `ir_records::tables_fit`.
#[tactic(auto, unfolding(crate::specs::Report::lengths_fit))]
fn lengths_fit(
    capabilities: u32,
    types: usize,
    members: usize,
    rows: usize,
    report: usize,
) -> Result<(), Refusal>
    ensures { LengthsTold result (lengths_fit capabilities types members rows report) }
{
    ir_records::capabilities_known(capabilities)?;
    ir_records::tables_fit(types, members, rows)?;
    ir_records::require_lengths(types / ir_records::TYPE_WORDS * REPORT_WIDTH <= report)
}

// The report over an arena: for each host-shareable struct the bytes carried and the bytes wasted in the lent report, two words a type, and the
// totals. The arena is judged first; nothing is asked of the caller.
// Kept: `types`, `members`, `capabilities`, `rule`, `rows`: what the arena check takes; rows and report are lent with `&mut`.
pub fn report(
    types: &[u32],
    members: &[u32],
    capabilities: u32,
    rule: UniformRule,
    rows: &mut [u32],
    report: &mut [u64],
) -> Result<Totals, Refusal>
    ensures value { report_answer_of result ≡ report_answer capabilities types.now members.now rows.old report.old }
    ensures rows_after { rows.new ≡ report_rows rule capabilities types.now members.now rows.old report.old }
    ensures report_after { report.new ≡ report_words capabilities types.now members.now rows.old report.old }
{
    lengths_fit(
        capabilities,
        types.len(),
        members.len(),
        rows.len(),
        report.len(),
    )?;
    if let Err(refusal) = valid_arena::check(types, members, capabilities, rule, rows) {
        let words = ir_records::type_count(types) * REPORT_WIDTH;
        report[..words].fill(0);
        return Err(refusal);
    }
    fill(types, members, rows, report)
}
