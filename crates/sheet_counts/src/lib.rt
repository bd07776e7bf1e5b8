// What is counted of accepted records: the rows, the bytes carried and wasted of each type, and the slots of the structs that may be immediates.
#![tactic(auto)]

ghost use Rattle.std.specs.Prelude.{◌≡◌, replicate, None};
ghost use Rattle.ir_records.specs.Refusal.{outcome_of};
ghost use Rattle.valid_arena.specs.Arena.{arena_answer};
ghost use Rattle.sheet_output.specs.Written.{Writes};
ghost use Rattle.sheet_counts.specs.Counts.{is_asked, slots_of, judged_rows, asked_rows, counted_report, ReportLeft, SlotsLeft};
ghost use Rattle.sheet_counts.specs.Text.{no_slots_text, struct_slots_text};

use immediates_ranges::Slots;
use ir_records::Refusal;
use sheet_names::{Sheet, Type};
use sheet_output::Writer;
use std::io::Write;
use valid_type_info::UniformRule;

// Bytes that the slots of immediates have.
const MOST_IMMEDIATE: u32 = immediates_ranges::SLOT_BYTES as u32;

/// The tables of what is counted: a row of fourteen words, two words of the report and the slots for each type. It is not Copy: a copy of so much
/// memory would be a mistake.
// Kept: three tables by the type's number, as `Sheet` has them.
#[derive(Drop)]
pub struct Counts {
    rows: [u32; ir_records::ROW_TABLE],
    report: [u64; place_report::REPORT_TABLE],
    slots: [Option<Slots>; ir_records::MOST_TYPES],
}

// Whether the slots of a type are asked for: of a struct that may be an immediate and is no longer than these are.
fn is_asked(t: Type) -> bool
    ensures { result ≡ is_asked t.entry.sheet.types.now t.entry.sheet.rows.now t.entry.i }
{
    t.is_struct() & (t.size() <= MOST_IMMEDIATE) & t.may_be_immediate()
}

impl Counts {
    /// Nothing is counted.
    pub fn new() -> Counts
        ensures rows { result.rows ≡ replicate 14336 0 }
        ensures report { result.report ≡ replicate 2048 0 }
        ensures slots { result.slots ≡ replicate 1024 None }
    {
        Counts {
            rows: [0; ir_records::ROW_TABLE],
            report: [0; place_report::REPORT_TABLE],
            slots: [None; ir_records::MOST_TYPES],
        }
    }

    /// Records with what is counted of them.
    pub fn sheet<'a>(&'a self, records: Sheet<'a>) -> Sheet<'a>
        ensures text { result.text ≡ records.entry.text }
        ensures names { result.names ≡ records.entry.names }
        ensures types { result.types ≡ records.entry.types }
        ensures members { result.members ≡ records.entry.members }
        ensures rows { result.rows.now ≡ self.now.rows }
        ensures report { result.report.now ≡ self.now.report }
        ensures slots { result.slots.now ≡ self.now.slots }
    {
        Sheet {
            rows: &self.rows,
            report: &self.report,
            slots: &self.slots,
            ..records
        }
    }

    // The slots of type i, where they are asked for and not refused.
    fn slots_of(
        &mut self,
        records: Sheet,
        capabilities: u32,
        rule: UniformRule,
        i: u32,
    ) -> Option<Slots>
        ensures value { result ≡ slots_of capabilities records.entry self.old.rows i }
        ensures rows { self.new.rows ≡ asked_rows rule capabilities records.entry self.old.rows i }
        ensures report { self.new.report ≡ self.old.report }
        ensures slots { self.new.slots ≡ self.old.slots }
    {
        if !is_asked(self.sheet(records).type_at(i)) {
            return None;
        }
        immediates_slots::immediate_slots(
            records.types,
            records.members,
            capabilities,
            rule,
            &mut self.rows,
            i,
            0,
        )
        .ok()
    }

    /// Judges records, and counts what is accepted.
    pub fn judge(
        &mut self,
        records: Sheet,
        capabilities: u32,
        rule: UniformRule,
    ) -> Result<(), Refusal>
        ensures value { outcome_of result ≡ arena_answer capabilities records.entry.types.now records.entry.members.now self.old.rows }
        ensures rows { self.new.rows ≡ judged_rows rule capabilities records.entry self.old.rows }
        ensures report { ReportLeft result (counted_report capabilities records.entry self.new.rows self.old.report) self.old.report self.new.report }
        ensures slots { SlotsLeft result (slots_of capabilities records.entry self.new.rows) self.old.slots self.new.slots }
    {
        let types = records.types;
        let members = records.members;
        valid_arena::judge(types, members, capabilities, rule, &mut self.rows)?;
        // Its totals are not asked for, and a refusal leaves zeros, which count nothing.
        let _ = place_report::report(
            types,
            members,
            capabilities,
            rule,
            &mut self.rows,
            &mut self.report,
        );
        // Kept: by number, since `slots_of` lends the rows of the same struct: an iterator over `self.slots` would hold it, and rows as a parameter would be
        // one more beside four.
        for i in 0..sheet_names::MOST_TYPES {
            self.slots[i as usize] = self.slots_of(records, capabilities, rule, i);
        }
        Ok(())
    }
}

// Why a struct has no slots: it is not host-shareable, has no fixed size or has 16-bit scalars.
fn put_no_slots<W: Write>(out: &mut Writer<W>, t: Type)
    ensures { Writes W.contents out.old (no_slots_text t.entry.sheet.rows.now t.entry.i) out.new }
{
    if !t.is_shareable() {
        out.put_text(b"no, the struct is not host-shareable");
    } else if !t.is_sized() {
        out.put_text(b"no, the struct is runtime-sized");
    } else {
        out.put_text(b"no, a member has 16-bit scalars");
    }
}

/// The slots of a struct in words, or why there are none.
pub fn put_slots<W: Write>(out: &mut Writer<W>, t: Type)
    ensures { Writes W.contents out.old (struct_slots_text t.entry.sheet t.entry.i) out.new }
{
    if !t.may_be_immediate() {
        put_no_slots(out, t);
        return;
    }
    if MOST_IMMEDIATE < t.size() {
        out.put_text(b"no, the struct ends past byte 256");
        return;
    }
    out.put_text(b"slots");
    if let Some(slots) = t.slots() {
        sheet_verdicts::put_slots(out, slots);
    }
}
