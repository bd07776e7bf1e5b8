// Verdicts, slots and bytes of a struct in words.
#![tactic(auto)]

ghost use Rattle.std.specs.Prelude.{◌≡◌, ◌<◌, ◌≤◌, ◌+◌, ◌-◌, ◌++◌};
ghost use Rattle.valid_flags.specs.Flags.{bit};
ghost use Rattle.sheet_output.specs.Written.{Writes};
ghost use Rattle.sheet_verdicts.specs.Text.{measures_text, first_word, verdict_at, member_text, uneven_text, wrong_text, verdict_text};
ghost use Rattle.sheet_verdicts.specs.Slots.{run_last, run_text, mask_text, slots_text};

use immediates_ranges::Slots;
use sheet_names::Type;
use sheet_output::Writer;
use std::io::Write;
use valid_type_info::{Disalignment, Verdict};

/// The address spaces of which a row has a verdict.
#[derive(Clone, Copy, Debug, PartialEq, Eq)]
pub enum Space {
    Uniform,
    Storage,
}

impl Space {
    // Where the five words of its verdict begin in a row.
    fn first_word(self) -> usize
        ensures { result ≡ first_word self }
    {
        match self {
            Space::Uniform => ir_rows::UNIFORM,
            Space::Storage => ir_rows::STORAGE,
        }
    }

    // The verdict of a type for this space.
    // Kept: `valid_type_rows::row_at`, which makes a verdict of its five words too, asks for whole rows, and no clause of `Type` says that its rows are.
    fn verdict_of(self, t: Type) -> Verdict
        ensures { result ≡ verdict_at t.entry.sheet.rows.now t.entry.i (first_word self) }
    {
        let first = self.first_word();
        Verdict {
            code: t.row_word(first),
            ty: t.row_word(first + 1),
            index: t.row_word(first + 2),
            value: t.row_word(first + 3),
            bound: t.row_word(first + 4),
        }
    }
}

// Size and alignment. A runtime-sized array counts as one element.
pub fn put_measures<W: Write>(out: &mut Writer<W>, t: Type)
    ensures { Writes W.contents out.old (measures_text t.entry.sheet.rows.now t.entry.i) out.new }
{
    out.put_with(b"size ", u64::from(t.size()), b"");
    if !t.is_sized() {
        out.put_text(b" with one element");
    }
    out.put_with(b", alignment ", u64::from(t.alignment()), b"");
}

// The member that a verdict names; and its struct, where that is another one than the type that is judged.
fn put_member<W: Write>(out: &mut Writer<W>, judged: Type, of: Type, verdict: Verdict)
    ensures { Writes W.contents out.old (member_text out.old.markup of.entry.sheet judged.entry.i of.entry.i verdict.index) out.new }
{
    sheet_types::put_numbered_member(out, of.member(verdict.index));
    if of.i != judged.i {
        out.put_text(b" of ");
        sheet_types::put_struct_name(out, of);
    }
}

// The number that is wrong after a text, and of what it must be a multiple.
fn put_uneven<W: Write>(out: &mut Writer<W>, before: &[u8], verdict: Verdict, after: &[u8])
    ensures { Writes W.contents out.old (uneven_text before.now verdict after.now) out.new }
{
    out.put_with(before, u64::from(verdict.value), after);
    out.put_with(b" must be a multiple of ", u64::from(verdict.bound), b"");
}

// What is wrong with the type that a verdict names, or with a member of it, where another type is judged by it.
fn put_wrong<W: Write>(out: &mut Writer<W>, judged: Type, verdict: Verdict, wrong: Disalignment)
    ensures { Writes W.contents out.old (wrong_text out.old.markup judged.entry.sheet judged.entry.i verdict wrong) out.new }
{
    let of = judged.other(verdict.ty);
    match wrong {
        Disalignment::ArrayStride => {
            sheet_types::put_type(out, of);
            put_uneven(out, b" has its elements ", verdict, b" apart, which")
        }
        Disalignment::StructSpan => {
            sheet_types::put_type(out, of);
            put_uneven(out, b" has size ", verdict, b", which")
        }
        Disalignment::MemberOffset => {
            put_member(out, judged, of, verdict);
            put_uneven(out, b" at ", verdict, b"")
        }
        Disalignment::MemberOffsetAfterStruct => {
            put_member(out, judged, of, verdict);
            out.put_with(
                b" at ",
                u64::from(verdict.value),
                b" stands after a struct and must",
            );
            out.put_with(b" be at ", u64::from(verdict.bound), b" or later")
        }
        Disalignment::UnsizedMember => {
            put_member(out, judged, of, verdict);
            out.put_text(b" is runtime-sized")
        }
        Disalignment::NonHostShareable => {
            sheet_types::put_type(out, of);
            out.put_text(b" is not host-shareable")
        }
    }
}

// The verdict of a type for a space: its alignment, or what is wrong.
pub fn put_verdict<W: Write>(out: &mut Writer<W>, t: Type, space: Space)
    ensures { Writes W.contents out.old (verdict_text out.old.markup t.entry.sheet t.entry.i space) out.new }
{
    let verdict = space.verdict_of(t);
    if let Ok(wrong) = Disalignment::try_from(verdict.code) {
        put_wrong(out, t, verdict, wrong);
    } else if t.is_shareable() {
        out.put_with(b"ok, ", u64::from(verdict.ty), b"");
    } else {
        out.put_text(b"no, the struct is not host-shareable");
    }
}

// Whether slot k of a mask is set.
fn has_slot(mask: u64, k: u32) -> bool
    ensures { result ≡ bit mask k }
{
    (k < 64) && (mask >> k & 1 == 1)
}

// The last slot of the run from k on.
fn run_last(mask: u64, k: u32) -> u32
    requires { k < 64 }
    ensures { result ≡ run_last mask (63 - k) k }
{
    (k..63).find(|s| !has_slot(mask, *s + 1)).unwrap_or(63)
}

// The slots of a run from k on.
fn put_run<W: Write>(out: &mut Writer<W>, mask: u64, k: u32)
    requires { k < 64 }
    ensures { Writes W.contents out.old (run_text mask k) out.new }
{
    let last = run_last(mask, k);
    out.put_with(b" ", u64::from(k), b"");
    if k != last {
        out.put_with(b"-", u64::from(last), b"");
    }
}

// The slots of a mask, in runs.
fn put_mask<W: Write>(out: &mut Writer<W>, mask: u64)
    ensures { Writes W.contents out.old (mask_text mask) out.new }
{
    let starts = mask & !(mask << 1);
    for k in 0..64 {
        if has_slot(starts, k) {
            put_run(out, mask, k);
        }
    }
}

// Slots that are touched, and those of them that are covered only in part.
pub fn put_slots<W: Write>(out: &mut Writer<W>, slots: Slots)
    ensures { Writes W.contents out.old (slots_text slots) out.new }
{
    put_mask(out, slots.touched);
    if slots.partly != 0 {
        out.put_text(b"; only a part of");
        put_mask(out, slots.partly);
    }
}
