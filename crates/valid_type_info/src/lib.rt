// TypeInfo of naga's valid/type.rs: what a result row has, verdicts and the rules that make them.
#![tactic(auto)]

ghost use Rattle.std.specs.Prelude.{◌≡◌, Bool, true, ℕ, ◌*◌, ◌≤◌, ◌<◌, length, Some};
ghost use Rattle.std.specs.Option.{unwrap_or};
ghost use Rattle.ir_records.specs.Record.{member_type};
ghost use Rattle.valid_type_info.specs.declared.Verdict as verdict;
ghost use Rattle.valid_type_info.specs.declared.UniformRule as rule;
ghost use Rattle.valid_type_info.specs.declared.Distance.TheVariants.{Overflow};
ghost use Rattle.valid_type_info.specs.Verdict.{NamesRule, is_ok, min_uniform, least_for, ok_verdict, array_verdict, share_verdict};
ghost use Rattle.valid_type_info.specs.Verdict.{offset_verdict, member_verdict, distance_verdict, distance_ok, unsized_verdict, span_verdict};
ghost use Rattle.valid_type_info.specs.Serving.{NamesDisalignment, after_distance, is_within};

use ir_records::{Fault, Members, Refusal, TypeRefusal};
use ir_rows::Earlier;

/// naga's Disalignment: why a verdict is not Ok, by its code.
#[derive(Clone, Copy, Debug, PartialEq, Eq)]
pub enum Disalignment {
    ArrayStride = 1,
    StructSpan = 2,
    MemberOffset = 3,
    MemberOffsetAfterStruct = 4,
    UnsizedMember = 5,
    NonHostShareable = 6,
}

impl TryFrom<u32> for Disalignment {
    type Error = TypeRefusal;

    ghost try_from_gives = { NamesDisalignment };

    /// Number 2 for a code of none: 0, which is Ok, or above 6.
    fn try_from(code: u32) -> Result<Self, TypeRefusal> {
        match code {
            1 => Ok(Disalignment::ArrayStride),
            2 => Ok(Disalignment::StructSpan),
            3 => Ok(Disalignment::MemberOffset),
            4 => Ok(Disalignment::MemberOffsetAfterStruct),
            5 => Ok(Disalignment::UnsizedMember),
            6 => Ok(Disalignment::NonHostShareable),
            _ => Err(TypeRefusal::of(Fault::FieldOutside)),
        }
    }
}

// naga's LayoutCompatibility: code 0 is Ok, with the alignment in ty.
// Kept: five words and no Result of an alignment: they stand so in a row, which the caller of the C interface reads, and a base's verdict is passed on
// as it lies there. Each reader of rows would make such a Result of any words, and each writer the words again.
#[derive(Clone, Copy, Debug, Default, PartialEq, Eq)]
pub struct Verdict {
    pub code: u32,
    pub ty: u32,
    pub index: u32,
    pub value: u32,
    pub bound: u32,
}

// The fourteen words of a result row.
#[derive(Clone, Copy, Debug, Default, PartialEq, Eq)]
pub struct Row {
    pub size: u32,
    pub alignment: u32,
    pub flags: u32,
    pub uniform: Verdict,
    pub storage: Verdict,
    pub immediates: u32,
}

/// The rule by which uniform verdicts are worked out: naga 30.0.1's, or the storage rules.
#[derive(Clone, Copy, Debug, PartialEq, Eq)]
pub enum UniformRule {
    Older = 0,
    Newer = 1,
}

impl TryFrom<u32> for UniformRule {
    type Error = Refusal;

    ghost try_from_gives = { NamesRule };

    /// Number 1 for a word of no rule.
    fn try_from(word: u32) -> Result<Self, Refusal> {
        match word {
            0 => Ok(UniformRule::Older),
            1 => Ok(UniformRule::Newer),
            _ => Err(Refusal::of(Fault::TableLength)),
        }
    }
}

/// A member that a verdict may name: member j of struct i, of type t, at this offset.
#[derive(Clone, Copy, Debug, PartialEq, Eq)]
pub struct MemberAt {
    pub i: u32,
    pub j: u32,
    pub t: u32,
    pub offset: u32,
}

/// The struct that the member right before is, with its offset.
#[derive(Clone, Copy, Debug, PartialEq, Eq)]
pub struct PreviousStruct {
    pub span: u32,
    pub offset: u32,
}

/// A struct whose members are earlier types, with what its rules read: the type records, the rows of the types before it, its member rows, its span.
#[derive(Clone, Copy, Debug, PartialEq, Eq)]
pub struct StructType<'t, 'r, 'm> {
    pub types: &'t [u32],
    pub before: Earlier<'r>,
    pub part: Members<'m>,
    pub span: u32,
    pub ghost in_types: { before.i * 6 ≤ length types.now },
    pub ghost members_earlier: { (j : ℕ) → j < part.count → member_type part.words.now j < before.i },
}

// The distance from a struct to the member right after it.
// Kept: three outcomes of one rule: the verdict reads the first two, number 21 the third. As a Result its refusal could not be passed on by `?`, since
// numbers 17 to 19 come before it; as an Option of an Option each reader would have to know what either none says;
// and as an Option of the first two it would have the same three cases, with names for two of them alone.
#[derive(Clone, Copy, Debug, PartialEq, Eq)]
pub enum Distance {
    Enough,
    Short(u32),
    Overflow,
}

pub const MIN_UNIFORM: u32 = 16;

pub const MIN_STORAGE: u32 = 1;

impl Verdict {
    /// Whether nothing has failed: a verdict that has is passed on.
    pub fn is_ok(self) -> bool
        ensures { result ≡ is_ok self }
    {
        self.code == 0
    }
}

pub fn ok_verdict(alignment: u32) -> Verdict
    ensures { result ≡ ok_verdict alignment }
{
    Verdict {
        code: 0,
        ty: alignment,
        index: 0,
        value: 0,
        bound: 0,
    }
}

// Of an array over a base with this verdict and layout alignment.
pub fn array_verdict(least: u32, i: u32, stride: u32, alignment: u32, base: Verdict) -> Verdict
    ensures { result ≡ array_verdict least i stride alignment base }
{
    if !base.is_ok() {
        return base;
    }
    let a = base.ty.max(alignment).max(least);
    if proc_alignment::is_aligned(a, stride) {
        ok_verdict(a)
    } else {
        Verdict {
            code: Disalignment::ArrayStride as u32,
            ty: i,
            index: 0,
            value: stride,
            bound: a,
        }
    }
}

// A member of type t that is not host-shareable.
pub fn share_verdict(shareable: bool, t: u32, so_far: Verdict) -> Verdict
    ensures { result ≡ share_verdict shareable t so_far }
{
    if shareable {
        return so_far;
    }
    if !so_far.is_ok() {
        return so_far;
    }
    Verdict {
        code: Disalignment::NonHostShareable as u32,
        ty: t,
        index: 0,
        value: 0,
        bound: 0,
    }
}

// The offset against a member verdict alignment; the larger alignment stays.
pub fn offset_verdict(m: MemberAt, so_far: u32, alignment: u32) -> Verdict
    ensures { result ≡ offset_verdict m.i m.j m.offset so_far alignment }
{
    if proc_alignment::is_aligned(alignment, m.offset) {
        return ok_verdict(so_far.max(alignment));
    }
    Verdict {
        code: Disalignment::MemberOffset as u32,
        ty: m.i,
        index: m.j,
        value: m.offset,
        bound: alignment,
    }
}

// check_member_layout: the offset against the member's own verdict alignment.
pub fn member_verdict(m: MemberAt, so_far: Verdict, member: Verdict) -> Verdict
    ensures { result ≡ member_verdict m.i m.j m.offset so_far member }
{
    if !so_far.is_ok() {
        return so_far;
    }
    if !member.is_ok() {
        return member;
    }
    offset_verdict(m, so_far.ty, member.ty)
}

// The distance from this struct; none where a sum or the difference of the Rust leaves 32 bits.
fn distance_from(previous: PreviousStruct, offset: u32) -> Option<Distance>
    ensures within { is_within (unwrap_or result Overflow) ≡ distance_ok (Some previous) offset }
    ensures verdict { (rule : rule.UniformRule) (i j : ℕ) (v : verdict.Verdict) → is_within (unwrap_or result Overflow) ≡ true
        → after_distance (least_for rule) (unwrap_or result Overflow) i j offset v ≡ distance_verdict (least_for rule) i j offset (Some previous) v }
{
    let diff = offset.checked_sub(previous.offset)?;
    // The Rust's span + 15 leaves 32 bits just where the rounded span does.
    let min = u32::try_from(proc_alignment::round_up(MIN_UNIFORM, previous.span)).ok()?;
    if min <= diff {
        return Some(Distance::Enough);
    }
    let expected = previous.offset.checked_add(min)?;
    Some(Distance::Short(expected))
}

// The distance rule; Overflow where a sum or the difference of the Rust leaves 32 bits.
pub fn distance_to(previous: Option<PreviousStruct>, offset: u32) -> Distance
    ensures within { is_within result ≡ distance_ok previous offset }
    ensures verdict { (rule : rule.UniformRule) (i j : ℕ) (v : verdict.Verdict) → is_within result ≡ true
        → after_distance (least_for rule) result i j offset v ≡ distance_verdict (least_for rule) i j offset previous v }
{
    match previous {
        None => Distance::Enough,
        Some(previous) => distance_from(previous, offset).unwrap_or(Distance::Overflow),
    }
}

// The minimum alignment of a rule.
// Kept: the rules below take it, as the definitions do: storage verdicts have the smaller one, and no rule of uniform buffers.
pub fn least_for(rule: UniformRule) -> u32
    ensures { result ≡ least_for rule }
{
    match rule {
        UniformRule::Older => MIN_UNIFORM,
        UniformRule::Newer => MIN_STORAGE,
    }
}

// The distance rule overwrites an earlier verdict; by the minimum alignment of storage there is none.
pub fn after_distance(least: u32, d: Distance, m: MemberAt, so_far: Verdict) -> Verdict
    ensures { result ≡ after_distance least d m.i m.j m.offset so_far }
{
    match d {
        Distance::Short(expected) if MIN_STORAGE < least => Verdict {
            code: Disalignment::MemberOffsetAfterStruct as u32,
            ty: m.i,
            index: m.j,
            value: m.offset,
            bound: expected,
        },
        Distance::Enough | Distance::Short(_) | Distance::Overflow => so_far,
    }
}

// A member that is not sized has no place in a uniform buffer.
pub fn unsized_verdict(sized: bool, m: MemberAt, so_far: Verdict) -> Verdict
    ensures { result ≡ unsized_verdict sized m.i m.j so_far }
{
    if sized {
        return so_far;
    }
    if !so_far.is_ok() {
        return so_far;
    }
    Verdict {
        code: Disalignment::UnsizedMember as u32,
        ty: m.i,
        index: m.j,
        value: 0,
        bound: 0,
    }
}

// The span rule at the end of a struct overwrites.
pub fn span_verdict(i: u32, span: u32, alignment: u32, so_far: Verdict) -> Verdict
    ensures { result ≡ span_verdict i span alignment so_far }
{
    if proc_alignment::is_aligned(alignment, span) {
        return so_far;
    }
    Verdict {
        code: Disalignment::StructSpan as u32,
        ty: i,
        index: 0,
        value: span,
        bound: alignment,
    }
}
