// Members of a struct one after the other, as long as none breaks a rule: the member loop of validate_type in naga's valid/type.rs,
// in fewer tests than `valid_members::member` takes. The loop carries both verdicts, which stay Ok, or the storage verdict alone.
#![tactic(auto)]

ghost use Rattle.std.specs.Prelude.{Option, Some, ◌≡◌, ℕ, ◌+◌, ◌*◌, ◌≤◌, ◌<◌, length, false};
ghost use Rattle.ir_records.specs.Record.{struct_kind, type_inner};
ghost use Rattle.valid_flags.specs.Flags.{starting_flags};
ghost use Rattle.valid_type_info.specs.declared.PreviousStruct.{PreviousStruct};
ghost use Rattle.valid_type_info.specs.declared.UniformRule as rule;
ghost use Rattle.valid_type_info.specs.declared.Verdict as verdict;
ghost use Rattle.valid_type_info.specs.TypeInfo.{rows_in};
ghost use Rattle.valid_type_info.specs.Verdict.{min_storage, least_for, alignment_in, struct_at};
ghost use Rattle.valid_members_plain.specs.Serving.{least_of, keeps_verdicts, keeps_storage, keeps, alignment_after};
ghost use Rattle.valid_members_plain.specs.Serving.{uniform_so_far, HasFailed, StepsIn, PlainIn};

use ir_records::Kind;
use ir_rows::Earlier;
use valid_type_info::{StructType, UniformRule, Verdict};

// So many members are worth a loop of their own.
pub const LONG: u32 = 16;

// What is known after them: the running end, the flags, the alignment in each verdict, none where the uniform one has failed, and where the next
// member may begin at the earliest. The storage verdict is Ok.
#[derive(Clone, Copy, Debug, PartialEq, Eq)]
pub struct PlainState {
    pub end: u32,
    pub flags: u32,
    pub uniform: Option<u32>,
    pub storage: u32,
    pub least: u64,
}

// How many members have been taken, and what is known after them.
#[derive(Clone, Copy, Debug, PartialEq, Eq)]
pub struct Reached<S> {
    pub taken: u32,
    pub state: S,
}

// Where a member after one of type t may begin: at its end, or at the distance that a struct asks for.
pub fn least_after(types: &[u32], t: u32, offset: u32, end: u64) -> u64
    requires { t * 6 + 6 ≤ length types.now }
    ensures { result ≡ least_of end (struct_at (type_inner types.now t) offset) }
{
    let w = ir_records::own_record(types, t);
    if w.is(Kind::Struct) {
        let rounded = proc_alignment::round_up(valid_type_info::MIN_UNIFORM, w.c);
        return end.max(u64::from(offset) + rounded);
    }
    end
}

// Kept: `t < before.i`, `before`, `t`, `offset`: StructType gives the fact for each member of its part. A type of an earlier type's number would be made of
// it in each turn of the loops, with the rows beside it.
// Whether both verdicts stay Ok after a member of type t, and no immediates word comes with it.
fn keeps_verdicts(before: Earlier, t: u32, offset: u32) -> bool
    requires { t < before.i }
    ensures { result ≡ keeps_verdicts (rows_in before.entry.rows.now t) offset }
{
    if (before.word(t, ir_rows::UNIFORM) == 0)
        & (before.word(t, ir_rows::STORAGE) == 0)
        & (before.word(t, ir_rows::IMMEDIATES) == 0)
    {
        return proc_alignment::is_masked(before.word(t, ir_rows::UNIFORM_ALIGNMENT), offset)
            & proc_alignment::is_masked(before.word(t, ir_rows::STORAGE_ALIGNMENT), offset);
    }
    false
}

// Whether the storage verdict stays Ok after a member of type t, and no immediates word comes with it.
fn keeps_storage(before: Earlier, t: u32, offset: u32) -> bool
    requires { t < before.i }
    ensures { result ≡ keeps_storage (rows_in before.entry.rows.now t) offset }
{
    if (before.word(t, ir_rows::STORAGE) == 0) & (before.word(t, ir_rows::IMMEDIATES) == 0) {
        return proc_alignment::is_masked(before.word(t, ir_rows::STORAGE_ALIGNMENT), offset);
    }
    false
}

// Whether the verdicts that are Ok stay so after a member of type t, and no immediates word comes with it. uniform: the alignment so far.
fn keeps(uniform: Option<u32>, before: Earlier, t: u32, offset: u32) -> bool
    requires { t < before.i }
    ensures { result ≡ keeps uniform (rows_in before.entry.rows.now t) offset }
{
    match uniform {
        Some(_) => keeps_verdicts(before, t, offset),
        None => keeps_storage(before, t, offset),
    }
}

// The alignment in the uniform verdict after a member of type t; a verdict that has failed stays.
#[tactic(auto, unfolding(valid_type_info::specs::TypeInfo::rows_in))]
fn uniform_after(before: Earlier, t: u32, so_far: Option<u32>) -> Option<u32>
    requires { t < before.i }
    ensures { result ≡ alignment_after so_far (alignment_in (rows_in before.entry.rows.now t).uniform) }
{
    let alignment = so_far?;
    Some(alignment.max(before.word(t, ir_rows::UNIFORM_ALIGNMENT)))
}

// One member of type t, if it breaks no rule.
// Inlined with the loop: calls from one to the other took a third of the time of a small struct.
#[inline(always)]
fn plain_member(s: &StructType, t: u32, offset: u32, state: PlainState) -> Option<PlainState>
    requires { t < s.now.before.i }
    ensures { (rule : rule.UniformRule) (u : verdict.Verdict) (count j : ℕ) (before : Option PreviousStruct) → HasFailed state.uniform u
        → least_of state.end before ≡ state.least → StepsIn (least_for rule) u s.now count j t offset before state result }
{
    let flags = s.before.word(t, ir_rows::FLAGS);
    let end = valid_member_rules::end_of(offset, s.before.word(t, ir_rows::SIZE));
    if !valid_member_rules::is_plain(flags) {
        return None;
    }
    if (offset as u64) < state.least {
        return None;
    }
    if (s.span as u64) < end {
        return None;
    }
    if !keeps(state.uniform, s.before, t, offset) {
        return None;
    }
    Some(PlainState {
        end: end as u32,
        flags: valid_flags::both(state.flags, flags),
        uniform: uniform_after(s.before, t, state.uniform),
        storage: state
            .storage
            .max(s.before.word(t, ir_rows::STORAGE_ALIGNMENT)),
        least: least_after(s.types, t, offset, end),
    })
}

// The uniform verdict after them: Ok with the alignment so far, or the one that had failed.
pub fn uniform_so_far(alignment: Option<u32>, failed: Verdict) -> Verdict
    ensures { result ≡ uniform_so_far alignment failed }
{
    match alignment {
        Some(alignment) => valid_type_info::ok_verdict(alignment),
        None => failed,
    }
}

// Before the first member.
pub fn start(rule: UniformRule) -> PlainState
    ensures { result ≡ record { end = 0; flags = starting_flags struct_kind; uniform = Some (least_for rule); storage = min_storage; least = 0 } }
{
    let flags = valid_flags::starting_flags(Kind::Struct);
    PlainState {
        end: 0,
        flags,
        uniform: Some(valid_type_info::least_for(rule)),
        storage: valid_type_info::MIN_STORAGE,
        least: 0,
    }
}

// Kept: `from.taken ≤ s.now.part.count`: as in valid_members.
// The members of a struct from `taken` on, up to the first that breaks a rule. A uniform verdict that has failed stays.
#[inline(always)]
pub fn plain_members(s: &StructType, from: Reached<PlainState>) -> Reached<PlainState>
    requires { from.taken ≤ s.now.part.count }
    ensures taken_le_taken { from.taken ≤ result.taken }
    ensures taken_le_count { result.taken ≤ s.now.part.count }
    ensures plain_after { (rule : rule.UniformRule) (u : verdict.Verdict) (immediates : ℕ) → HasFailed from.state.uniform u
        → PlainIn (least_for rule) s.now from.taken (uniform_so_far from.state.uniform u) immediates from.state
        → PlainIn (least_for rule) s.now result.taken (uniform_so_far result.state.uniform u) immediates result.state }
{
    let mut state = from.state;
    for j in from.taken..s.part.count {
        let t = s.part.type_of(j);
        let offset = s.part.offset_of(j);
        match plain_member(s, t, offset, state) {
            Some(next) => {
                state = next;
            }
            None => {
                return Reached { taken: j, state };
            }
        }
    }
    Reached {
        taken: s.part.count,
        state,
    }
}
