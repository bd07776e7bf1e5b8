// The members of a struct, one after the other: the member loop of validate_type in naga's valid/type.rs.
#![tactic(auto)]

ghost use Rattle.std.specs.Prelude.{◌≡◌, true, ℕ, ◌+◌, ◌*◌, ◌≤◌, ◌<◌, length, false};
ghost use Rattle.ir_records.specs.Record.{member_words, member_type, type_inner};
ghost use Rattle.ir_records.specs.Result.{ok};
ghost use Rattle.valid_type_info.specs.declared.UniformRule as rule;
ghost use Rattle.valid_type_info.specs.TypeInfo.{rows_in};
ghost use Rattle.valid_type_info.specs.Verdict.{least_for, ok_verdict, struct_at, previous_of};
ghost use Rattle.valid_members_plain.specs.Serving.{least_of, uniform_so_far};
ghost use Rattle.valid_member_rules.specs.MemberRules.{member_storage, member_immediates};
ghost use Rattle.valid_member_rules.specs.Serving.{uniform_by};
ghost use Rattle.ir_records.specs.Refusal.{judged};
ghost use Rattle.valid_members.specs.Serving.{state_in, step_in, InOrder, ordered_step, alignment_of, UniformFits, PlainFits, GoesOnIn};

use ir_records::TypeRefusal;
use valid_member_bounds::{BoundMember, Bounds};
use valid_members_plain::{PlainState, Reached};
use valid_type_info::{Distance, MemberAt, PreviousStruct, StructType, UniformRule, Verdict};

// What is known after some members.
#[derive(Clone, Copy, Debug, PartialEq, Eq)]
pub struct State {
    pub bounds: Bounds,
    pub uniform: Verdict,
    pub storage: Verdict,
    pub immediates: u32,
    pub previous: Option<PreviousStruct>,
}

// Kept: `m.t < s.now.before.i`, `rule`, `s`, `m`: StructType gives the fact for each member of its part; a member with its struct and the rule beside it
// would be made in each turn of the loops.
// The state after member m of struct s, by its distance from the struct before it and the bounds after it.
// Inlined into both its callers: as a call of its own, through memory, it took a quarter of the time of a small struct.
#[inline(always)]
fn after_member(
    rule: UniformRule,
    s: &StructType,
    m: MemberAt,
    d: Distance,
    bounds: Bounds,
    state: State,
) -> State
    requires { m.t < s.now.before.i }
    ensures { result ≡ record {
      bounds = bounds;
      uniform = uniform_by (least_for rule) d m.i m.j m.t m.offset (rows_in s.now.before.rows.now m.t) state.uniform;
      storage = member_storage m.i m.j m.t m.offset (rows_in s.now.before.rows.now m.t) state.storage;
      immediates = member_immediates (rows_in s.now.before.rows.now m.t).immediates state.immediates;
      previous = struct_at (type_inner s.now.types.now m.t) m.offset;
    } }
{
    let least = valid_type_info::least_for(rule);
    let own = s.before.word(m.t, ir_rows::IMMEDIATES);
    State {
        bounds,
        uniform: valid_member_rules::uniform_at(least, d, s.before, m, state.uniform),
        storage: valid_member_rules::storage_at(s.before, m, state.storage),
        immediates: valid_member_rules::immediates_of(own, state.immediates),
        previous: valid_member_rules::struct_at(s.types, m.t, m.offset),
    }
}

// One member m of struct s, in 01's order.
fn member(
    rule: UniformRule,
    s: &StructType,
    m: MemberAt,
    state: State,
) -> Result<State, TypeRefusal>
    requires { m.t < s.now.before.i }
    ensures { judged result ≡ step_in (least_for rule) s.now s.now.part.count m state }
{
    let d = valid_type_info::distance_to(state.previous, m.offset);
    let bounds = valid_member_bounds::member_bounds(
        s.part.count,
        s.span,
        d,
        BoundMember {
            j: m.j,
            offset: m.offset,
            size: s.before.word(m.t, ir_rows::SIZE),
            flags: s.before.word(m.t, ir_rows::FLAGS),
            array: valid_member_bounds::is_array(s.types, m.t),
        },
        state.bounds,
    )?;
    Ok(after_member(rule, s, m, d, bounds, state))
}

// After the members that the loop of valid_members_plain has taken: the storage verdict is Ok.
pub fn carried(
    types: &[u32],
    part: &[u32],
    reached: Reached<PlainState>,
    uniform: Verdict,
    immediates: u32,
) -> State
    ensures { result ≡ record {
      bounds = record { end = reached.state.end; flags = reached.state.flags };
      uniform = «uniform»;
      storage = ok_verdict reached.state.storage;
      immediates = immediates;
      previous = previous_of (type_inner types.now) part.now reached.taken;
    } }
{
    State {
        bounds: Bounds {
            end: reached.state.end,
            flags: reached.state.flags,
        },
        uniform,
        storage: valid_type_info::ok_verdict(reached.state.storage),
        immediates,
        previous: previous_of(types, part, reached.taken),
    }
}

// The struct that the member right before member j is.
fn previous_of(types: &[u32], part: &[u32], j: u32) -> Option<PreviousStruct>
    ensures { result ≡ previous_of (type_inner types.now) part.now j }
{
    if j == 0 {
        return None;
    }
    let before = j - 1;
    valid_member_rules::struct_at(
        types,
        ir_records::member_type(part, before),
        ir_records::member_offset(part, before),
    )
}

// Whether a member breaks no rule of bounds, but for its distance from the struct before it.
fn is_in_order(flags: u32, running: u32, offset: u32, end: u64, span: u32) -> bool
    ensures { result ≡ true → InOrder flags running offset end span }
{
    if !valid_flags::is_sized_data(flags) {
        return false;
    }
    if offset < running {
        return false;
    }
    end <= u64::from(span)
}

// The step of a member in order, in fewer tests than `member`.
fn ordered_member(rule: UniformRule, s: &StructType, m: MemberAt, state: State) -> Option<State>
    requires { m.t < s.now.before.i }
    ensures { (count : ℕ) → ordered_step result (step_in (least_for rule) s.now count m state) }
{
    let flags = s.before.word(m.t, ir_rows::FLAGS);
    let end = valid_member_rules::end_of(m.offset, s.before.word(m.t, ir_rows::SIZE));
    if !is_in_order(flags, state.bounds.end, m.offset, end, s.span) {
        return None;
    }
    let d = valid_type_info::distance_to(state.previous, m.offset);
    if !valid_member_bounds::is_within(d) {
        return None;
    }
    let bounds = Bounds {
        end: end as u32,
        flags: valid_flags::both(state.bounds.flags, flags),
    };
    Some(after_member(rule, s, m, d, bounds, state))
}

// Kept: `from.taken ≤ s.now.part.count`: of how far a loop has come in this struct. A struct of both, as immediates_walk::Walk, would be made of each
// state that a loop hands on, and Reached is one for every loop.
// Kept: `GoesOnIn`: three functions promise that what is known of a state goes on being known. A ghost field of the state would hold the struct and the rule
// of which it is known.
// Kept: beside `valid_members_plain::plain_members`, up to the first member whose step says none as well: one loop for both would take the step as a
// closure, and the invariant of each, which its contract names, as a parameter.
// The members of struct s from `taken` on, up to the first for which `member` is needed.
fn ordered_members(rule: UniformRule, s: &StructType, from: Reached<State>) -> Reached<State>
    requires { from.taken ≤ s.now.part.count }
    ensures taken_le_taken { from.taken ≤ result.taken }
    ensures taken_le_count { result.taken ≤ s.now.part.count }
    ensures taken_value { GoesOnIn (least_for rule) s.now from result }
{
    let mut state = from.state;
    for j in from.taken..s.part.count {
        let m = MemberAt {
            i: s.before.i,
            j,
            t: s.part.type_of(j),
            offset: s.part.offset_of(j),
        };
        match ordered_member(rule, s, m, state) {
            Some(next) => {
                state = next;
            }
            None => {
                return Reached { taken: j, state };
            }
        }
    }
    Reached {
        taken: s.part.count,
        state,
    }
}

// Where member j may begin that overlaps none before it and keeps the distance; end: the end of the member before it.
fn least_at(s: &StructType, j: u32, end: u32) -> u64
    requires { j ≤ s.now.part.count }
    ensures { result ≡ least_of end (previous_of (type_inner s.now.types.now) s.now.part.words.now j) }
{
    if j == 0 {
        return end as u64;
    }
    let t = s.part.type_of(j - 1);
    let offset = s.part.offset_of(j - 1);
    valid_members_plain::least_after(s.types, t, offset, end as u64)
}

// The alignment in a verdict; none where it has failed.
fn alignment_of(v: Verdict) -> Option<u32>
    ensures { result ≡ alignment_of v }
{
    v.is_ok().then_some(v.ty)
}

// The same state for the loop of valid_members_plain.
fn from_state(s: &StructType, from: Reached<State>) -> PlainState
    requires { from.taken ≤ s.now.part.count }
    ensures { result ≡ record {
      end = from.state.bounds.end;
      flags = from.state.bounds.flags;
      uniform = alignment_of from.state.uniform;
      storage = from.state.storage.ty;
      least = least_of from.state.bounds.end (previous_of (type_inner s.now.types.now) s.now.part.words.now from.taken);
    } }
{
    let state = from.state;
    PlainState {
        end: state.bounds.end,
        flags: state.bounds.flags,
        uniform: alignment_of(state.uniform),
        storage: state.storage.ty,
        least: least_at(s, from.taken, state.bounds.end),
    }
}

// Whether a verdict is Ok with its alignment and nothing else in it.
fn is_clean(v: Verdict) -> bool
    ensures { result ≡ true → v ≡ ok_verdict v.ty }
{
    v == valid_type_info::ok_verdict(v.ty)
}

// Whether so many members that are left are worth the loop of valid_members_plain: to change to it costs more than a few members do. It goes on
// with verdicts that are Ok and hold nothing but their alignment, and past a uniform one that has failed. u: uniform; v: storage.
fn are_plain(left: u32, u: Verdict, v: Verdict) -> bool
    ensures { result ≡ true → PlainFits u v }
{
    if left < valid_members_plain::LONG {
        return false;
    }
    if !is_clean(v) {
        return false;
    }
    if is_clean(u) {
        return true;
    }
    !u.is_ok()
}

// The members of a struct from `taken` on as long as none breaks a rule. A uniform verdict that has failed stays.
// Inlined, as the loop in it: in a call of its own it took a third of the time of a small struct.
#[inline(always)]
fn plain_from(s: &StructType, from: Reached<State>) -> Reached<State>
    requires taken_le_count { from.taken ≤ s.now.part.count }
    requires uniform_value { UniformFits from.state.uniform }
    requires storage_value { from.state.storage ≡ ok_verdict from.state.storage.ty }
    ensures taken_le_taken { from.taken ≤ result.taken }
    ensures taken_le_count { result.taken ≤ s.now.part.count }
    ensures taken_value { (rule : rule.UniformRule) → GoesOnIn (least_for rule) s.now from result }
{
    let start = Reached {
        taken: from.taken,
        state: from_state(s, from),
    };
    let reached = valid_members_plain::plain_members(s, start);
    let uniform = valid_members_plain::uniform_so_far(reached.state.uniform, from.state.uniform);
    Reached {
        taken: reached.taken,
        state: carried(
            s.types,
            s.part.words,
            reached,
            uniform,
            from.state.immediates,
        ),
    }
}

// The members of struct s from `taken` on, up to the first that needs every rule or another loop.
fn together(rule: UniformRule, s: &StructType, from: Reached<State>) -> Reached<State>
    requires { from.taken ≤ s.now.part.count }
    ensures taken_le_taken { from.taken ≤ result.taken }
    ensures taken_le_count { result.taken ≤ s.now.part.count }
    ensures taken_value { GoesOnIn (least_for rule) s.now from result }
{
    let left = s.part.count - from.taken;
    if are_plain(left, from.state.uniform, from.state.storage) {
        plain_from(s, from)
    } else {
        ordered_members(rule, s, from)
    }
}

// The next member by every rule.
fn step(rule: UniformRule, s: &StructType, at: Reached<State>) -> Result<State, TypeRefusal>
    requires in_part { at.taken < s.now.part.count }
    requires so_far { state_in (least_for rule) s.now at.taken ≡ ok at.state }
    ensures { judged result ≡ state_in (least_for rule) s.now (at.taken + 1) }
{
    let m = MemberAt {
        i: s.before.i,
        j: at.taken,
        t: s.part.type_of(at.taken),
        offset: s.part.offset_of(at.taken),
    };
    member(rule, s, m, at.state)
}

// The members of struct s from `taken` on, by every rule where one needs it. After one that does, the next are taken together again.
pub fn members_of(
    rule: UniformRule,
    s: &StructType,
    from: Reached<State>,
) -> Result<State, TypeRefusal>
    requires taken_le_count { from.taken ≤ s.now.part.count }
    requires taken_value { state_in (least_for rule) s.now from.taken ≡ ok from.state }
    ensures { judged result ≡ state_in (least_for rule) s.now s.now.part.count }
{
    let mut reached = from;
    // Kept: it goes on by as many members as were taken together, which no range does.
    while reached.taken < s.part.count {
        let there = together(rule, s, reached);
        if there.taken == s.part.count {
            return Ok(there.state);
        }
        reached = Reached {
            taken: there.taken + 1,
            state: step(rule, s, there)?,
        };
    }
    Ok(reached.state)
}
