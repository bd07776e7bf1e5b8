// validate_type of naga's valid/type.rs: the row of a struct, and of any type by its kind, with numbers 2 to 7 of its record before it.
// Kept: `types`, `members`, `rows`, `i`, `w`: the tables that a caller lends, and the type whose row is made, as in ir_records and proc_layouter.
// Kept: `capabilities`, `rule`, `types`: handed on to the functions below, which part: plain types ask the capabilities alone, verdicts the rule alone.
// Kept: `i * 14 + 14 ≤ length rows.old`, `i * 6 + 6 ≤ length types.now`: as in proc_layouter.
#![tactic(auto)]

ghost use Rattle.std.specs.Prelude.{◌≡◌, false, ℕ, ◌+◌, ◌*◌, ◌≤◌, ◌<◌, length, take, drop};
ghost use Rattle.ir_records.specs.Record.{struct_kind, member_words, member_count, type_inner, member_type, Sourceless};
ghost use Rattle.ir_records.specs.Result.{require};
ghost use Rattle.ir_records.specs.Fields.{sources_located};
ghost use Rattle.ir_records.specs.declared.TypeInner.TheVariants.{Struct};
ghost use Rattle.valid_type_info.specs.TypeInfo.{rows_in};
ghost use Rattle.valid_type_info.specs.Verdict.{least_for};
ghost use Rattle.valid_members.specs.Serving.{ToldIn};
ghost use Rattle.valid_types.specs.ValidateType.{judge};
ghost use Rattle.valid_types.specs.Serving.{Settled};
ghost use Rattle.valid_types.specs.Serving.{words_row, record_row};

use ir_records::{Fault, Kind, Members, TypeRefusal, Words};
use ir_rows::Earlier;
use proc_type_alignment::Located;
use valid_member_bounds::Bounds;
use valid_members::State;
use valid_members_plain::Reached;
use valid_type_info::{Row, StructType, UniformRule};

// All members of struct s, by the rules that do not read blend sources. Where none breaks a rule, no member comes next, and the struct right before it
// is not looked for.
fn members_of(rule: UniformRule, s: &StructType) -> Result<State, TypeRefusal>
    ensures { ToldIn (least_for rule) s.now result }
{
    let start = Reached {
        taken: 0,
        state: valid_members_plain::start(rule),
    };
    let reached = valid_members_plain::plain_members(s, start);
    let plain = reached.state;
    // None has failed: it began with both verdicts Ok.
    let none = valid_type_info::ok_verdict(0);
    let uniform = valid_members_plain::uniform_so_far(plain.uniform, none);
    if reached.taken == s.part.count {
        return Ok(State {
            bounds: Bounds {
                end: plain.end,
                flags: plain.flags,
            },
            uniform,
            storage: valid_type_info::ok_verdict(plain.storage),
            immediates: 0,
            previous: None,
        });
    }
    let state = valid_members::carried(s.types, s.part.words, reached, uniform, 0);
    let from = Reached {
        taken: reached.taken,
        state,
    };
    valid_members::members_of(rule, s, from)
}

// The row of struct i, whose fields and rows are in order and whose alignment is known.
// Kept: beside `place_short_flags::struct_flags`: the same three steps, but this one carries verdicts between them and writes a row; one function would take
// the members' result, which differs, and closures for what is read of it and for what is done with the flags.
// Kept: `located.sourced ≡ false → Sourceless part.words.now (member_count part.words.now)`: the flag is in what the alignment was found with, and the part
// in what the struct is made of; a struct of both would be made here of the two.
fn members_row(
    capabilities: u32,
    rule: UniformRule,
    located: Located,
    types: &[u32],
    part: Members,
    rows: &mut [u32],
    i: u32,
    span: u32,
) -> Result<(), TypeRefusal>
    requires i_in_bounds { i * 14 + 14 ≤ length rows.old }
    requires i_in_bounds_2 { i * 6 ≤ length types.now }
    requires by_index { (j : ℕ) → j < part.count → member_type part.words.now j < i }
    requires sourceless { located.sourced ≡ false → Sourceless part.words.now (member_count part.words.now) }
    ensures { Settled result (i * 14) rows.old rows.new
        (judge (least_for rule) capabilities (type_inner types.now) (rows_in (take (i * 14) rows.old)) i
        (record { size = span; alignment = located.alignment }) (Struct part.entry.count span) part.entry.words.now) }
{
    if part.count == 0 {
        return Err(TypeRefusal::of(Fault::EmptyStruct));
    }
    let before = Earlier::of(rows, i);
    let s = StructType {
        types,
        before,
        part,
        span,
    };
    match members_of(rule, &s) {
        Ok(state) => {
            let flags = valid_blend::blended_flags(
                located.sourced,
                capabilities,
                types,
                |t| ir_rows::row_word(before.rows, t, ir_rows::FLAGS as u32),
                part,
                state.bounds.flags,
            )?;
            let uniform = valid_type_info::span_verdict(i, span, located.alignment, state.uniform);
            let storage = valid_type_info::span_verdict(i, span, located.alignment, state.storage);
            valid_type_rows::put(
                rows,
                i,
                Row {
                    size: span,
                    alignment: located.alignment,
                    flags,
                    uniform,
                    storage,
                    immediates: state.immediates,
                },
            );
            Ok(())
        }
        Err(refusal) => {
            valid_blend::source_before(located.sourced, capabilities, part.words, refusal)?;
            Err(refusal)
        }
    }
}

// Of struct i, a record with these words: numbers 2 to 7 and then its row, which is written where there is one.
fn struct_row(
    capabilities: u32,
    rule: UniformRule,
    types: &[u32],
    members: &[u32],
    rows: &mut [u32],
    i: u32,
    w: Words,
) -> Result<(), TypeRefusal>
    requires i_in_bounds { i * 14 + 14 ≤ length rows.old }
    requires i_in_bounds_2 { i * 6 ≤ length types.now }
    ensures { (n : ℕ) → Settled result (i * 14) rows.old rows.new
        (require (sources_located (take (w.b * member_words) (drop (w.a * member_words) members.now))) 2 0 0
        (words_row (least_for rule) capabilities (member_count members.now) n (type_inner types.now) (take (i * 14) rows.old) i struct_kind w.a w.b w.c w.d
        w.e (take (w.b * member_words) (drop (w.a * member_words) members.now)))) }
{
    ir_fields::struct_fields(ir_records::member_count(members), w)?;
    let part = ir_records::member_part(members, w.a, w.b);
    let located = proc_type_alignment::members_alignment(Earlier::of(rows, i), part)?;
    members_row(capabilities, rule, located, types, part, rows, i, w.c)
}

// Numbers 2 to 7 of type i, and then its row, from the rows of the types before it. It is written where there is one.
pub fn record_row(
    capabilities: u32,
    rule: UniformRule,
    types: &[u32],
    members: &[u32],
    rows: &mut [u32],
    i: u32,
) -> Result<(), TypeRefusal>
    requires i_in_bounds { i * 14 + 14 ≤ length rows.old }
    requires i_in_bounds_2 { i * 6 + 6 ≤ length types.now }
    ensures { Settled result (i * 14) rows.old rows.new (record_row (least_for rule) capabilities types.now members.now (take (i * 14) rows.old) i) }
{
    let w = ir_records::own_record(types, i);
    // Kept: two tests and no match on the kind: `valid_types::judge_plain` has the match, over kinds whose row it only works out; with one match here each
    // of its twelve arms would write the row itself.
    if w.is(Kind::Struct) {
        return struct_row(capabilities, rule, types, members, rows, i, w);
    }
    if w.is(Kind::Array) {
        let least = valid_type_info::least_for(rule);
        return valid_types::array_row(least, rows, i, w);
    }
    valid_types::plain_row(capabilities, types, rows, i, w)
}
