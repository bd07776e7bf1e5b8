// The public calls as numbers and lent words, which doors_c exports with C's calling convention.
#![tactic(auto)]

ghost use Rattle.std.specs.Prelude.{◌≡◌, ◌*◌, eqb, length};
ghost use Rattle.ir_records.specs.Result.{pick};
ghost use Rattle.ir_records.specs.Record.{type_word, member_words};
ghost use Rattle.ir_records.specs.Refusal.{outcome_of};
ghost use Rattle.proc_layouter.specs.Layouter.{layout_answer, layout_words};
ghost use Rattle.valid_rule_word.specs.RuleWord.{rule_of, capabilities_by};
ghost use Rattle.valid_arena.specs.Arena.{arena_answer, arena_words};
ghost use Rattle.immediates_ranges.specs.Slots.{slots_answer_of, range_slots, part_answer, contains, difference, union};
ghost use Rattle.immediates_slots.specs.Immediates.{slots_answer};
ghost use Rattle.immediates_pass.specs.Pass.{begin, SetRange, Choose, Dispatch};
ghost use Rattle.place_lookup.specs.Answer.{place_answer_of};
ghost use Rattle.place_lookup.specs.Place.{lookup_answer};
ghost use Rattle.place_short.specs.Short.{short_lookup, short_words};
ghost use Rattle.place_runs.specs.Places.{places_answer, places_scratch, places_words};
ghost use Rattle.proc_plain_types.specs.PlainTypes.{plain_answer};
ghost use Rattle.place_report.specs.Answer.{report_answer_of};
ghost use Rattle.place_report.specs.Report.{report_answer, report_rows, report_words};
ghost use Rattle.spirv_read.specs.Read.{read_into, section_of, types_after, members_after};
ghost use Rattle.wgsl_read.specs.Text.{text_of, answer_of, types_left, members_left};
ghost use Rattle.order_call.specs.Call.{ordered};
ghost use Rattle.order_words.specs.Words.{order_outcome, with_found};
ghost use Rattle.doors_words.specs.Words.{slots_outcome, place_outcome, totals_outcome, plain_outcome, byte_of, leaf_of, carried_of, wasted_of, part_start};
ghost use Rattle.doors_words.specs.Words.{part_length, with_answer, with_two, with_numbers, with_masks, with_pass, with_tried, tried_in, pass_rows};
ghost use Rattle.doors_words.specs.Words.{with_one, section_outcome, types_read, members_read, text_outcome, text_types, text_members};

use immediates_ranges::Slots;
use ir_records::Refusal;
use place_descent::Place;
use place_report::Totals;
use valid_type_info::UniformRule;

// Kept: `types`, `members`, `capabilities`, `rule`, `rows`, `ty`, `offset`, `start`, `steps`, `scratch`, `text`: the parameters of the calls are those of the C interface.

// ---- the calls by the rule that a word is, or number 1
// Kept: `check_by` and `judge_by`, and `slots_by` and `place_by`, differ in the call by the rule; one function would take it as a closure that says what it leaves in the rows.
fn check_by(
    types: &[u32],
    members: &[u32],
    capabilities: u32,
    rule: u32,
    rows: &mut [u32],
) -> Result<(), Refusal>
    ensures value { outcome_of result ≡ arena_answer (capabilities_by rule capabilities) types.now members.now rows.old }
    ensures rows_after { rows.new ≡ arena_words (rule_of rule) (capabilities_by rule capabilities) types.now members.now rows.old }
{
    let by = UniformRule::try_from(rule)?;
    valid_arena::check(types, members, capabilities, by, rows)
}

fn judge_by(
    types: &[u32],
    members: &[u32],
    capabilities: u32,
    rule: u32,
    rows: &mut [u32],
) -> Result<(), Refusal>
    ensures value { outcome_of result ≡ arena_answer (capabilities_by rule capabilities) types.now members.now rows.old }
    ensures rows_after { rows.new ≡ arena_words (rule_of rule) (capabilities_by rule capabilities) types.now members.now rows.old }
{
    let by = UniformRule::try_from(rule)?;
    valid_arena::judge(types, members, capabilities, by, rows)
}

// Kept: as check_by.
fn slots_by(
    types: &[u32],
    members: &[u32],
    capabilities: u32,
    rule: u32,
    rows: &mut [u32],
    ty: u32,
    offset: u32,
) -> Result<Slots, Refusal>
    ensures value { slots_answer_of result ≡ slots_answer (capabilities_by rule capabilities) types.now members.now rows.old ty offset }
    ensures rows_after { rows.new ≡ arena_words (rule_of rule) (capabilities_by rule capabilities) types.now members.now rows.old }
{
    let by = UniformRule::try_from(rule)?;
    immediates_slots::immediate_slots(types, members, capabilities, by, rows, ty, offset)
}

// Kept: as check_by.
fn place_by(
    types: &[u32],
    members: &[u32],
    capabilities: u32,
    rule: u32,
    rows: &mut [u32],
    start: u32,
    steps: &[u32],
) -> Result<Place, Refusal>
    ensures value { place_answer_of result ≡ lookup_answer (capabilities_by rule capabilities) types.now members.now rows.old start steps.now }
    ensures rows_after { rows.new ≡ arena_words (rule_of rule) (capabilities_by rule capabilities) types.now members.now rows.old }
{
    let by = UniformRule::try_from(rule)?;
    place_lookup::lookup(types, members, capabilities, by, rows, start, steps)
}

// Kept: as check_by.
fn report_by(
    types: &[u32],
    members: &[u32],
    capabilities: u32,
    rule: u32,
    rows: &mut [u32],
    report: &mut [u64],
) -> Result<Totals, Refusal>
    ensures value { report_answer_of result ≡ report_answer (capabilities_by rule capabilities) types.now members.now rows.old report.old }
    ensures rows_after { rows.new ≡ report_rows (rule_of rule) (capabilities_by rule capabilities) types.now members.now rows.old report.old }
    ensures report_after { report.new ≡ report_words (capabilities_by rule capabilities) types.now members.now rows.old report.old }
{
    let by = UniformRule::try_from(rule)?;
    place_report::report(types, members, capabilities, by, rows, report)
}

// ---- steps of a pass in three lent words, which a refused one leaves
fn set(pass: &mut [u64], offset: u32, size: u32) -> Result<(), Refusal>
    ensures value { outcome_of result ≡ (tried_in pass.old (SetRange offset size)).outcome }
    ensures pass_after { pass.new ≡ with_tried pass.old (tried_in pass.old (SetRange offset size)) }
{
    let before = doors_words::pass_of(pass)?;
    let after = immediates_pass::set_range(before, offset, size)?;
    doors_words::put_pass(pass, after);
    Ok(())
}

fn choose(
    types: &[u32],
    members: &[u32],
    capabilities: u32,
    rule: u32,
    rows: &mut [u32],
    ty: u32,
    pass: &mut [u64],
) -> Result<(), Refusal>
    ensures value { outcome_of result ≡ (tried_in pass.old (Choose (capabilities_by rule capabilities) types.now members.now rows.old ty)).outcome }
    ensures rows_after { rows.new ≡ pass_rows pass.old (rule_of rule) (capabilities_by rule capabilities) types.now members.now rows.old }
    ensures pass_after { pass.new ≡ with_tried pass.old (tried_in pass.old (Choose (capabilities_by rule capabilities) types.now members.now rows.old ty)) }
{
    let before = doors_words::pass_of(pass)?;
    let by = UniformRule::try_from(rule)?;
    let after = immediates_pass::choose(before, types, members, capabilities, by, rows, ty)?;
    doors_words::put_pass(pass, after);
    Ok(())
}

// The slots that are missing are zeros where no dispatch is tried.
fn dispatch(pass: &[u64], missing: &mut [u64]) -> Result<(), Refusal>
    ensures value { outcome_of result ≡ (tried_in pass.now Dispatch).outcome }
    ensures missing_after { missing.new ≡ with_one missing.old (tried_in pass.now Dispatch).missing }
{
    doors_words::put_one(missing, 0);
    let before = doors_words::pass_of(pass)?;
    let Err(reason) = immediates_pass::dispatch(before) else {
        return Ok(());
    };
    doors_words::put_one(missing, reason.missing);
    Err(Refusal::from(reason))
}

// Sizes and alignments of an arena, in the first two words of the lent rows.
pub fn wuldazin_layout(types: &[u32], members: &[u32], rows: &mut [u32], answer: &mut [u32])
    ensures rows_after { rows.new ≡ layout_words types.now members.now rows.old }
    ensures answer_after { answer.new ≡ with_answer answer.old (layout_answer types.now members.now rows.old) }
{
    let outcome = proc_layouter::layout(types, members, rows);
    doors_words::put_answer(answer, &outcome);
}

// Kept: `wuldazin_check` and `wuldazin_judge` are two names of the C interface, each with its clauses where its caller reads them; one function for both, with the call as a closure, would stand beside the two and shorten neither signature.
// The arena check.
pub fn wuldazin_check(
    types: &[u32],
    members: &[u32],
    capabilities: u32,
    rule: u32,
    rows: &mut [u32],
    answer: &mut [u32],
)
    ensures rows_after { rows.new ≡ arena_words (rule_of rule) (capabilities_by rule capabilities) types.now members.now rows.old }
    ensures answer_after { answer.new ≡ with_answer answer.old (arena_answer (capabilities_by rule capabilities) types.now members.now rows.old) }
{
    let outcome = check_by(types, members, capabilities, rule, rows);
    doors_words::put_answer(answer, &outcome);
}

// Judging: the same answer and words as the arena check, in one pass over rows that may hold anything.
pub fn wuldazin_judge(
    types: &[u32],
    members: &[u32],
    capabilities: u32,
    rule: u32,
    rows: &mut [u32],
    answer: &mut [u32],
)
    ensures rows_after { rows.new ≡ arena_words (rule_of rule) (capabilities_by rule capabilities) types.now members.now rows.old }
    ensures answer_after { answer.new ≡ with_answer answer.old (arena_answer (capabilities_by rule capabilities) types.now members.now rows.old) }
{
    let outcome = judge_by(types, members, capabilities, rule, rows);
    doors_words::put_answer(answer, &outcome);
}

// Kept: `wuldazin_range` and `wuldazin_plain` are exported calls over answers of their own.
// The slots of a range given as two numbers: those touched, and those covered only in part.
pub fn wuldazin_range(offset: u32, size: u32, mask: &mut [u64], answer: &mut [u32])
    ensures mask_after { mask.new ≡ with_masks mask.old (part_answer (range_slots offset size)) }
    ensures answer_after { answer.new ≡ with_answer answer.old (slots_outcome (part_answer (range_slots offset size))) }
{
    let found = immediates_ranges::range(offset, size);
    doors_words::put_masks(mask, found);
    doors_words::put_answer(answer, &found);
}

// Kept: `wuldazin_slots` and `wuldazin_place` are exported calls; each makes its own, and puts an answer of its own.
// The slots of a type of an arena from an offset on: those touched, and those that a part covers only in part.
pub fn wuldazin_slots(
    types: &[u32],
    members: &[u32],
    capabilities: u32,
    rule: u32,
    rows: &mut [u32],
    ty: u32,
    offset: u32,
    mask: &mut [u64],
    answer: &mut [u32],
)
    ensures rows_after { rows.new ≡ arena_words (rule_of rule) (capabilities_by rule capabilities) types.now members.now rows.old }
    ensures mask_after { mask.new ≡ with_masks mask.old (slots_answer (capabilities_by rule capabilities) types.now members.now rows.old ty offset) }
    ensures answer_after { answer.new ≡
        with_answer answer.old (slots_outcome (slots_answer (capabilities_by rule capabilities) types.now members.now rows.old ty offset)) }
{
    let found = slots_by(types, members, capabilities, rule, rows, ty, offset);
    doors_words::put_masks(mask, found);
    doors_words::put_answer(answer, &found);
}

// Whether every slot of other is one of this.
pub fn wuldazin_contains(this: u64, other: u64) -> bool
    ensures { result ≡ contains this other }
{
    immediates_ranges::contains_all(this, other)
}

// The slots of this that are not in other.
pub fn wuldazin_difference(this: u64, other: u64) -> u64
    ensures { result ≡ difference this other }
{
    immediates_ranges::difference_of(this, other)
}

// The slots of either.
pub fn wuldazin_union(this: u64, other: u64) -> u64
    ensures { result ≡ union this other }
{
    immediates_ranges::union_of(this, other)
}

// The byte place and the type of the leaf that steps lead to.
pub fn wuldazin_place(
    types: &[u32],
    members: &[u32],
    capabilities: u32,
    rule: u32,
    rows: &mut [u32],
    start: u32,
    steps: &[u32],
    place: &mut [u64],
    answer: &mut [u32],
)
    ensures rows_after { rows.new ≡ arena_words (rule_of rule) (capabilities_by rule capabilities) types.now members.now rows.old }
    ensures place_after { place.new ≡
        with_two place.old (byte_of (lookup_answer (capabilities_by rule capabilities) types.now members.now rows.old start steps.now))
        (leaf_of (lookup_answer (capabilities_by rule capabilities) types.now members.now rows.old start steps.now)) }
    ensures answer_after { answer.new ≡
        with_answer answer.old (place_outcome (lookup_answer (capabilities_by rule capabilities) types.now members.now rows.old start steps.now)) }
{
    let found = place_by(types, members, capabilities, rule, rows, start, steps);
    doors_words::put_place(place, found);
    doors_words::put_answer(answer, &found);
}

// The same by three words for each type.
// Kept: `scratch.new ≡ short_words capabilities types.now members.now scratch.old`: as in place_short, each call that judges first says so of its scratch.
pub fn wuldazin_place_short(
    types: &[u32],
    members: &[u32],
    capabilities: u32,
    scratch: &mut [u32],
    start: u32,
    steps: &[u32],
    place: &mut [u64],
    answer: &mut [u32],
)
    ensures scratch_after { scratch.new ≡ short_words capabilities types.now members.now scratch.old }
    ensures place_after { place.new ≡
        with_two place.old (byte_of (short_lookup capabilities types.now members.now scratch.old start steps.now))
        (leaf_of (short_lookup capabilities types.now members.now scratch.old start steps.now)) }
    ensures answer_after { answer.new ≡ with_answer answer.old (place_outcome (short_lookup capabilities types.now members.now scratch.old start steps.now)) }
{
    let found = place_short::lookup(types, members, capabilities, scratch, start, steps);
    doors_words::put_place(place, found);
    doors_words::put_answer(answer, &found);
}

// The places of many runs of steps, two words for each in `found`.
pub fn wuldazin_places(
    types: &[u32],
    members: &[u32],
    capabilities: u32,
    scratch: &mut [u32],
    runs: &[u32],
    found: &mut [u64],
    answer: &mut [u32],
)
    ensures scratch_after { scratch.new ≡ places_scratch capabilities types.now members.now scratch.old runs.now found.old }
    ensures found_after { found.new ≡ places_words capabilities types.now members.now scratch.old runs.now found.old }
    ensures answer_after { answer.new ≡ with_answer answer.old (places_answer capabilities types.now members.now scratch.old runs.now found.old) }
{
    let outcome = place_runs::places(types, members, capabilities, scratch, runs, found);
    doors_words::put_answer(answer, &outcome);
}

// The bytes carried and the bytes wasted of each host-shareable struct, two words a type, and the totals over all.
pub fn wuldazin_report(
    types: &[u32],
    members: &[u32],
    capabilities: u32,
    rule: u32,
    rows: &mut [u32],
    report: &mut [u64],
    totals: &mut [u64],
    answer: &mut [u32],
)
    ensures rows_after { rows.new ≡ report_rows (rule_of rule) (capabilities_by rule capabilities) types.now members.now rows.old report.old }
    ensures report_after { report.new ≡ report_words (capabilities_by rule capabilities) types.now members.now rows.old report.old }
    ensures totals_after { totals.new ≡
        with_two totals.old (carried_of (report_answer (capabilities_by rule capabilities) types.now members.now rows.old report.old))
        (wasted_of (report_answer (capabilities_by rule capabilities) types.now members.now rows.old report.old)) }
    ensures answer_after { answer.new ≡
        with_answer answer.old (totals_outcome (report_answer (capabilities_by rule capabilities) types.now members.now rows.old report.old)) }
{
    let found = report_by(types, members, capabilities, rule, rows, report);
    doors_words::put_totals(totals, found);
    doors_words::put_answer(answer, &found);
}

// A pass with no slot set and no pipeline.
pub fn wuldazin_pass_start(pass: &mut [u64])
    ensures { pass.new ≡ with_pass pass.old begin }
{
    doors_words::put_pass(pass, immediates_pass::start());
}

// Sets a byte range of immediates.
pub fn wuldazin_pass_set(pass: &mut [u64], offset: u32, size: u32, answer: &mut [u32])
    ensures pass_after { pass.new ≡ with_tried pass.old (tried_in pass.old (SetRange offset size)) }
    ensures answer_after { answer.new ≡ with_answer answer.old (tried_in pass.old (SetRange offset size)).outcome }
{
    let outcome = set(pass, offset, size);
    doors_words::put_answer(answer, &outcome);
}

// Chooses a pipeline by its immediate type.
pub fn wuldazin_pass_choose(
    types: &[u32],
    members: &[u32],
    capabilities: u32,
    rule: u32,
    rows: &mut [u32],
    ty: u32,
    pass: &mut [u64],
    answer: &mut [u32],
)
    ensures rows_after { rows.new ≡ pass_rows pass.old (rule_of rule) (capabilities_by rule capabilities) types.now members.now rows.old }
    ensures pass_after { pass.new ≡ with_tried pass.old (tried_in pass.old (Choose (capabilities_by rule capabilities) types.now members.now rows.old ty)) }
    ensures answer_after { answer.new ≡
        with_answer answer.old (tried_in pass.old (Choose (capabilities_by rule capabilities) types.now members.now rows.old ty)).outcome }
{
    let outcome = choose(types, members, capabilities, rule, rows, ty, pass);
    doors_words::put_answer(answer, &outcome);
}

// Whether the pass may be dispatched, and the slots that it misses.
pub fn wuldazin_pass_dispatch(pass: &[u64], missing: &mut [u64], answer: &mut [u32])
    ensures missing_after { missing.new ≡ with_one missing.old (tried_in pass.now Dispatch).missing }
    ensures answer_after { answer.new ≡ with_answer answer.old (tried_in pass.now Dispatch).outcome }
{
    let outcome = dispatch(pass, missing);
    doors_words::put_answer(answer, &outcome);
}

// Size, alignment and column step of a shape at a width.
pub fn wuldazin_plain(shape: u32, width: u32, numbers: &mut [u32], answer: &mut [u32])
    ensures numbers_after { numbers.new ≡ with_numbers numbers.old (plain_answer shape width) }
    ensures answer_after { answer.new ≡ with_answer answer.old (plain_outcome (plain_answer shape width)) }
{
    let found = proc_plain_types::plain(shape, width);
    doors_words::put_numbers(numbers, found);
    doors_words::put_answer(answer, &found);
}

// The part of the member table that the rows of struct ty are: its first word and how many words it has.
pub fn wuldazin_members(types: &[u32], members: &[u32], ty: u32, part: &mut [u64])
    ensures { part.new ≡ with_two part.old (part_start types.now members.now ty) (part_length types.now members.now ty) }
{
    let rows = ir_records::struct_members(types, members, ty);
    let count = rows.len();
    doors_words::put_two(part, part_start(types, ty, count), count as u64);
}

fn part_start(types: &[u32], ty: u32, count: usize) -> u64
    ensures { result ≡ pick (eqb count 0) 0 (type_word types.now ty 1 * member_words) }
{
    if count == 0 {
        return 0;
    }
    (ir_records::type_word(types, ty, 1) as u64) * (ir_records::MEMBER_WORDS as u64)
}

// Kept: `wuldazin_read_spirv` and `wuldazin_read_wgsl` are exported calls over readers with definitions of their own.
// The type section of a SPIR-V module, into lent type and member records; how many of each.
pub fn wuldazin_read_spirv(
    words: &[u32],
    types: &mut [u32],
    members: &mut [u32],
    counts: &mut [u32],
    answer: &mut [u32],
)
    ensures types_after { types.new ≡ types_after (read_into words.now types.old members.old) types.old }
    ensures members_after { members.new ≡ members_after (read_into words.now types.old members.old) members.old }
    ensures counts_after { counts.new ≡
        with_two counts.old (types_read (section_of (read_into words.now types.old members.old)))
        (members_read (section_of (read_into words.now types.old members.old))) }
    ensures answer_after { answer.new ≡ with_answer answer.old (section_outcome (section_of (read_into words.now types.old members.old))) }
{
    let section = spirv_reader::read_module(words, types, members);
    doors_words::put_records(counts, section);
    doors_words::put_read(answer, section);
}

// The records of a WGSL text, and how many there are of each.
// Kept: the C interface lends both tables, and what the reader leaves in them is what this call promises, as each caller of a reader does.
pub fn wuldazin_read_wgsl(
    text: &[u8],
    types: &mut [u32],
    members: &mut [u32],
    counts: &mut [u32],
    answer: &mut [u32],
)
    ensures types_after { types.new ≡ types_left (text_of (length types.old) (length members.old) text.now) types.old }
    ensures members_after { members.new ≡ members_left (text_of (length types.old) (length members.old) text.now) members.old }
    ensures counts_after { counts.new ≡
        with_two counts.old (text_types (answer_of (text_of (length types.old) (length members.old) text.now)))
        (text_members (answer_of (text_of (length types.old) (length members.old) text.now))) }
    ensures answer_after { answer.new ≡ with_answer answer.old (text_outcome (answer_of (text_of (length types.old) (length members.old) text.now))) }
{
    let found = wgsl_read::read(text, types, members);
    doors_words::put_records(counts, found);
    doors_words::put_read(answer, found);
}

// Kept: the parameters are those of the C interface, which lends a table with its length and says how many of its records are in use.
// The first order of the wanted types that has at most the span, as a struct behind the records in use.
pub fn wuldazin_order(
    types: &mut [u32],
    n: u32,
    members: &mut [u32],
    m: u32,
    capabilities: u32,
    rule: u32,
    rows: &mut [u32],
    wanted: &[u32],
    span: u32,
    found: &mut [u32],
    answer: &mut [u32],
)
    ensures types_after { types.new ≡ (ordered (rule_of rule) (capabilities_by rule capabilities) types.old n members.old m rows.old wanted.now span).types }
    ensures members_after { members.new ≡
        (ordered (rule_of rule) (capabilities_by rule capabilities) types.old n members.old m rows.old wanted.now span).members }
    ensures rows_after { rows.new ≡ (ordered (rule_of rule) (capabilities_by rule capabilities) types.old n members.old m rows.old wanted.now span).rows }
    ensures found_after { found.new ≡
        with_found found.old (length wanted.now)
        (ordered (rule_of rule) (capabilities_by rule capabilities) types.old n members.old m rows.old wanted.now span).answer }
    ensures answer_after { answer.new ≡
        with_answer answer.old (order_outcome
        (ordered (rule_of rule) (capabilities_by rule capabilities) types.old n members.old m rows.old wanted.now span).answer) }
{
    doors_order::order_into(
        types,
        n,
        members,
        m,
        capabilities,
        rule,
        rows,
        wanted,
        span,
        found,
        answer,
    );
}
