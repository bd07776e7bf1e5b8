// The static library: the calls of doors with C's calling convention. A slice is a pointer and a length.
// Kept: signatures and clauses as in doors: the C interface needs each exported function, which is declared with clauses of its own; a macro writes no function with clauses.
#![tactic(auto)]

ghost use Rattle.std.specs.Prelude.{◌≡◌, length};
ghost use Rattle.proc_layouter.specs.Layouter.{layout_answer, layout_words};
ghost use Rattle.valid_rule_word.specs.RuleWord.{rule_of, capabilities_by};
ghost use Rattle.valid_arena.specs.Arena.{arena_answer, arena_words};
ghost use Rattle.immediates_ranges.specs.Slots.{range_slots, part_answer, contains, difference, union};
ghost use Rattle.immediates_slots.specs.Immediates.{slots_answer};
ghost use Rattle.immediates_pass.specs.Pass.{begin, SetRange, Choose, Dispatch};
ghost use Rattle.place_lookup.specs.Place.{lookup_answer};
ghost use Rattle.place_short.specs.Short.{short_lookup, short_words};
ghost use Rattle.place_runs.specs.Places.{places_answer, places_scratch, places_words};
ghost use Rattle.proc_plain_types.specs.PlainTypes.{plain_answer};
ghost use Rattle.place_report.specs.Report.{report_answer, report_rows, report_words};
ghost use Rattle.spirv_read.specs.Read.{read_into, section_of, types_after, members_after};
ghost use Rattle.wgsl_read.specs.Text.{text_of, answer_of, types_left, members_left};
ghost use Rattle.order_call.specs.Call.{ordered};
ghost use Rattle.order_words.specs.Words.{order_outcome, with_found};
ghost use Rattle.doors_words.specs.Words.{slots_outcome, place_outcome, totals_outcome, plain_outcome, byte_of, leaf_of, carried_of, wasted_of, part_start};
ghost use Rattle.doors_words.specs.Words.{part_length, with_answer, with_two, with_numbers, with_masks, with_pass, with_tried, tried_in, pass_rows};
ghost use Rattle.doors_words.specs.Words.{with_one, section_outcome, types_read, members_read, text_outcome, text_types, text_members};

// Sizes and alignments of an arena, in the first two words of the lent rows.
#[unsafe(no_mangle)]
pub extern "C" fn wuldazin_layout(
    types: &[u32],
    members: &[u32],
    rows: &mut [u32],
    answer: &mut [u32],
)
    ensures rows_after { rows.new ≡ layout_words types.now members.now rows.old }
    ensures answer_after { answer.new ≡ with_answer answer.old (layout_answer types.now members.now rows.old) }
{
    doors::wuldazin_layout(types, members, rows, answer);
}

// The arena check.
#[unsafe(no_mangle)]
pub extern "C" fn wuldazin_check(
    types: &[u32],
    members: &[u32],
    capabilities: u32,
    rule: u32,
    rows: &mut [u32],
    answer: &mut [u32],
)
    ensures rows_after { rows.new ≡ arena_words (rule_of rule) (capabilities_by rule capabilities) types.now members.now rows.old }
    ensures answer_after { answer.new ≡ with_answer answer.old (arena_answer (capabilities_by rule capabilities) types.now members.now rows.old) }
{
    doors::wuldazin_check(types, members, capabilities, rule, rows, answer);
}

// Judging: the same answer and words as the arena check, in one pass over rows that may hold anything.
#[unsafe(no_mangle)]
pub extern "C" fn wuldazin_judge(
    types: &[u32],
    members: &[u32],
    capabilities: u32,
    rule: u32,
    rows: &mut [u32],
    answer: &mut [u32],
)
    ensures rows_after { rows.new ≡ arena_words (rule_of rule) (capabilities_by rule capabilities) types.now members.now rows.old }
    ensures answer_after { answer.new ≡ with_answer answer.old (arena_answer (capabilities_by rule capabilities) types.now members.now rows.old) }
{
    doors::wuldazin_judge(types, members, capabilities, rule, rows, answer);
}

// The slots of a range given as two numbers: those touched, and those covered only in part.
#[unsafe(no_mangle)]
pub extern "C" fn wuldazin_range(offset: u32, size: u32, mask: &mut [u64], answer: &mut [u32])
    ensures mask_after { mask.new ≡ with_masks mask.old (part_answer (range_slots offset size)) }
    ensures answer_after { answer.new ≡ with_answer answer.old (slots_outcome (part_answer (range_slots offset size))) }
{
    doors::wuldazin_range(offset, size, mask, answer);
}

// The slots of a type of an arena from an offset on: those touched, and those that a part covers only in part.
#[unsafe(no_mangle)]
pub extern "C" fn wuldazin_slots(
    types: &[u32],
    members: &[u32],
    capabilities: u32,
    rule: u32,
    rows: &mut [u32],
    ty: u32,
    offset: u32,
    mask: &mut [u64],
    answer: &mut [u32],
)
    ensures rows_after { rows.new ≡ arena_words (rule_of rule) (capabilities_by rule capabilities) types.now members.now rows.old }
    ensures mask_after { mask.new ≡ with_masks mask.old (slots_answer (capabilities_by rule capabilities) types.now members.now rows.old ty offset) }
    ensures answer_after { answer.new ≡
        with_answer answer.old (slots_outcome (slots_answer (capabilities_by rule capabilities) types.now members.now rows.old ty offset)) }
{
    doors::wuldazin_slots(
        types,
        members,
        capabilities,
        rule,
        rows,
        ty,
        offset,
        mask,
        answer,
    );
}

// Whether every slot of other is one of this.
#[unsafe(no_mangle)]
pub extern "C" fn wuldazin_contains(this: u64, other: u64) -> bool
    ensures { result ≡ contains this other }
{
    doors::wuldazin_contains(this, other)
}

// The slots of this that are not in other.
#[unsafe(no_mangle)]
pub extern "C" fn wuldazin_difference(this: u64, other: u64) -> u64
    ensures { result ≡ difference this other }
{
    doors::wuldazin_difference(this, other)
}

// The slots of either.
#[unsafe(no_mangle)]
pub extern "C" fn wuldazin_union(this: u64, other: u64) -> u64
    ensures { result ≡ union this other }
{
    doors::wuldazin_union(this, other)
}

// The byte place and the type of the leaf that steps lead to.
#[unsafe(no_mangle)]
pub extern "C" fn wuldazin_place(
    types: &[u32],
    members: &[u32],
    capabilities: u32,
    rule: u32,
    rows: &mut [u32],
    start: u32,
    steps: &[u32],
    place: &mut [u64],
    answer: &mut [u32],
)
    ensures rows_after { rows.new ≡ arena_words (rule_of rule) (capabilities_by rule capabilities) types.now members.now rows.old }
    ensures place_after { place.new ≡
        with_two place.old (byte_of (lookup_answer (capabilities_by rule capabilities) types.now members.now rows.old start steps.now))
        (leaf_of (lookup_answer (capabilities_by rule capabilities) types.now members.now rows.old start steps.now)) }
    ensures answer_after { answer.new ≡
        with_answer answer.old (place_outcome (lookup_answer (capabilities_by rule capabilities) types.now members.now rows.old start steps.now)) }
{
    doors::wuldazin_place(
        types,
        members,
        capabilities,
        rule,
        rows,
        start,
        steps,
        place,
        answer,
    );
}

// The same by three words for each type.
#[unsafe(no_mangle)]
pub extern "C" fn wuldazin_place_short(
    types: &[u32],
    members: &[u32],
    capabilities: u32,
    scratch: &mut [u32],
    start: u32,
    steps: &[u32],
    place: &mut [u64],
    answer: &mut [u32],
)
    ensures scratch_after { scratch.new ≡ short_words capabilities types.now members.now scratch.old }
    ensures place_after { place.new ≡
        with_two place.old (byte_of (short_lookup capabilities types.now members.now scratch.old start steps.now))
        (leaf_of (short_lookup capabilities types.now members.now scratch.old start steps.now)) }
    ensures answer_after { answer.new ≡ with_answer answer.old (place_outcome (short_lookup capabilities types.now members.now scratch.old start steps.now)) }
{
    doors::wuldazin_place_short(
        types,
        members,
        capabilities,
        scratch,
        start,
        steps,
        place,
        answer,
    );
}

// The places of many runs of steps, two words for each in `found`.
#[unsafe(no_mangle)]
pub extern "C" fn wuldazin_places(
    types: &[u32],
    members: &[u32],
    capabilities: u32,
    scratch: &mut [u32],
    runs: &[u32],
    found: &mut [u64],
    answer: &mut [u32],
)
    ensures scratch_after { scratch.new ≡ places_scratch capabilities types.now members.now scratch.old runs.now found.old }
    ensures found_after { found.new ≡ places_words capabilities types.now members.now scratch.old runs.now found.old }
    ensures answer_after { answer.new ≡ with_answer answer.old (places_answer capabilities types.now members.now scratch.old runs.now found.old) }
{
    doors::wuldazin_places(types, members, capabilities, scratch, runs, found, answer);
}

// The bytes carried and the bytes wasted of each host-shareable struct, two words a type, and the totals over all.
#[unsafe(no_mangle)]
pub extern "C" fn wuldazin_report(
    types: &[u32],
    members: &[u32],
    capabilities: u32,
    rule: u32,
    rows: &mut [u32],
    report: &mut [u64],
    totals: &mut [u64],
    answer: &mut [u32],
)
    ensures rows_after { rows.new ≡ report_rows (rule_of rule) (capabilities_by rule capabilities) types.now members.now rows.old report.old }
    ensures report_after { report.new ≡ report_words (capabilities_by rule capabilities) types.now members.now rows.old report.old }
    ensures totals_after { totals.new ≡
        with_two totals.old (carried_of (report_answer (capabilities_by rule capabilities) types.now members.now rows.old report.old))
        (wasted_of (report_answer (capabilities_by rule capabilities) types.now members.now rows.old report.old)) }
    ensures answer_after { answer.new ≡
        with_answer answer.old (totals_outcome (report_answer (capabilities_by rule capabilities) types.now members.now rows.old report.old)) }
{
    doors::wuldazin_report(
        types,
        members,
        capabilities,
        rule,
        rows,
        report,
        totals,
        answer,
    );
}

// A pass with no slot set and no pipeline.
#[unsafe(no_mangle)]
pub extern "C" fn wuldazin_pass_start(pass: &mut [u64])
    ensures { pass.new ≡ with_pass pass.old begin }
{
    doors::wuldazin_pass_start(pass);
}

// Sets a byte range of immediates.
#[unsafe(no_mangle)]
pub extern "C" fn wuldazin_pass_set(pass: &mut [u64], offset: u32, size: u32, answer: &mut [u32])
    ensures pass_after { pass.new ≡ with_tried pass.old (tried_in pass.old (SetRange offset size)) }
    ensures answer_after { answer.new ≡ with_answer answer.old (tried_in pass.old (SetRange offset size)).outcome }
{
    doors::wuldazin_pass_set(pass, offset, size, answer);
}

// Chooses a pipeline by its immediate type.
#[unsafe(no_mangle)]
pub extern "C" fn wuldazin_pass_choose(
    types: &[u32],
    members: &[u32],
    capabilities: u32,
    rule: u32,
    rows: &mut [u32],
    ty: u32,
    pass: &mut [u64],
    answer: &mut [u32],
)
    ensures rows_after { rows.new ≡ pass_rows pass.old (rule_of rule) (capabilities_by rule capabilities) types.now members.now rows.old }
    ensures pass_after { pass.new ≡ with_tried pass.old (tried_in pass.old (Choose (capabilities_by rule capabilities) types.now members.now rows.old ty)) }
    ensures answer_after { answer.new ≡
        with_answer answer.old (tried_in pass.old (Choose (capabilities_by rule capabilities) types.now members.now rows.old ty)).outcome }
{
    doors::wuldazin_pass_choose(types, members, capabilities, rule, rows, ty, pass, answer);
}

// Whether the pass may be dispatched, and the slots that it misses.
#[unsafe(no_mangle)]
pub extern "C" fn wuldazin_pass_dispatch(pass: &[u64], missing: &mut [u64], answer: &mut [u32])
    ensures missing_after { missing.new ≡ with_one missing.old (tried_in pass.now Dispatch).missing }
    ensures answer_after { answer.new ≡ with_answer answer.old (tried_in pass.now Dispatch).outcome }
{
    doors::wuldazin_pass_dispatch(pass, missing, answer);
}

// Size, alignment and column step of a shape at a width.
#[unsafe(no_mangle)]
pub extern "C" fn wuldazin_plain(shape: u32, width: u32, numbers: &mut [u32], answer: &mut [u32])
    ensures numbers_after { numbers.new ≡ with_numbers numbers.old (plain_answer shape width) }
    ensures answer_after { answer.new ≡ with_answer answer.old (plain_outcome (plain_answer shape width)) }
{
    doors::wuldazin_plain(shape, width, numbers, answer);
}

// The part of the member table that the rows of struct ty are: its first word and how many words it has.
#[unsafe(no_mangle)]
pub extern "C" fn wuldazin_members(types: &[u32], members: &[u32], ty: u32, part: &mut [u64])
    ensures { part.new ≡ with_two part.old (part_start types.now members.now ty) (part_length types.now members.now ty) }
{
    doors::wuldazin_members(types, members, ty, part);
}

// The type section of a SPIR-V module, into lent type and member records; how many of each.
#[unsafe(no_mangle)]
pub extern "C" fn wuldazin_read_spirv(
    words: &[u32],
    types: &mut [u32],
    members: &mut [u32],
    counts: &mut [u32],
    answer: &mut [u32],
)
    ensures types_after { types.new ≡ types_after (read_into words.now types.old members.old) types.old }
    ensures members_after { members.new ≡ members_after (read_into words.now types.old members.old) members.old }
    ensures counts_after { counts.new ≡
        with_two counts.old (types_read (section_of (read_into words.now types.old members.old)))
        (members_read (section_of (read_into words.now types.old members.old))) }
    ensures answer_after { answer.new ≡ with_answer answer.old (section_outcome (section_of (read_into words.now types.old members.old))) }
{
    doors::wuldazin_read_spirv(words, types, members, counts, answer);
}

// The records of a WGSL text, and how many there are of each.
#[unsafe(no_mangle)]
pub extern "C" fn wuldazin_read_wgsl(
    text: &[u8],
    types: &mut [u32],
    members: &mut [u32],
    counts: &mut [u32],
    answer: &mut [u32],
)
    ensures types_after { types.new ≡ types_left (text_of (length types.old) (length members.old) text.now) types.old }
    ensures members_after { members.new ≡ members_left (text_of (length types.old) (length members.old) text.now) members.old }
    ensures counts_after { counts.new ≡
        with_two counts.old (text_types (answer_of (text_of (length types.old) (length members.old) text.now)))
        (text_members (answer_of (text_of (length types.old) (length members.old) text.now))) }
    ensures answer_after { answer.new ≡ with_answer answer.old (text_outcome (answer_of (text_of (length types.old) (length members.old) text.now))) }
{
    doors::wuldazin_read_wgsl(text, types, members, counts, answer);
}

// The first order of the wanted types that has at most the span, as a struct behind the records in use.
#[unsafe(no_mangle)]
pub extern "C" fn wuldazin_order(
    types: &mut [u32],
    n: u32,
    members: &mut [u32],
    m: u32,
    capabilities: u32,
    rule: u32,
    rows: &mut [u32],
    wanted: &[u32],
    span: u32,
    found: &mut [u32],
    answer: &mut [u32],
)
    ensures types_after { types.new ≡ (ordered (rule_of rule) (capabilities_by rule capabilities) types.old n members.old m rows.old wanted.now span).types }
    ensures members_after { members.new ≡
        (ordered (rule_of rule) (capabilities_by rule capabilities) types.old n members.old m rows.old wanted.now span).members }
    ensures rows_after { rows.new ≡ (ordered (rule_of rule) (capabilities_by rule capabilities) types.old n members.old m rows.old wanted.now span).rows }
    ensures found_after { found.new ≡
        with_found found.old (length wanted.now)
        (ordered (rule_of rule) (capabilities_by rule capabilities) types.old n members.old m rows.old wanted.now span).answer }
    ensures answer_after { answer.new ≡
        with_answer answer.old (order_outcome
        (ordered (rule_of rule) (capabilities_by rule capabilities) types.old n members.old m rows.old wanted.now span).answer) }
{
    doors::wuldazin_order(
        types,
        n,
        members,
        m,
        capabilities,
        rule,
        rows,
        wanted,
        span,
        found,
        answer,
    );
}
