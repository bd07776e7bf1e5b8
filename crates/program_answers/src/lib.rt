// The answer to a line: the session and its memory after it, and the bytes that are put.
#![tactic(auto)]

ghost use Rattle.std.specs.Prelude.{◌≡◌, ◌≤◌, IfOk, length, replicate};
ghost use Rattle.ir_records.specs.Outcome.{Accepted};
ghost use Rattle.order_call.specs.Answer.{order_answer_of};
ghost use Rattle.program_lines.specs.Said.{step_said, query_said, said};
ghost use Rattle.program_output.specs.Bytes.{Adds};
ghost use Rattle.program_output.specs.Answers.{outcome_lines, place_line, totals_lines};
ghost use Rattle.program_output.specs.Written.{Sends};
ghost use Rattle.program_commands.specs.Commands.{part_of};
ghost use Rattle.program_answers.specs.Answered.{held, own_rows, after_layout, after_check, after_members, after_slots, after_range};
ghost use Rattle.program_answers.specs.Answered.{after_place, after_short, after_report, after_plain, after_set, after_choose, after_run};
ghost use Rattle.program_answers.specs.Answered.{arena_left, left_in, after_order, after_line, answered};
ghost use Rattle.program_answers.specs.Serving.{Told};

use ir_records::{Records, Refusal};
use order_call::OrderedStruct;
use place_descent::Place;
use place_report::Totals;
use program_commands::{Arena, Rows, Session};
use program_lines::{Line, Query, Step};
use program_output::Output;
use std::io::Write;
use valid_type_info::UniformRule;

/// A session, and the memory that it works in. It is not Copy: a copy of so much memory would be a mistake.
#[derive(Drop)]
pub struct Program {
    pub session: Session,
    pub arena: Arena,
    pub rows: Rows,
    pub out: Output,
}

// There is room for any answer: the longest are 1,024 rows and 4,096 members, of fewer than 200,000 bytes.
const LONGEST: usize = 262144;

/// So many zeros, as a program's memory begins.
// Kept: beside `program_files::filled`, whose contract says each item and no list, so that no proof writes out a million of them.
pub fn zeros<const N: usize>() -> [u32; N]
    ensures { result ≡ replicate N 0 }
{
    [0; N]
}

// The first words; none where they are not all there.
#[tactic(auto, unfolding(program_commands::specs::Commands::part_of))]
fn first_words(words: &[u32], end: usize) -> &[u32]
    ensures { result.now ≡ part_of words.now 0 end }
{
    words.get(..end).unwrap_or(&[])
}

fn put_place(place: Place, out: &mut Output)
    ensures { Adds out.old (place_line place.byte place.leaf) out.new }
{
    out.put_two(b"place", place.byte, u64::from(place.leaf));
}

// The totals, then a line for each type: its number and its two of the first words of the report.
fn put_report(totals: Totals, report: &[u64], end: usize, out: &mut Output)
    ensures { Adds out.old (totals_lines totals.carried totals.wasted (part_of report.now 0 end)) out.new }
{
    out.put_two(b"report", totals.carried, totals.wasted);
    out.put_report_lines(report.get(..end).unwrap_or(&[]));
}

// Kept: `capabilities, rule, rows`: they are parts of `Program`, whose arena is lent beside them.
// An order over an arena, of whose records so many are held.
fn order_in(
    arena: &mut [u32],
    had: Records,
    capabilities: u32,
    rule: UniformRule,
    rows: &mut [u32],
    given: &[u32],
    span: u32,
) -> Result<OrderedStruct, Refusal>
    requires { 6144 ≤ length arena.old }
    ensures places { IfOk result (λ o. o.order.n ≡ length given.now) }
    ensures value { order_answer_of result ≡ (left_in rule capabilities arena.old had.types had.members rows.old given.now span).answer }
    ensures arena_after { arena.new ≡ arena_left (left_in rule capabilities arena.old had.types had.members rows.old given.now span) }
    ensures rows_after { rows.new ≡ (left_in rule capabilities arena.old had.types had.members rows.old given.now span).rows }
{
    let (types, members) = arena.split_at_mut(program_commands::MEMBERS_AT);
    order_call::order(
        types,
        had.types,
        members,
        had.members,
        capabilities,
        rule,
        rows,
        given,
        span,
    )
}

impl Program {
    // That the arena is accepted, and the rows of its types.
    fn put_accepted(&mut self)
        ensures after { held self.new ≡ held self.old }
        ensures told { Adds self.old.out (outcome_lines Accepted (own_rows (held self.old) self.old.rows)) self.new.out }
    {
        let end = ir_records::type_count(self.session.types_in(&self.arena))
            * ir_records::ROW_WORDS;
        self.out.put_accepted(first_words(&self.rows, end));
    }

    #[tactic(auto, unfolding(crate::specs::Answered::after_layout))]
    fn layout(&mut self) -> Result<(), Refusal>
        ensures after { held self.new ≡ (after_layout (held self.old)).held }
        ensures told { Told result self.old.out (after_layout (held self.old)).bytes self.new.out }
    {
        proc_layouter::layout(
            self.session.types_in(&self.arena),
            self.session.members_in(&self.arena),
            &mut self.rows,
        )?;
        self.put_accepted();
        Ok(())
    }

    // Kept: `judge` and `check` differ in the call that they make; one function would take it as a closure, with all that it lends, for two callers.
    #[tactic(auto, unfolding(crate::specs::Answered::after_check))]
    fn judge(&mut self) -> Result<(), Refusal>
        ensures after { held self.new ≡ (after_check (held self.old)).held }
        ensures told { Told result self.old.out (after_check (held self.old)).bytes self.new.out }
    {
        let rule = self.session.rule?;
        valid_arena::judge(
            self.session.types_in(&self.arena),
            self.session.members_in(&self.arena),
            self.session.capabilities,
            rule,
            &mut self.rows,
        )?;
        self.put_accepted();
        Ok(())
    }

    // Kept: `judge` and `check` differ in the call that they make; one function would take it as a closure, with all that it lends, for two callers.
    #[tactic(auto, unfolding(crate::specs::Answered::after_check))]
    fn check(&mut self) -> Result<(), Refusal>
        ensures after { held self.new ≡ (after_check (held self.old)).held }
        ensures told { Told result self.old.out (after_check (held self.old)).bytes self.new.out }
    {
        let rule = self.session.rule?;
        valid_arena::check(
            self.session.types_in(&self.arena),
            self.session.members_in(&self.arena),
            self.session.capabilities,
            rule,
            &mut self.rows,
        )?;
        self.put_accepted();
        Ok(())
    }

    #[tactic(auto, unfolding(crate::specs::Answered::after_members))]
    fn members(&mut self, ty: u32)
        ensures after { held self.new ≡ (after_members ty (held self.old)).held }
        ensures told { Adds self.old.out (after_members ty (held self.old)).bytes self.new.out }
    {
        self.out.put_words(
            b"members",
            ir_records::struct_members(
                self.session.types_in(&self.arena),
                self.session.members_in(&self.arena),
                ty,
            ),
        );
    }

    #[tactic(auto, unfolding(crate::specs::Answered::after_slots))]
    fn slots(&mut self, ty: u32, offset: u32) -> Result<(), Refusal>
        ensures after { held self.new ≡ (after_slots ty offset (held self.old)).held }
        ensures told { Told result self.old.out (after_slots ty offset (held self.old)).bytes self.new.out }
    {
        let rule = self.session.rule?;
        let slots = immediates_slots::immediate_slots(
            self.session.types_in(&self.arena),
            self.session.members_in(&self.arena),
            self.session.capabilities,
            rule,
            &mut self.rows,
            ty,
            offset,
        )?;
        self.out.put_slots(slots);
        Ok(())
    }

    #[tactic(auto, unfolding(crate::specs::Answered::after_range))]
    fn range(&mut self, offset: u32, size: u32) -> Result<(), Refusal>
        ensures after { held self.new ≡ (after_range offset size (held self.old)).held }
        ensures told { Told result self.old.out (after_range offset size (held self.old)).bytes self.new.out }
    {
        self.out.put_slots(immediates_ranges::range(offset, size)?);
        Ok(())
    }

    #[tactic(auto, unfolding(crate::specs::Answered::after_place))]
    fn place(&mut self, start: u32, steps: &[u32]) -> Result<(), Refusal>
        ensures after { held self.new ≡ (after_place start steps.now (held self.old)).held }
        ensures told { Told result self.old.out (after_place start steps.now (held self.old)).bytes self.new.out }
    {
        let rule = self.session.rule?;
        let place = place_lookup::lookup(
            self.session.types_in(&self.arena),
            self.session.members_in(&self.arena),
            self.session.capabilities,
            rule,
            &mut self.rows,
            start,
            steps,
        )?;
        put_place(place, &mut self.out);
        Ok(())
    }

    // By three words for each type, which take the first words of the rows; no rule is asked, but one that is none is refused.
    #[tactic(auto, unfolding(crate::specs::Answered::after_short))]
    fn short(&mut self, start: u32, steps: &[u32]) -> Result<(), Refusal>
        ensures after { held self.new ≡ (after_short start steps.now (held self.old)).held }
        ensures told { Told result self.old.out (after_short start steps.now (held self.old)).bytes self.new.out }
    {
        self.session.rule?;
        let place = place_short::lookup(
            self.session.types_in(&self.arena),
            self.session.members_in(&self.arena),
            self.session.capabilities,
            &mut self.rows,
            start,
            steps,
        )?;
        put_place(place, &mut self.out);
        Ok(())
    }

    #[tactic(auto, unfolding(crate::specs::Answered::after_report))]
    fn report(&mut self) -> Result<(), Refusal>
        ensures after { held self.new ≡ (after_report (held self.old)).held }
        ensures told { Told result self.old.out (after_report (held self.old)).bytes self.new.out }
    {
        let rule = self.session.rule?;
        let types = self.session.types_in(&self.arena);
        let mut words = [0u64; place_report::REPORT_TABLE];
        let totals = place_report::report(
            types,
            self.session.members_in(&self.arena),
            self.session.capabilities,
            rule,
            &mut self.rows,
            &mut words,
        )?;
        let own = ir_records::type_count(types) * place_report::REPORT_WIDTH;
        put_report(totals, &words, own, &mut self.out);
        Ok(())
    }

    #[tactic(auto, unfolding(crate::specs::Answered::after_plain))]
    fn plain(&mut self, shape: u32, width: u32) -> Result<(), Refusal>
        ensures after { held self.new ≡ (after_plain shape width (held self.old)).held }
        ensures told { Told result self.old.out (after_plain shape width (held self.old)).bytes self.new.out }
    {
        let plain = proc_plain_types::plain(shape, width)?;
        self.out
            .put_words(b"plain", &[plain.size, plain.alignment, plain.step]);
        Ok(())
    }

    // Puts the answer to a query.
    fn ask(&mut self, query: Query) -> Result<(), Refusal>
        ensures after { held self.new ≡ (after_line (query_said query.entry) (held self.old)).held }
        ensures told { Told result self.old.out (after_line (query_said query.entry) (held self.old)).bytes self.new.out }
    {
        match query {
            Query::Layout => self.layout(),
            Query::Judge => self.judge(),
            Query::Check => self.check(),
            Query::Members(ty) => {
                self.members(ty);
                Ok(())
            }
            Query::Slots { ty, offset } => self.slots(ty, offset),
            Query::Range { offset, size } => self.range(offset, size),
            Query::Place { start, steps } => self.place(start, steps),
            Query::Short { start, steps } => self.short(start, steps),
            Query::Report => self.report(),
            Query::Plain { shape, width } => self.plain(shape, width),
        }
    }

    #[tactic(auto, unfolding(crate::specs::Answered::after_set))]
    fn set(&mut self, offset: u32, size: u32) -> Result<(), Refusal>
        ensures after { held self.new ≡ (after_set offset size (held self.old)).held }
        ensures told { Told result self.old.out (after_set offset size (held self.old)).bytes self.new.out }
    {
        let pass = immediates_pass::set_range(self.session.pass, offset, size)?;
        self.session.pass = pass;
        self.out.put_step(b"set", pass.set);
        Ok(())
    }

    #[tactic(auto, unfolding(crate::specs::Answered::after_choose))]
    fn choose(&mut self, ty: u32) -> Result<(), Refusal>
        ensures after { held self.new ≡ (after_choose ty (held self.old)).held }
        ensures told { Told result self.old.out (after_choose ty (held self.old)).bytes self.new.out }
    {
        let rule = self.session.rule?;
        let pass = immediates_pass::choose(
            self.session.pass,
            self.session.types_in(&self.arena),
            self.session.members_in(&self.arena),
            self.session.capabilities,
            rule,
            &mut self.rows,
            ty,
        )?;
        self.session.pass = pass;
        self.out.put_step(b"needs", pass.needed);
        Ok(())
    }

    #[tactic(auto, unfolding(crate::specs::Answered::after_run))]
    fn dispatch(&mut self)
        ensures after { held self.new ≡ (after_run (held self.old)).held }
        ensures told { Adds self.old.out (after_run (held self.old)).bytes self.new.out }
    {
        match immediates_pass::dispatch(self.session.pass) {
            Ok(()) => self.out.put_passes(),
            Err(reason) => self.out.put_missing(Refusal::from(reason), reason.missing),
        }
    }

    // Tries a step of the pass, which a refused one leaves.
    fn try_step(&mut self, step: Step) -> Result<(), Refusal>
        ensures after { held self.new ≡ (after_line (step_said step) (held self.old)).held }
        ensures told { Told result self.old.out (after_line (step_said step) (held self.old)).bytes self.new.out }
    {
        match step {
            Step::SetRange { offset, size } => self.set(offset, size),
            Step::Choose(ty) => self.choose(ty),
            Step::Run => {
                self.dispatch();
                Ok(())
            }
        }
    }

    // A struct that was found is then part of the arena.
    #[tactic(auto, unfolding(crate::specs::Answered::after_order))]
    fn order(&mut self, given: &[u32], span: u32) -> Result<(), Refusal>
        ensures after { held self.new ≡ (after_order span given.now (held self.old)).held }
        ensures told { Told result self.old.out (after_order span given.now (held self.old)).bytes self.new.out }
    {
        let rule = self.session.rule?;
        let had = Records {
            types: self.session.types_held(),
            members: self.session.rows_held(),
        };
        let found = order_in(
            &mut self.arena,
            had,
            self.session.capabilities,
            rule,
            &mut self.rows,
            given,
            span,
        )?;
        let words = order_words::found_words(found);
        self.out
            .put_words(b"order", first_words(&words, given.len() + 2));
        self.session.hold(had, given.len());
        Ok(())
    }

    // Does what a line says, or tells why it is refused.
    fn try_line(&mut self, line: Line) -> Result<(), Refusal>
        ensures after { held self.new ≡ (after_line (said line.entry) (held self.old)).held }
        ensures told { Told result self.old.out (after_line (said line.entry) (held self.old)).bytes self.new.out }
    {
        match line {
            Line::Change(change) => {
                self.session.change(change, &mut self.arena);
                Ok(())
            }
            Line::Step(step) => self.try_step(step),
            Line::Query(query) => self.ask(query),
            Line::Order { span, given } => self.order(given, span),
        }
    }

    // The same, and puts the line of a refusal.
    fn answer_read(&mut self, line: Line)
        ensures after { held self.new ≡ (after_line (said line.entry) (held self.old)).held }
        ensures told { Adds self.old.out (after_line (said line.entry) (held self.old)).bytes self.new.out }
    {
        if let Err(refusal) = self.try_line(line) {
            self.out.put_refusal(refusal);
        }
    }

    // Reads a line and puts its answer.
    #[tactic(auto, unfolding(crate::specs::Answered::answered))]
    fn put_answer(&mut self, line: &[u8])
        ensures after { held self.new ≡ (answered line.now (held self.old)).held }
        ensures told { Adds self.old.out (answered line.now (held self.old)).bytes self.new.out }
    {
        let mut numbers = [0u32; program_lines::MOST_NUMBERS];
        match program_lines::said_line(line, &mut numbers) {
            Ok(Some(read)) => self.answer_read(read),
            Ok(None) => {}
            Err(reason) => self.session.stop(reason),
        }
    }

    /// Answers a line.
    pub fn answer<W: Write>(&mut self, to: &mut W, line: &[u8])
        ensures after { held self.new ≡ (answered line.now (held self.old)).held }
        ensures written { Sends (W.contents to.old) self.old.out (answered line.now (held self.old)).bytes (W.contents to.new) self.new.out }
    {
        self.out.make_room(to, LONGEST);
        self.put_answer(line);
    }
}
