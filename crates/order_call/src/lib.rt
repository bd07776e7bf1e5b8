// An order that fits: of one to seven types of an arena, the first order as members of a struct that has at most a wanted span; the struct stands
// behind the types and member rows in use.
#![tactic(auto)]

ghost use Rattle.std.specs.Prelude.{◌≡◌, ℕ, ◌+◌, ◌*◌, ◌≤◌, ◌<◌, length, true, false, Some, IfOk, MatchResult};
ghost use Rattle.ir_records.specs.Refusal.{LengthsTold};
ghost use Rattle.ir_rows.specs.Rows.{row_word};
ghost use Rattle.proc_alignment.specs.Alignment.{most};
ghost use Rattle.order_numbers.specs.Order.{member_at};
ghost use Rattle.order_placement.specs.Placement.{offset_of, span_of};
ghost use Rattle.order_call.specs.Answer.{order_answer_of};
ghost use Rattle.order_call.specs.Call.{room, with_order, chosen, ordered};

use ir_records::{Fault, Refusal};
use order_numbers::Order;
use order_placement::Given;
use order_types::GivenTypes;
use valid_type_info::UniformRule;

/// The struct's type number, its span and its order.
#[derive(Clone, Copy, Debug, PartialEq, Eq)]
pub struct OrderedStruct {
    pub ty: u32,
    pub span: u32,
    pub order: Order,
}

// Number 1 where there are too many given types, or no room for their struct.
// Kept: `types`, `members`, `rows`: three lengths that the call has as they are, and no tables, as in `ir_records::tables_fit`.
fn check_room(
    types: usize,
    members: usize,
    rows: usize,
    n: u32,
    m: u32,
    k: usize,
) -> Result<(), Refusal>
    ensures { LengthsTold result (room types members rows n m k) }
{
    ir_records::require_lengths(k <= order_numbers::MOST_MEMBERS)?;
    let type_count = (n as usize) + 1;
    let member_count = (m as usize) + k;
    ir_records::require_lengths(
        (type_count <= ir_records::MOST_TYPES)
            & (type_count * ir_records::TYPE_WORDS <= types)
            & (member_count <= ir_records::MOST_MEMBERS)
            & (member_count * ir_records::MEMBER_WORDS <= members)
            & (type_count * ir_records::ROW_WORDS <= rows),
    )
}

// The struct of the order that was found, with its own span.
// Kept: tables with their counts, and all parameters of the call, as in `order_check::tried`.
fn with_order(
    types: &mut [u32],
    n: u32,
    members: &mut [u32],
    m: u32,
    capabilities: u32,
    rule: UniformRule,
    rows: &mut [u32],
    wanted: &[u32],
    order: Order,
    span: u32,
) -> Result<OrderedStruct, Refusal>
    requires order_value { order.n ≡ length wanted.now }
    requires type_in_bounds { n * 6 + 6 ≤ length types.old }
    requires rows_bound { m + order.n ≤ 4096 }
    requires rows_in_bounds { (m + order.n) * 4 ≤ length members.old }
    requires by_index { (j : ℕ) → j < order.n → offset_of rows.old wanted.now (member_at order.n order.number) j ≤ most }
    requires span_value { span ≡ span_of rows.old wanted.now order.n (member_at order.n order.number) }
    ensures places { IfOk result (λ o. o.order.n ≡ length wanted.now) }
    ensures value { order_answer_of result ≡ (with_order rule capabilities types.old n members.old m rows.old wanted.now (Some order.number)).answer }
    ensures types_after { types.new ≡ (with_order rule capabilities types.old n members.old m rows.old wanted.now (Some order.number)).types }
    ensures members_after { members.new ≡ (with_order rule capabilities types.old n members.old m rows.old wanted.now (Some order.number)).members }
    ensures rows_after { rows.new ≡ (with_order rule capabilities types.old n members.old m rows.old wanted.now (Some order.number)).rows }
{
    order_check::tried(
        types,
        n,
        members,
        m,
        capabilities,
        rule,
        rows,
        wanted,
        order,
        span,
    )?;
    Ok(OrderedStruct { ty: n, span, order })
}

// Over an accepted arena and its rows: 16, then 6, 17 and 20, then 35, then the struct.
// Kept: tables with their counts, and all parameters of the call, as in `order_check::tried`.
fn choose(
    types: &mut [u32],
    n: u32,
    members: &mut [u32],
    m: u32,
    capabilities: u32,
    rule: UniformRule,
    rows: &mut [u32],
    wanted: &[u32],
    span: u32,
) -> Result<OrderedStruct, Refusal>
    requires wanted_len_bound { length wanted.now ≤ 7 }
    requires type_in_bounds { n * 6 + 6 ≤ length types.old }
    requires wanted_bound { m + length wanted.now ≤ 4096 }
    requires wanted_in_bounds { (m + length wanted.now) * 4 ≤ length members.old }
    requires by_index { (t : ℕ) → t < n → 1 ≤ row_word rows.old t 1 }
    ensures places { IfOk result (λ o. o.order.n ≡ length wanted.now) }
    ensures value { order_answer_of result ≡ (chosen rule capabilities types.old n members.old m rows.old wanted.now span).answer }
    ensures types_after { types.new ≡ (chosen rule capabilities types.old n members.old m rows.old wanted.now span).types }
    ensures members_after { members.new ≡ (chosen rule capabilities types.old n members.old m rows.old wanted.now span).members }
    ensures rows_after { rows.new ≡ (chosen rule capabilities types.old n members.old m rows.old wanted.now span).rows }
{
    if wanted.is_empty() {
        return Err(Refusal::of(Fault::EmptyStruct));
    }
    let given = Given { rows, wanted };
    let typed = GivenTypes { types, n, given };
    typed.check()?;
    let last = typed.last_of();
    let k = wanted.len() as u32;
    let number = order_search::first_order(given, k, last, span).ok_or(Refusal::of(
        Fault::NoOrder,
    ))?;
    let order = Order { number, n: k };
    let own = given.span_of(order) as u32;
    with_order(
        types,
        n,
        members,
        m,
        capabilities,
        rule,
        rows,
        wanted,
        order,
        own,
    )
}

/// The call: room, the arena check of the records in use, then the order. Nothing is asked of the caller.
// Kept: tables with their counts, and parameters one by one, as in `order_check::tried`: this is the call.
pub fn order(
    types: &mut [u32],
    n: u32,
    members: &mut [u32],
    m: u32,
    capabilities: u32,
    rule: UniformRule,
    rows: &mut [u32],
    wanted: &[u32],
    span: u32,
) -> Result<OrderedStruct, Refusal>
    ensures places { IfOk result (λ o. o.order.n ≡ length wanted.now) }
    ensures value { order_answer_of result ≡ (ordered rule capabilities types.old n members.old m rows.old wanted.now span).answer }
    ensures types_after { types.new ≡ (ordered rule capabilities types.old n members.old m rows.old wanted.now span).types }
    ensures members_after { members.new ≡ (ordered rule capabilities types.old n members.old m rows.old wanted.now span).members }
    ensures rows_after { rows.new ≡ (ordered rule capabilities types.old n members.old m rows.old wanted.now span).rows }
{
    check_room(types.len(), members.len(), rows.len(), n, m, wanted.len())?;
    let t = (n as usize) * ir_records::TYPE_WORDS;
    let u = (m as usize) * ir_records::MEMBER_WORDS;
    valid_arena::check(&types[..t], &members[..u], capabilities, rule, rows)?;
    choose(types, n, members, m, capabilities, rule, rows, wanted, span)
}
