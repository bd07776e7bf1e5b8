// The first order of up to seven members, by member numbers, whose placement has at most a wanted span.
#![tactic(auto)]

ghost use Rattle.std.specs.Prelude.{◌≡◌, ◌&&◌, ◌≤◌, eqb, leb};
ghost use Rattle.order_numbers.specs.Order.{member_at, stays_last};
ghost use Rattle.order_placement.specs.Placement.{span_of};
ghost use Rattle.order_search.specs.Fitting.{first_order};

use order_numbers::Order;
use order_placement::Given;

// Whether a number is an order that is allowed and has at most the span; `next` is the number itself where it is an order.
fn order_fits(given: Given, order: Order, last: Option<u32>, span: u32, next: u32) -> bool
    requires { 1 ≤ order.n }
    ensures { result ≡ (eqb next order.number && stays_last order.n last (member_at order.n order.number) && leb
        (span_of given.entry.rows.now given.entry.wanted.now order.n (member_at order.n order.number)) span) }
{
    next == order.number && order.stays_last(last) && given.span_of(order) <= u64::from(span)
}

/// The first such number of n members.
pub fn first_order(given: Given, n: u32, last: Option<u32>, span: u32) -> Option<u32>
    requires le_n { 1 ≤ n }
    requires n_bound { n ≤ 7 }
    ensures { result ≡ first_order given.entry.rows.now given.entry.wanted.now n last span }
{
    let all = order_numbers::power(n);
    let mut number: u32 = 0;
    // Kept: `number` goes on past all that share a bad place, which no range does.
    while number < all {
        let order = Order { number, n };
        let next = order.next_try();
        if order_fits(given, order, last, span, next) {
            return Some(number);
        }
        number = next.max(number + 1);
    }
    None
}
