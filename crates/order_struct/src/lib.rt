// The struct of an order, written behind the records in use.
#![tactic(auto)]

ghost use Rattle.std.specs.Prelude.{◌≡◌, ℕ, ◌+◌, ◌*◌, ◌≤◌, ◌<◌, length};
ghost use Rattle.ir_rows.specs.Rows.{with_part};
ghost use Rattle.proc_alignment.specs.Alignment.{most};
ghost use Rattle.order_numbers.specs.Order.{member_at};
ghost use Rattle.order_placement.specs.Placement.{offset_of};
ghost use Rattle.order_struct.specs.Struct.{struct_record, member_row, member_rows};

use ir_records::{Kind, Words};
use order_numbers::Order;
use order_placement::Given;

/// An order of given types that is to stand behind m member rows: its offsets are numbers of 32 bits, and the table may have so many rows.
#[derive(Clone, Copy, Debug, PartialEq, Eq)]
pub struct Placed<'a> {
    pub given: Given<'a>,
    pub order: Order,
    pub m: u32,
    pub ghost small: { (j : ℕ) → j < order.n → offset_of given.rows.now given.wanted.now (member_at order.n order.number) j ≤ most },
    pub ghost few: { m + order.n ≤ 4096 },
}

// The member record of place j.
fn put_row(members: &mut [u32], placed: Placed, j: u32)
    requires j_in_order { j < placed.order.n }
    requires rows_in_bounds { (placed.m + placed.order.n) * 4 ≤ length members.old }
    ensures { members.new ≡ with_part 4 members.old ((placed.entry.m + j) * 4)
        (member_row placed.entry.given.rows.now placed.entry.given.wanted.now (member_at placed.entry.order.n placed.entry.order.number) j) }
{
    let member = placed.order.member_at(j);
    let ty = placed.given.type_of(member);
    let offset = placed.given.offset_of(placed.order, j);
    wgsl_tables::put_member(members, placed.m + j, ty, offset as u32);
}

// Those of all places.
fn put_rows(members: &mut [u32], placed: Placed)
    requires { (placed.m + placed.order.n) * 4 ≤ length members.old }
    ensures { members.new ≡ with_part (placed.entry.order.n * 4) members.old (placed.entry.m * 4)
        (member_rows placed.entry.given.rows.now placed.entry.given.wanted.now placed.entry.order.n
        (member_at placed.entry.order.n placed.entry.order.number)) }
{
    for j in 0..placed.order.n {
        put_row(members, placed, j);
    }
}

/// The type record behind n types, and the member records behind those in use.
// Kept: n says how many records are in use; the table goes on past them, since a record is written there.
pub fn put_struct(types: &mut [u32], n: u32, members: &mut [u32], placed: Placed, span: u32)
    requires type_in_bounds { n * 6 + 6 ≤ length types.old }
    requires rows_in_bounds { (placed.m + placed.order.n) * 4 ≤ length members.old }
    ensures types_after { types.new ≡ with_part 6 types.old (n * 6) (struct_record placed.entry.m placed.entry.order.n span) }
    ensures members_after { members.new ≡
        with_part (placed.entry.order.n * 4) members.old (placed.entry.m * 4)
        (member_rows placed.entry.given.rows.now placed.entry.given.wanted.now placed.entry.order.n
        (member_at placed.entry.order.n placed.entry.order.number)) }
{
    let words = Words::of(Kind::Struct as u32, placed.m, placed.order.n, span, 0);
    wgsl_tables::put_type(types, n, words);
    put_rows(members, placed);
}
