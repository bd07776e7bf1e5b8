// The arena with the struct of an order behind it, checked: on a refusal the words of both tables are put back.
#![tactic(auto)]

ghost use Rattle.std.specs.Prelude.{◌≡◌, ℕ, ◌+◌, ◌*◌, ◌≤◌, ◌<◌, length};
ghost use Rattle.ir_records.specs.Refusal.{outcome_of};
ghost use Rattle.ir_rows.specs.Rows.{with_part};
ghost use Rattle.proc_alignment.specs.Alignment.{most};
ghost use Rattle.valid_arena.specs.Arena.{arena_answer, arena_words};
ghost use Rattle.order_numbers.specs.Order.{member_at};
ghost use Rattle.order_placement.specs.Placement.{offset_of};
ghost use Rattle.order_struct.specs.Struct.{struct_record, member_rows};
ghost use Rattle.order_check.specs.Tables.{types_with, members_with, if_accepted};

use ir_records::Refusal;
use order_numbers::Order;
use order_placement::Given;
use order_struct::Placed;
use valid_type_info::UniformRule;

// The member records of an order are no more.
const MOST_WORDS: usize = order_numbers::MOST_MEMBERS * ir_records::MEMBER_WORDS;

/// Writes the struct of an order behind n types and m member rows, and has the arena with it checked; a refusal puts the words back.
// Kept: counts beside the tables, which go on past what is in use. And one by one, here and in `order_call`: a struct of three `&mut` tables would be made anew for each call.
pub fn tried(
    types: &mut [u32],
    n: u32,
    members: &mut [u32],
    m: u32,
    capabilities: u32,
    rule: UniformRule,
    rows: &mut [u32],
    wanted: &[u32],
    order: Order,
    span: u32,
) -> Result<(), Refusal>
    requires type_in_bounds { n * 6 + 6 ≤ length types.old }
    requires rows_bound { m + order.n ≤ 4096 }
    requires rows_in_bounds { (m + order.n) * 4 ≤ length members.old }
    requires by_index { (j : ℕ) → j < order.n → offset_of rows.old wanted.now (member_at order.n order.number) j ≤ most }
    ensures value { outcome_of result ≡
        arena_answer capabilities (types_with types.old n (struct_record m order.n span))
        (members_with members.old m (member_rows rows.old wanted.now order.n (member_at order.n order.number))) rows.old }
    ensures types_after { types.new ≡ if_accepted (outcome_of result) (with_part 6 types.old (n * 6) (struct_record m order.n span)) types.old }
    ensures members_after { members.new ≡
        if_accepted (outcome_of result)
        (with_part (order.n * 4) members.old (m * 4) (member_rows rows.old wanted.now order.n (member_at order.n order.number))) members.old }
    ensures rows_after { rows.new ≡
        arena_words rule capabilities (types_with types.old n (struct_record m order.n span))
        (members_with members.old m (member_rows rows.old wanted.now order.n (member_at order.n order.number))) rows.old }
{
    let t = (n as usize) * ir_records::TYPE_WORDS;
    let u = (m as usize) * ir_records::MEMBER_WORDS;
    let count = (order.n as usize) * ir_records::MEMBER_WORDS;
    let types_end = t + ir_records::TYPE_WORDS;
    let members_end = u + count;
    let mut kept = [0u32; ir_records::TYPE_WORDS];
    let mut kept_rows = [0u32; MOST_WORDS];
    kept.copy_from_slice(&types[t..types_end]);
    kept_rows[..count].copy_from_slice(&members[u..members_end]);
    let placed = Placed {
        given: Given { rows, wanted },
        order,
        m,
    };
    order_struct::put_struct(types, n, members, placed, span);
    let checked = valid_arena::check(
        &types[..types_end],
        &members[..members_end],
        capabilities,
        rule,
        rows,
    );
    if checked.is_err() {
        types[t..types_end].copy_from_slice(&kept);
        members[u..members_end].copy_from_slice(&kept_rows[..count]);
    }
    checked
}
