// The WGSL placement of members in an order, by the layout's sizes and alignments. Sums are wider than 32 bits, so that none wraps.
#![tactic(auto)]

ghost use Rattle.std.specs.Prelude.{◌≡◌, ◌≤◌, ◌<◌, get_or};
ghost use Rattle.ir_rows.specs.Rows.{row_word};
ghost use Rattle.order_numbers.specs.Order.{member_at};
ghost use Rattle.order_placement.specs.Placement.{end_after, offset_of, align_of_struct, span_of};

use order_numbers::Order;

const SIZE: u32 = ir_rows::SIZE as u32;

const ALIGNMENT: u32 = ir_rows::ALIGNMENT as u32;

/// The types given for an order, beside the rows of the arena check.
#[derive(Clone, Copy, Debug, PartialEq, Eq)]
pub struct Given<'a> {
    pub rows: &'a [u32],
    pub wanted: &'a [u32],
}

impl<'a> Given<'a> {
    /// The given type m; type 0 past them.
    pub fn type_of(self, m: u32) -> u32
        ensures { result ≡ get_or self.entry.wanted.now m 0 }
    {
        ir_records::word_at(self.wanted, m as usize)
    }

    // A word of the row of the given type m.
    fn word_of(self, m: u32, word: u32) -> u32
        ensures { result ≡ row_word self.entry.rows.now (get_or self.entry.wanted.now m 0) word }
    {
        ir_rows::row_word(self.rows, self.type_of(m), word)
    }

    // Where the members of the first places end.
    #[tactic(auto, unfolding(crate::specs::Placement::end_after))]
    fn end_after(self, order: Order, count: u32) -> u64
        requires { count ≤ order.n }
        ensures { (result ≡ end_after self.entry.rows.now self.entry.wanted.now (member_at order.n order.number) count) × (result ≤ 60129542144) }
    {
        let mut end: u64 = 0;
        for j in 0..count {
            let m = order.member_at(j);
            let offset = proc_alignment::round_up_wide(self.word_of(m, ALIGNMENT), end);
            let size = self.word_of(m, SIZE) as u64;
            end = offset + size;
        }
        end
    }

    /// The offset of the member at place j.
    pub fn offset_of(self, order: Order, j: u32) -> u64
        requires { j < order.n }
        ensures { result ≡ offset_of self.entry.rows.now self.entry.wanted.now (member_at order.n order.number) j }
    {
        let m = order.member_at(j);
        let end = self.end_after(order, j);
        proc_alignment::round_up_wide(self.word_of(m, ALIGNMENT), end)
    }

    // The alignment of a struct of the first n.
    #[tactic(auto, unfolding(crate::specs::Placement::align_of_struct))]
    fn align_of_struct(self, n: u32) -> u32
        ensures { result ≡ align_of_struct self.entry.rows.now self.entry.wanted.now n }
    {
        (0..n).fold(1, |most, m| most.max(self.word_of(m, ALIGNMENT)))
    }

    /// The struct's span.
    #[tactic(auto, unfolding(crate::specs::Placement::span_of))]
    pub fn span_of(self, order: Order) -> u64
        ensures { result ≡ span_of self.entry.rows.now self.entry.wanted.now order.n (member_at order.n order.number) }
    {
        let most = self.align_of_struct(order.n);
        let end = self.end_after(order, order.n);
        proc_alignment::round_up_wide(most, end)
    }
}
