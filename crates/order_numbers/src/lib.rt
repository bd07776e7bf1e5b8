// Orders of up to seven members, carried as numbers: the digits to base 7 are the member numbers, the first place's the highest. So of two orders
// the first by member numbers is the lesser.
#![tactic(auto)]

ghost use Rattle.std.specs.Prelude.{◌≡◌, ◌+◌, ◌^◌, ◌≤◌, ◌<◌};
ghost use Rattle.order_numbers.specs.Search.{first_from};
ghost use Rattle.order_numbers.specs.Order.{member_at, bad_place, stays_last, after_place, next_try};

pub const MOST_MEMBERS: usize = 7;

// Kept: a table and no `pow`, which is a loop: the search asks for a power at each digit of each number that it looks at.
const POWERS: [u32; 8] = [1, 7, 49, 343, 2401, 16807, 117649, 823543];

// 7 to the power k.
pub fn power(k: u32) -> u32
    requires { k ≤ 7 }
    ensures { (result ≡ 7 ^ k) × (1 ≤ result) × (result ≤ 823543) }
{
    POWERS[k as usize]
}

/// A number read as an order of n members.
#[derive(Clone, Copy, Debug, PartialEq, Eq)]
pub struct Order {
    pub number: u32,
    pub n: u32,
    pub ghost few: { n ≤ 7 },
}

// Kept: `j < self.n`: three methods ask that the order has place j; a struct for a place would be made at each call, and only carry this one test.
impl Order {
    /// The member at place j.
    #[tactic(auto, unfolding(crate::specs::Order::member_at))]
    pub fn member_at(self, j: u32) -> u32
        requires { j < self.n }
        ensures { result ≡ member_at self.n self.number j }
    {
        let step = power(self.n - 1 - j);
        self.number / step % 7
    }

    // Place j holds no member, or one that stands at an earlier place too.
    fn bad_place(self, j: u32) -> bool
        requires { j < self.n }
        ensures { result ≡ bad_place self.n (member_at self.n self.number) j }
    {
        let m = self.member_at(j);
        let earlier = (0..j).any(|h| self.member_at(h) == m);
        earlier | (self.n <= m)
    }

    // The first such place; none in an order.
    fn first_bad(self) -> Option<u32>
        ensures { result ≡ first_from (bad_place self.n (member_at self.n self.number)) self.n 0 }
    {
        (0..self.n).find(|j| self.bad_place(*j))
    }

    /// The runtime array, member `last` where there is one, stays last.
    pub fn stays_last(self, last: Option<u32>) -> bool
        requires { 1 ≤ self.n }
        ensures { result ≡ stays_last self.n last (member_at self.n self.number) }
    {
        let at_end = self.member_at(self.n - 1);
        last.is_none_or(|last| (self.n <= last) | (at_end == last))
    }

    /// The next number to try from this one on: itself where it is an order, else the least that holds other members up to its first bad place.
    pub fn next_try(self) -> u32
        requires { self.number < 823543 }
        ensures { (result ≡ next_try self.n self.number (first_from (bad_place self.n (member_at self.n self.number)) self.n 0))
            × (result ≤ self.number + 823543) }
    {
        match self.first_bad() {
            Some(j) => self.after_place(j),
            None => self.number,
        }
    }

    fn after_place(self, j: u32) -> u32
        requires j_lt_n { j < self.n }
        requires number_bound { self.number < 823543 }
        ensures { (result ≡ after_place self.n self.number j) × (result ≤ self.number + 823543) }
    {
        let step = power(self.n - 1 - j);
        let above = self.number / step + 1;
        above * step
    }
}
