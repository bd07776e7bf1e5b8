// What is asked of the types given for an order: of the arena, data, no unsized struct, one runtime array at most.
#![tactic(auto)]

ghost use Rattle.std.specs.Prelude.{◌≡◌, ◌≤◌, length};
ghost use Rattle.ir_records.specs.Refusal.{outcome_of};
ghost use Rattle.order_types.specs.Given.{sort_of, is_sort, first_of, is_second, number_of, last_of};
ghost use Rattle.order_types.specs.Serving.{sort_number, outcome_by};

use ir_records::{Fault, Kind, Refusal};
use order_placement::Given;

// The sorts of types.
// Kept: `NoData` and `Outside` are searched for as the others are. As errors of a Result, each search would be for `Ok(Sort::RuntimeArray)` or `Err(Fault::InvalidData)`, and `check` would name each fault twice.
#[derive(Clone, Copy, Debug, PartialEq, Eq)]
enum Sort {
    Sized,
    RuntimeArray,
    UnsizedStruct,
    NoData,
    Outside,
}

/// The types given for an order, up to seven, beside an arena of n types.
// Kept: n beside the table, which may go on past n: of a table cut at n each test against n would work out a sixth of the length, and the definitions of specs/Given, which take both, would be of the cut.
#[derive(Clone, Copy, Debug, PartialEq, Eq)]
pub struct GivenTypes<'a> {
    pub types: &'a [u32],
    pub n: u32,
    pub given: Given<'a>,
    pub ghost few: { length given.wanted.now ≤ 7 },
}

impl<'a> GivenTypes<'a> {
    // The sort of a type.
    #[tactic(auto, unfolding(crate::specs::Given::sort_of))]
    fn sort_of(self, ty: u32) -> Sort
        ensures { sort_number result ≡ sort_of self.entry.types.now self.entry.given.rows.now self.entry.n ty }
    {
        if self.n <= ty {
            return Sort::Outside;
        }
        let flags = ir_rows::row_word(self.given.rows, ty, ir_rows::FLAGS as u32);
        if !valid_flags::is_data(flags) {
            return Sort::NoData;
        }
        if valid_flags::is_sized(flags) {
            return Sort::Sized;
        }
        if ir_records::is_of_kind(self.types, ty, Kind::Struct) {
            return Sort::UnsizedStruct;
        }
        Sort::RuntimeArray
    }

    // Whether the given type j is of a sort.
    fn is_sort(self, sort: Sort, j: u32) -> bool
        ensures { result ≡ is_sort self.entry.types.now self.entry.given.rows.now self.entry.n self.entry.given.wanted.now (sort_number sort) j }
    {
        self.sort_of(self.given.type_of(j)) == sort
    }

    // The first of the given types that is of a sort, from one of them on.
    fn first_of(self, sort: Sort, from: u32) -> Option<u32>
        ensures { result ≡ first_of self.entry.types.now self.entry.given.rows.now self.entry.n self.entry.given.wanted.now (sort_number sort) from }
    {
        (from..self.given.wanted.len() as u32).find(|j| self.is_sort(sort, *j))
    }

    // Another runtime array after the first.
    fn is_second(self) -> bool
        ensures { result ≡ is_second self.entry.types.now self.entry.given.rows.now self.entry.n self.entry.given.wanted.now
            (first_of self.entry.types.now self.entry.given.rows.now self.entry.n self.entry.given.wanted.now 1 0) }
    {
        let Some(first) = self.first_of(Sort::RuntimeArray, 0) else {
            return false;
        };
        self.first_of(Sort::RuntimeArray, first + 1).is_some()
    }

    /// What is refused of the given types, if anything is.
    #[tactic(auto, unfolding(crate::specs::Given::number_of))]
    pub fn check(self) -> Result<(), Refusal>
        ensures { outcome_of result ≡ outcome_by (number_of self.entry.types.now self.entry.given.rows.now self.entry.n self.entry.given.wanted.now) }
    {
        if self.first_of(Sort::Outside, 0).is_some() {
            return Err(Refusal::of(Fault::InvalidStructMemberType));
        }
        if self.first_of(Sort::NoData, 0).is_some() {
            return Err(Refusal::of(Fault::InvalidData));
        }
        let unsized_struct = self.first_of(Sort::UnsizedStruct, 0).is_some();
        let second = self.is_second();
        if unsized_struct | second {
            return Err(Refusal::of(Fault::InvalidDynamicArray));
        }
        Ok(())
    }

    /// The runtime array among them.
    #[tactic(auto, unfolding(crate::specs::Given::last_of))]
    pub fn last_of(self) -> Option<u32>
        ensures { result ≡ last_of self.entry.types.now self.entry.given.rows.now self.entry.n self.entry.given.wanted.now }
    {
        self.first_of(Sort::RuntimeArray, 0)
    }
}
