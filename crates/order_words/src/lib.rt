// A struct that an order gave, as words.
#![tactic(auto)]

ghost use Rattle.std.specs.Prelude.{◌≡◌, Ok};
ghost use Rattle.order_call.specs.Answer.{order_answer_of};
ghost use Rattle.order_words.specs.Words.{found_words};

use order_call::OrderedStruct;

pub const FOUND_WORDS: usize = 9;

/// The struct's type number and its span, then a word for each of seven places; 0 for a place that the order has not.
pub fn found_words(found: OrderedStruct) -> [u32; FOUND_WORDS]
    ensures { result ≡ found_words found.order.n (order_answer_of (Ok found)) }
{
    let mut words = [0; FOUND_WORDS];
    words[0] = found.ty;
    words[1] = found.span;
    for j in 0..found.order.n {
        words[(j as usize) + 2] = found.order.member_at(j);
    }
    words
}
