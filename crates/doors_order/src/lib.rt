// The call for an order with the uniform rule as a word, and its answer as words in lent buffers.
#![tactic(auto)]

ghost use Rattle.std.specs.Prelude.{◌≡◌, length, IfOk};
ghost use Rattle.valid_rule_word.specs.RuleWord.{rule_of, capabilities_by};
ghost use Rattle.doors_words.specs.Words.{with_front, with_answer};
ghost use Rattle.order_call.specs.Answer.{order_answer_of};
ghost use Rattle.doors_order.specs.Serving.{words_of};
ghost use Rattle.order_call.specs.Call.{ordered};
ghost use Rattle.order_words.specs.Words.{order_outcome, with_found};

use ir_records::Refusal;
use order_call::OrderedStruct;
use valid_type_info::UniformRule;

// The order by the rule that a word is, or number 1.
// Kept: the parameters are those of the C call, one by one.
fn order(
    types: &mut [u32],
    n: u32,
    members: &mut [u32],
    m: u32,
    capabilities: u32,
    rule: u32,
    rows: &mut [u32],
    wanted: &[u32],
    span: u32,
) -> Result<OrderedStruct, Refusal>
    ensures places { IfOk result (λ o. o.order.n ≡ length wanted.now) }
    ensures value { order_answer_of result ≡
        (ordered (rule_of rule) (capabilities_by rule capabilities) types.old n members.old m rows.old wanted.now span).answer }
    ensures types_after { types.new ≡ (ordered (rule_of rule) (capabilities_by rule capabilities) types.old n members.old m rows.old wanted.now span).types }
    ensures members_after { members.new ≡
        (ordered (rule_of rule) (capabilities_by rule capabilities) types.old n members.old m rows.old wanted.now span).members }
    ensures rows_after { rows.new ≡ (ordered (rule_of rule) (capabilities_by rule capabilities) types.old n members.old m rows.old wanted.now span).rows }
{
    let by = UniformRule::try_from(rule)?;
    order_call::order(types, n, members, m, capabilities, by, rows, wanted, span)
}

// What was found, zeros on a refusal; fewer words are left as they were.
fn put_found(found: &mut [u32], made: Result<OrderedStruct, Refusal>)
    ensures { found.new ≡ with_front found.old (words_of made) }
{
    let words = made.map_or([0; order_words::FOUND_WORDS], order_words::found_words);
    doors_words::put_front(found, words);
}

// Kept: the parameters are those of the C call, one by one.
pub fn order_into(
    types: &mut [u32],
    n: u32,
    members: &mut [u32],
    m: u32,
    capabilities: u32,
    rule: u32,
    rows: &mut [u32],
    wanted: &[u32],
    span: u32,
    found: &mut [u32],
    answer: &mut [u32],
)
    ensures types_after { types.new ≡ (ordered (rule_of rule) (capabilities_by rule capabilities) types.old n members.old m rows.old wanted.now span).types }
    ensures members_after { members.new ≡
        (ordered (rule_of rule) (capabilities_by rule capabilities) types.old n members.old m rows.old wanted.now span).members }
    ensures rows_after { rows.new ≡ (ordered (rule_of rule) (capabilities_by rule capabilities) types.old n members.old m rows.old wanted.now span).rows }
    ensures found_after { found.new ≡
        with_found found.old (length wanted.now)
        (ordered (rule_of rule) (capabilities_by rule capabilities) types.old n members.old m rows.old wanted.now span).answer }
    ensures answer_after { answer.new ≡
        with_answer answer.old (order_outcome
        (ordered (rule_of rule) (capabilities_by rule capabilities) types.old n members.old m rows.old wanted.now span).answer) }
{
    let made = order(types, n, members, m, capabilities, rule, rows, wanted, span);
    put_found(found, made);
    doors_words::put_answer(answer, &made);
}
