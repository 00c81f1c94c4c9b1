// Tests of a single record, from its words and from the numbers that earlier records give.
#![tactic(auto)]

ghost use Rattle.std.specs.Prelude.{◌≡◌, ℕ, ◌+◌, ◌*◌, ◌≤◌, ◌<◌, true, cond, ◌&&◌, eqb, length};
ghost use Rattle.std.specs.Int.Signed.{le_z};
ghost use Rattle.signed.specs.Words.{bounded as in_bounds};
ghost use Rattle.layout.specs.Sized.{Sized};
ghost use Rattle.layout.specs.Tables.{fact};
ghost use Rattle.node.specs.FactTypes.{fact_type_of};
ghost use Rattle.records.specs.Types.{type_number, Decodes};
ghost use Rattle.records.specs.Facts.{good_default, good_tail, set_of, fact_item, is_list};
ghost use Rattle.records.specs.Nodes.{named_fact, no_fact};
ghost use Rattle.records.specs.Accepted.{GoodFacts};
ghost use Rattle.records.specs.Rules.{stratum};
ghost use Rattle.records.specs.Entities.{states, good_entity, good_change};
ghost use Rattle.records.specs.Operations.{outcomes, good_mask, good_operation, good_outcome};
ghost use Rattle.records.specs.Flows.{good_operation_step, good_route_of};

mod contract;

pub use contract::Contract;
use item::Item;
use layout::{Entity, Header, Operation, Rule, Sheet, place};
use node::Named;
use signed::{at_most, bounded, same, within};
use words::{Record, number, word};

// The bounds of a fact that is a number.
fn in_order(min: i64, max: i64) -> bool
    ensures { result ≡ (in_bounds min && le_z min max && in_bounds max) }
{
    bounded(min) & at_most(min, max) & bounded(max)
}

// The types of a fact's values, which have the numbers 0 to 4.
#[derive(Clone, Copy)]
pub enum ValueType {
    Bool,
    Int,
    Enum,
    Money,
    Duration,
}

// A number that is no type's.
#[derive(Clone, Copy)]
pub struct UnknownType(pub usize);

// The number of a list among the types of facts.
const LIST: usize = 5;

impl TryFrom<usize> for ValueType {
    type Error = UnknownType;

    ghost try_from_gives = { Decodes };

    fn try_from(n: usize) -> Result<Self, UnknownType> {
        match n {
            0 => Ok(ValueType::Bool),
            1 => Ok(ValueType::Int),
            2 => Ok(ValueType::Enum),
            3 => Ok(ValueType::Money),
            4 => Ok(ValueType::Duration),
            5.. => Err(UnknownType(n)),
        }
    }
}

impl ValueType {
    // The type of a fact's values, from its type and its element type: of a list that of its elements.
    pub fn of(kind: usize, element: usize) -> Result<ValueType, UnknownType>
        ensures { Decodes (cond (eqb kind 5) element kind) result }
    {
        ValueType::try_from(if kind == LIST { element } else { kind })
    }

    // Whether min and max are as the type wants them.
    #[tactic(auto, unfolding(node::specs::FactTypes::fact_type_of))]
    pub fn good_bounds(self, min: i64, max: i64) -> bool
        ensures { result ≡ (fact_type_of (type_number self)).bounds min max }
    {
        match self {
            ValueType::Bool => same(min, 0) & same(max, 1),
            ValueType::Enum => same(min, 0) & within(0, max, 255),
            ValueType::Int | ValueType::Money | ValueType::Duration => in_order(min, max),
        }
    }

    // Whether the value set is.
    #[tactic(auto, unfolding(node::specs::FactTypes::fact_type_of))]
    pub fn good_set(self, set: usize) -> bool
        ensures { result ≡ (fact_type_of (type_number self)).takes_set set }
    {
        match self {
            ValueType::Bool | ValueType::Int => set == 0,
            ValueType::Enum | ValueType::Money => set <= 127,
            ValueType::Duration => set <= 3,
        }
    }

    // The type of the values, by its number among all nodes' types.
    #[tactic(auto, unfolding(node::specs::FactTypes::fact_type_of))]
    fn sort(self, set: usize) -> usize
        requires { set ≤ 127 }
        ensures { result ≡ (fact_type_of (type_number self)).sort set }
    {
        match self {
            ValueType::Bool => 0,
            ValueType::Int => 1 + set,
            ValueType::Enum => 2 + set,
            ValueType::Money => 130 + set,
            ValueType::Duration => 258 + set,
        }
    }
}

// The same by the number of a type: with a number that is no type's nothing is good.
pub fn good_bounds(kind: usize, min: i64, max: i64) -> bool
    ensures { result ≡ (fact_type_of kind).bounds min max }
{
    match ValueType::try_from(kind) {
        Ok(t) => t.good_bounds(min, max),
        Err(_) => false,
    }
}

pub fn good_set(kind: usize, set: usize) -> bool
    ensures { result ≡ (fact_type_of kind).takes_set set }
{
    match ValueType::try_from(kind) {
        Ok(t) => t.good_set(set),
        Err(_) => false,
    }
}

// The type and range of a fact's values.
fn fact_item(s: &[i64], k: usize) -> Item
    requires { (16 + 8 * k + 8 ≤ length s.now) × (set_of s.now k ≤ 127) }
    ensures { result ≡ fact_item s.now k }
{
    let values = ValueType::of(
        number(s, k, place::FACT_TYPE),
        number(s, k, place::FACT_ELEMENT_TYPE),
    );
    let sort = match values {
        Ok(t) => t.sort(number(s, k, place::FACT_SET)),
        Err(_) => 0,
    };
    Item {
        sort,
        low: word(s, k, place::FACT_MIN),
        high: word(s, k, place::FACT_MAX),
    }
}

// Whether a fact is a list.
pub fn is_list(s: &[i64], k: usize) -> bool
    requires { 16 + 8 * k + 8 ≤ length s.now }
    ensures { result ≡ is_list s.now k }
{
    number(s, k, place::FACT_TYPE) == LIST
}

// The fact that a node names, where there are so many facts; a Bool, 0 to 0, where there is no such fact.
pub fn named_fact(s: &[i64], facts: usize, f: usize) -> Named
    requires { GoodFacts s.now facts }
    ensures { result ≡ named_fact s.now facts f }
{
    if f < facts {
        Named {
            item: fact_item(s, f),
            list: is_list(s, f),
            most: word(s, f, place::FACT_LARGEST),
        }
    } else {
        no_fact()
    }
}

// Where a node names no fact.
pub fn no_fact() -> Named
    ensures { result ≡ no_fact }
{
    Named {
        item: Item::NONE,
        list: false,
        most: 0,
    }
}

#[tactic(auto, unfolding(crate::specs::Facts::good_default))]
pub fn good_default(flag: usize, min: i64, max: i64, default: i64) -> bool
    ensures { result ≡ good_default flag min max default }
{
    let inside = within(min, default, max);
    let zero = same(default, 0);
    if flag == 0 {
        zero
    } else {
        (flag == 1) & inside
    }
}

// The words past a fact's set; a list has no default.
#[tactic(auto, unfolding(crate::specs::Facts::good_tail, words::specs::Record::record_at))]
pub fn good_tail(s: &[i64], k: usize, r: Record<usize>) -> bool
    requires { (16 + 8 * k + 8 ≤ length s.now) × (r ≡ fact s.now k) }
    ensures { result ≡ good_tail s.now k }
{
    if is_list(s, k) {
        (r.w3 == 0) & (r.w6 <= 2) & (r.w7 <= 100)
    } else {
        r.unused(6)
    }
}

#[tactic(auto, unfolding(crate::specs::Entities::good_entity))]
pub fn good_entity(r: Record<usize>) -> bool
    ensures { result ≡ good_entity r }
{
    (1 <= r.w0) & (r.w0 <= 16) & (r.w1 < r.w0) & r.unused(2)
}

// How many states an entity has.
#[tactic(auto, unfolding(words::specs::Record::record_at))]
pub fn states_of(s: &Sheet, n: Entity) -> usize
    requires { n.0 < s.now.header.entities }
    ensures { result ≡ states s.now.words.now s.now.header n.0 }
{
    number(s.words, s.header.first_entity() + n.0, place::ENTITY_STATES)
}

// A rule's stratum.
#[tactic(auto, unfolding(words::specs::Record::record_at))]
pub fn stratum_of(s: &Sheet, k: Rule) -> usize
    requires { k.0 < s.now.header.rules }
    ensures { result ≡ stratum s.now.words.now s.now.header k.0 }
{
    number(s.words, s.header.first_rule() + k.0, place::RULE_STRATUM)
}

// How many outcomes an operation has.
#[tactic(auto, unfolding(words::specs::Record::record_at))]
pub fn outcomes_of(s: &Sheet, o: Operation) -> usize
    requires { o.0 < s.now.header.operations }
    ensures { result ≡ outcomes s.now.words.now s.now.header o.0 }
{
    number(
        s.words,
        s.header.first_operation() + o.0,
        place::OPERATION_OUTCOMES,
    )
}

#[tactic(auto, unfolding(crate::specs::Entities::good_change))]
pub fn good_change(s: &Sheet, r: Record<usize>) -> bool
    ensures { result ≡ good_change s.now.words.now s.now.header r }
{
    if r.w0 < s.header.entities {
        let n = states_of(s, Entity(r.w0));
        (r.w1 < n) & (r.w2 < n)
    } else {
        false
    }
}

#[tactic(auto, unfolding(crate::specs::Operations::good_mask))]
pub fn good_mask(h: Header, mask: usize) -> bool
    requires { h.personas ≤ 24 }
    ensures { result ≡ good_mask h mask }
{
    let top = 1usize << h.personas;
    (1 <= mask) & (mask < top)
}

#[tactic(auto, unfolding(crate::specs::Operations::good_outcome))]
pub fn good_outcome(first: bool, last: bool, before: usize, outcomes: usize, out: usize) -> bool
    requires { before < 8 }
    ensures { result ≡ good_outcome first last before outcomes out }
{
    if out < outcomes {
        let ends = !last | (out + 1 == outcomes);
        if first {
            (out == 0) & ends
        } else {
            ((out == before) | (out == before + 1)) & ends
        }
    } else {
        false
    }
}

#[tactic(auto, using(crate::proofs::Parts::few_outcomes), unfolding(crate::specs::Flows::good_operation_step))]
pub fn good_operation_step(s: &Sheet, r: Record<usize>) -> bool
    requires { (k : ℕ) → k < s.now.header.operations → good_operation s.now.words.now s.now.header k ≡ true }
    ensures { result ≡ good_operation_step s.now.words.now s.now.header r }
{
    if r.w1 < s.header.operations {
        let outcomes = outcomes_of(s, Operation(r.w1));
        (r.w2 < s.header.personas) & (r.w4 == outcomes + 1)
    } else {
        false
    }
}

#[tactic(auto, unfolding(crate::specs::Flows::good_route_of))]
pub fn good_route_of(owner: usize, end: usize, r: Record<usize>) -> bool
    ensures { result ≡ good_route_of owner end r }
{
    let tail = r.unused(2);
    if r.w0 == 0 {
        (owner < r.w1) & (r.w1 < end) & tail
    } else {
        (r.w0 == 1) & (r.w1 <= 2) & tail
    }
}
