// A type with a range of values, and the range of each operator from those of its operands.
#![tactic(auto)]

ghost use Rattle.std.specs.Prelude.{◌≡◌, true, pos, ◌*ℤ◌};
ghost use Rattle.signed.specs.Words.{bounded};
ghost use Rattle.signed.specs.Operators.{operator_number};
ghost use Rattle.item.specs.Units as units;
ghost use Rattle.item.specs.Items as items;
ghost use Rattle.item.specs.Inner.{Small};

use signed::{Comparison, bounded, can_fail, can_hold, minus, plus, times, to_word};

// A type by its number, and the values from `low` to `high`, both included. The number stays one, since the definitions count in it: an Enum's
// set, a currency and a unit are offsets in it, and of two units the greater number is the smaller unit.
#[derive(Clone, Copy)]
pub struct Item {
    pub sort: usize,
    pub low: i64,
    pub high: i64,
}

// n where the way from type u to type v leads past type k, else 1.
fn crossed(k: usize, n: usize, u: usize, v: usize) -> usize
    ensures { result ≡ units.crossed k n u v }
{
    if (u <= k) & (k < v) { n } else { 1 }
}

// How many of the unit of type v one of the unit of type u is.
fn factor(u: usize, v: usize) -> usize
    ensures { result ≡ units.factor u v }
{
    crossed(258, 24, u, v) * crossed(259, 60, u, v) * crossed(260, 60, u, v)
}

// A value of type a beside one of type b.
pub fn converted(a: usize, b: usize, v: i64) -> i64
    requires { bounded v ≡ true }
    ensures { result ≡ units.converted a b v }
{
    if (258 <= a) & (a < b) {
        times(v, to_word(factor(a, b)))
    } else {
        v
    }
}

// The range from a×n to b×n.
fn scaled(sort: usize, a: i64, b: i64, n: i64) -> Item
    requires { (bounded a ≡ true) × (bounded b ≡ true) × (bounded n ≡ true) }
    ensures { result ≡ items.span sort (a *ℤ n) (b *ℤ n) }
{
    Item {
        sort,
        low: times(a, n),
        high: times(b, n),
    }
}

impl Item {
    // Where there is none.
    pub const NONE: Item = Item {
        sort: 0,
        low: 0,
        high: 0,
    };

    // A truth value, which may be either.
    pub const TRUTH: Item = Item {
        sort: 0,
        low: 0,
        high: 1,
    };

    // Whether both ends lie in −M..M.
    pub fn small(self) -> bool
        ensures { result ≡ items.small self }
    {
        bounded(self.low) & bounded(self.high)
    }

    pub fn sum(self, y: Item) -> Item
        requires { Small self × Small y }
        ensures { result ≡ items.sum self y }
    {
        Item {
            sort: self.sort,
            low: plus(self.low, y.low),
            high: plus(self.high, y.high),
        }
    }

    pub fn difference(self, y: Item) -> Item
        requires { Small self × Small y }
        ensures { result ≡ items.difference self y }
    {
        Item {
            sort: self.sort,
            low: minus(self.low, y.high),
            high: minus(self.high, y.low),
        }
    }

    // This, a duration, in the unit of type t.
    fn in_unit(self, t: usize) -> Item
        requires { Small self }
        ensures { result ≡ items.span t (self.low *ℤ pos (units.factor self.sort t)) (self.high *ℤ pos (units.factor self.sort t)) }
    {
        scaled(t, self.low, self.high, to_word(factor(self.sort, t)))
    }

    // This beside y, each of two durations being taken to the smaller unit.
    pub fn align(self, y: Item) -> Item
        requires { Small self }
        ensures { result ≡ items.align self y }
    {
        let larger = (258 <= self.sort) & (self.sort < y.sort);
        if larger { self.in_unit(y.sort) } else { self }
    }

    pub fn multiple(self, n: i64) -> Item
        requires { (bounded n ≡ true) × Small self }
        ensures { result ≡ items.multiple n self }
    {
        let turned = n < 0;
        if turned {
            scaled(self.sort, self.high, self.low, n)
        } else {
            scaled(self.sort, self.low, self.high, n)
        }
    }

    pub fn compared(self, op: Comparison, y: Item) -> Item
        requires { Small self × Small y }
        ensures { result ≡ items.compared (operator_number op) self y }
    {
        let fails = op.can_fail(self.low, self.high, y.low, y.high);
        let holds = op.can_hold(self.low, self.high, y.low, y.high);
        Item {
            sort: 0,
            low: i64::from(!fails),
            high: i64::from(holds),
        }
    }

    pub fn both(self, y: Item) -> Item
        requires { Small self × Small y }
        ensures { result ≡ items.both self y }
    {
        Item {
            sort: 0,
            low: self.low.min(y.low),
            high: self.high.min(y.high),
        }
    }

    pub fn either(self, y: Item) -> Item
        requires { Small self × Small y }
        ensures { result ≡ items.either self y }
    {
        Item {
            sort: 0,
            low: self.low.max(y.low),
            high: self.high.max(y.high),
        }
    }

    pub fn negation(self) -> Item
        requires { Small self }
        ensures { result ≡ items.negation self }
    {
        Item {
            sort: 0,
            low: minus(1, self.high),
            high: minus(1, self.low),
        }
    }
}

// The range of a comparison by its number; with a number that is no comparison's it is false.
pub fn compared(op: usize, x: Item, y: Item) -> Item
    requires { Small x × Small y }
    ensures { result ≡ items.compared op x y }
{
    let fails = can_fail(op, x.low, x.high, y.low, y.high);
    let holds = can_hold(op, x.low, x.high, y.low, y.high);
    Item {
        sort: 0,
        low: i64::from(!fails),
        high: i64::from(holds),
    }
}
