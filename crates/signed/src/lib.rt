// Signed words as integers: tests, bounds, the number that a word is, arithmetic in −M..M, and comparisons over ranges of values.
// The laws that callers' proofs cite are in proofs/, by natural numbers alone.
#![tactic(auto)]

ghost use Rattle.std.specs.Prelude.{◌≡◌, true, not, ℤ, pos, ◌+ℤ◌, ◌-ℤ◌, ◌*ℤ◌, ◌<◌, ◌^◌};
ghost use Rattle.std.specs.Int.Signed.{lt_z, le_z};
ghost use Rattle.signed.specs.Words.{eq_z, within, bounded, num};
ghost use Rattle.signed.specs.Compare.{holds, can_hold, can_fail};
ghost use Rattle.signed.specs.Operators.{operator_number, Decodes};

// The tests, `within`, `to_word` and the arithmetic stay functions: what an operator gives is known through a word's 64 bits, and these say it of
// the integers, which is what callers' proofs go by.
pub fn less(a: i64, b: i64) -> bool
    ensures { result ≡ lt_z a b }
{
    a < b
}

pub fn at_most(a: i64, b: i64) -> bool
    ensures { result ≡ le_z a b }
{
    a <= b
}

pub fn same(a: i64, b: i64) -> bool
    ensures { result ≡ eq_z a b }
{
    a == b
}

pub fn within(low: i64, x: i64, high: i64) -> bool
    ensures { result ≡ within low x high }
{
    (low <= x) & (x <= high)
}

// Whether a word lies in −M..M.
pub fn bounded(x: i64) -> bool
    ensures { result ≡ bounded x }
{
    within(-1_000_000_000, x, 1_000_000_000)
}

// The natural number that a word is; a negative word is a number past every limit.
pub fn num(w: i64) -> usize
    ensures { result ≡ num w }
{
    w.cast_unsigned() as usize
}

pub fn to_word(n: usize) -> i64
    requires { n < 2 ^ 63 }
    ensures { result ≡ pos n }
{
    n as i64
}

// Sum, difference and product of integers in −M..M: 64 bits hold them.
pub fn plus(a: i64, b: i64) -> i64
    requires { (bounded a ≡ true) × (bounded b ≡ true) }
    ensures { result ≡ a +ℤ b }
{
    a + b
}

pub fn minus(a: i64, b: i64) -> i64
    requires { (bounded a ≡ true) × (bounded b ≡ true) }
    ensures { result ≡ a -ℤ b }
{
    a - b
}

pub fn times(a: i64, b: i64) -> i64
    requires { (bounded a ≡ true) × (bounded b ≡ true) }
    ensures { result ≡ a *ℤ b }
{
    a * b
}

// The six comparisons = ≠ < ≤ > ≥, which have the numbers 0 to 5.
#[derive(Clone, Copy)]
pub enum Comparison {
    Equal,
    Unequal,
    Less,
    AtMost,
    Greater,
    AtLeast,
}

// A number that is no comparison's.
#[derive(Clone, Copy)]
pub struct UnknownComparison(pub usize);

impl TryFrom<usize> for Comparison {
    type Error = UnknownComparison;

    ghost try_from_gives = { Decodes };

    fn try_from(n: usize) -> Result<Self, UnknownComparison> {
        match n {
            0 => Ok(Comparison::Equal),
            1 => Ok(Comparison::Unequal),
            2 => Ok(Comparison::Less),
            3 => Ok(Comparison::AtMost),
            4 => Ok(Comparison::Greater),
            5 => Ok(Comparison::AtLeast),
            6.. => Err(UnknownComparison(n)),
        }
    }
}

impl Comparison {
    // The comparison that holds where this one does not.
    fn opposite(self) -> Self
        ensures { (x : ℤ) (y : ℤ) → holds (operator_number result) x y ≡ not (holds (operator_number self) x y) }
    {
        match self {
            Comparison::Equal => Comparison::Unequal,
            Comparison::Unequal => Comparison::Equal,
            Comparison::Less => Comparison::AtLeast,
            Comparison::AtMost => Comparison::Greater,
            Comparison::Greater => Comparison::AtMost,
            Comparison::AtLeast => Comparison::Less,
        }
    }

    pub fn holds(self, a: i64, b: i64) -> bool
        ensures { result ≡ holds (operator_number self) a b }
    {
        match self {
            Comparison::Equal => a == b,
            Comparison::Unequal => a != b,
            Comparison::Less => a < b,
            Comparison::AtMost => a <= b,
            Comparison::Greater => a > b,
            Comparison::AtLeast => a >= b,
        }
    }

    // Whether some x of l1..h1 and y of l2..h2 satisfy the comparison: if any pair does, then one of three does.
    pub fn can_hold(self, l1: i64, h1: i64, l2: i64, h2: i64) -> bool
        ensures { result ≡ can_hold (operator_number self) l1 h1 l2 h2 }
    {
        let m = l1.max(l2);
        let common = at_most(l1, h2) & at_most(l2, h1) & self.holds(m, m);
        self.holds(l1, h2) | self.holds(h1, l2) | common
    }

    // Whether some x of l1..h1 and y of l2..h2 do not satisfy it.
    pub fn can_fail(self, l1: i64, h1: i64, l2: i64, h2: i64) -> bool
        ensures { result ≡ can_fail (operator_number self) l1 h1 l2 h2 }
    {
        self.opposite().can_hold(l1, h1, l2, h2)
    }
}

// The same by the number of a comparison: with a number that is no comparison's nothing holds.
pub fn holds(op: usize, a: i64, b: i64) -> bool
    ensures { result ≡ holds op a b }
{
    match Comparison::try_from(op) {
        Ok(op) => op.holds(a, b),
        Err(_) => false,
    }
}

pub fn can_hold(op: usize, l1: i64, h1: i64, l2: i64, h2: i64) -> bool
    ensures { result ≡ can_hold op l1 h1 l2 h2 }
{
    match Comparison::try_from(op) {
        Ok(op) => op.can_hold(l1, h1, l2, h2),
        Err(_) => false,
    }
}

pub fn can_fail(op: usize, l1: i64, h1: i64, l2: i64, h2: i64) -> bool
    ensures { result ≡ can_fail op l1 h1 l2 h2 }
{
    match Comparison::try_from(op) {
        Ok(op) => op.can_fail(l1, h1, l2, h2),
        Err(_) => true,
    }
}
