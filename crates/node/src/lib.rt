// A node by its kind, as the kind's row in specs/Rows.antt says.
#![tactic(auto)]

ghost use Rattle.std.specs.Prelude.{◌≡◌, true, cond, ◌&&◌, [], ◌∷◌, ◌≤◌};
ghost use Rattle.signed.specs.Operators.{operator_number};
ghost use Rattle.item.specs.Sorts.{is_number};
ghost use Rattle.item.specs.Items.{small as small_item};
ghost use Rattle.words.specs.Record.{numbers_of, unused as unused_words};
ghost use Rattle.node.specs.Kinds.{kind_number, Decodes};
ghost use Rattle.node.specs.Rows as rows;
ghost use Rattle.node.specs.Judged as judged;

use item::Item;
use signed::{Comparison, bounded, num, within};
use words::Record;

// The fact that a node names: the type and range of its value or, where it is a list, of its elements, and the list's largest length.
#[derive(Clone, Copy)]
pub struct Named {
    pub item: Item,
    pub list: bool,
    pub most: i64,
}

// What a node is worked out from: its words, how many facts and rules there are, the fact that it names, and the types and ranges of its
// children, converted.
#[derive(Clone, Copy)]
pub struct Given {
    pub words: Record<i64>,
    pub facts: usize,
    pub rules: usize,
    pub fact: Named,
    pub x: Item,
    pub y: Item,
}

// The kinds of nodes, which have the numbers 0 to 17.
#[derive(Clone, Copy)]
pub enum Kind {
    IntLiteral,
    BoolLiteral,
    EnumLiteral,
    Fact,
    Sum,
    Difference,
    Product,
    Comparison,
    Present,
    And,
    Or,
    Not,
    MoneyLiteral,
    DurationLiteral,
    ForAll,
    Exists,
    Length,
    Element,
}

// A number that is no kind's.
#[derive(Clone, Copy)]
pub struct UnknownKind(pub usize);

impl TryFrom<usize> for Kind {
    type Error = UnknownKind;

    ghost try_from_gives = { Decodes };

    fn try_from(n: usize) -> Result<Self, UnknownKind> {
        match n {
            0 => Ok(Kind::IntLiteral),
            1 => Ok(Kind::BoolLiteral),
            2 => Ok(Kind::EnumLiteral),
            3 => Ok(Kind::Fact),
            4 => Ok(Kind::Sum),
            5 => Ok(Kind::Difference),
            6 => Ok(Kind::Product),
            7 => Ok(Kind::Comparison),
            8 => Ok(Kind::Present),
            9 => Ok(Kind::And),
            10 => Ok(Kind::Or),
            11 => Ok(Kind::Not),
            12 => Ok(Kind::MoneyLiteral),
            13 => Ok(Kind::DurationLiteral),
            14 => Ok(Kind::ForAll),
            15 => Ok(Kind::Exists),
            16 => Ok(Kind::Length),
            17 => Ok(Kind::Element),
            18.. => Err(UnknownKind(n)),
        }
    }
}

// The children that a node names.
#[derive(Clone, Copy)]
pub enum Kids {
    Zero,
    One(usize),
    Two(usize, usize),
}

// Whether a type is Int, Money or Duration.
fn is_number(t: usize) -> bool
    ensures { result ≡ is_number t }
{
    (t == 1) | (130 <= t)
}

fn numbers(x: Item, y: Item) -> bool
    ensures { result ≡ rows.numbers x y }
{
    (x.sort == y.sort) & is_number(x.sort)
}

fn bools(x: Item, y: Item) -> bool
    ensures { result ≡ rows.bools x y }
{
    (x.sort == 0) & (y.sort == 0)
}

// = and ≠ take two of one type, the others two numbers.
fn comparable(op: Comparison, x: Item, y: Item) -> bool
    ensures { result ≡ rows.comparable (operator_number op) x y }
{
    let any = matches!(op, Comparison::Equal | Comparison::Unequal);
    (x.sort == y.sort) & (any | is_number(x.sort))
}

// The node of item x, where its words past `used` are 0, its kind takes what it is given, and x lies in −M..M.
#[tactic(auto, unfolding(crate::specs::Judged::keep))]
fn checked(used: usize, g: Given, takes: bool, x: Item) -> Option<Item>
    ensures { result ≡ judged.keep (unused_words used (numbers_of g.words) && takes && small_item x) x }
{
    let w = g.words;
    if w.numbers().unused(used) & takes & x.small() {
        Some(x)
    } else {
        None
    }
}

fn literal(g: Given, used: usize, low: i64, high: i64, t: usize, m: usize) -> Option<Item>
    requires { (t ≤ 258) × (m ≤ 127) }
    ensures { result ≡ judged.judged (rows.literal used low high t m) g }
{
    let w = g.words;
    let part = num(w.w2);
    if m < part {
        return None;
    }
    let x = Item {
        sort: t + part,
        low: w.w1,
        high: w.w1,
    };
    checked(used, g, within(low, w.w1, high), x)
}

// Whether there is a fact of the number in word 1.
fn names_fact(g: Given) -> bool
    ensures { result ≡ rows.names_fact g }
{
    let w = g.words;
    num(w.w1) < g.facts
}

// And it is a list.
fn names_list(g: Given) -> bool
    ensures { result ≡ rows.names_list g }
{
    let f = g.fact;
    names_fact(g) & f.list
}

#[tactic(auto, unfolding(crate::specs::Judged::judged, crate::specs::Rows::fits))]
fn product(g: Given) -> Option<Item>
    requires { judged.SmallKids g }
    ensures { result ≡ judged.judged rows.product g }
{
    let w = g.words;
    let x = g.x;
    if bounded(w.w2) {
        checked(3, g, x.sort == 1, x.multiple(w.w2))
    } else {
        None
    }
}

#[tactic(auto, unfolding(crate::specs::Judged::judged, crate::specs::Rows::fits))]
fn comparison(g: Given) -> Option<Item>
    requires { judged.SmallKids g }
    ensures { result ≡ judged.judged rows.comparison g }
{
    let w = g.words;
    let x = g.x;
    let y = g.y;
    match Comparison::try_from(num(w.w1)) {
        Ok(op) => checked(4, g, comparable(op, x, y), x.compared(op, y)),
        Err(_) => None,
    }
}

// A node that has children, whose ranges lie in −M..M. "For all" and "exists" are judged alike.
#[tactic(auto, unfolding(crate::specs::Judged::judged, crate::specs::Rows::fits, crate::specs::Rows::row_of))]
fn judge_by_kind(k: Kind, g: Given) -> Option<Item>
    requires { judged.SmallKids g × ((rows.row_of (kind_number k)).children g.words ≡ [] → ⊥) }
    ensures { result ≡ judged.judged (rows.row_of (kind_number k)) g }
{
    let x = g.x;
    let y = g.y;
    match k {
        Kind::Sum => checked(3, g, numbers(x, y), x.sum(y)),
        Kind::Difference => checked(3, g, numbers(x, y), x.difference(y)),
        Kind::Product => product(g),
        Kind::Comparison => comparison(g),
        Kind::And => checked(3, g, bools(x, y), x.both(y)),
        Kind::Or => checked(3, g, bools(x, y), x.either(y)),
        Kind::Not => checked(2, g, x.sort == 0, x.negation()),
        Kind::ForAll | Kind::Exists => checked(3, g, names_list(g) & (x.sort == 0), Item::TRUTH),
        _ => None,
    }
}

impl Kind {
    // A node that has no children. Apart from the others, for speed: half of a sheet's nodes have none.
    #[tactic(auto, unfolding(crate::specs::Judged::judged, crate::specs::Rows::fits, crate::specs::Rows::row_of))]
    pub fn judge_leaf(self, g: Given) -> Option<Item>
        requires { (rows.row_of (kind_number self)).children g.words ≡ [] }
        ensures { result ≡ judged.judged (rows.row_of (kind_number self)) g }
    {
        let w = g.words;
        let f = g.fact;
        match self {
            Kind::IntLiteral => literal(g, 2, -1_000_000_000, 1_000_000_000, 1, 0),
            Kind::BoolLiteral => literal(g, 2, 0, 1, 0, 0),
            Kind::EnumLiteral => literal(g, 3, 0, 255, 2, 127),
            Kind::Fact => checked(2, g, names_fact(g) & !f.list, f.item),
            Kind::Present => checked(2, g, num(w.w1) < g.rules, Item::TRUTH),
            Kind::MoneyLiteral => literal(g, 3, -1_000_000_000, 1_000_000_000, 130, 127),
            Kind::DurationLiteral => literal(g, 3, -1_000_000_000, 1_000_000_000, 258, 3),
            Kind::Length => {
                let x = Item {
                    sort: 1,
                    low: 0,
                    high: f.most,
                };
                checked(2, g, names_list(g), x)
            }
            Kind::Element => checked(2, g, names_list(g), f.item),
            _ => None,
        }
    }

    // A node that has children.
    pub fn judge_parent(self, g: Given) -> Option<Item>
        requires { (rows.row_of (kind_number self)).children g.words ≡ [] → ⊥ }
        ensures { result ≡ judged.judged_parent (rows.row_of (kind_number self)) g }
    {
        let x = g.x;
        let y = g.y;
        if x.small() & y.small() {
            judge_by_kind(self, g)
        } else {
            None
        }
    }

    // The children of a node: the nodes that its words name.
    #[tactic(auto, unfolding(crate::specs::Rows::row_of))]
    pub fn children(self, w: Record<i64>) -> Kids
        ensures { judged.kids result ≡ (rows.row_of (kind_number self)).children w }
    {
        match self {
            Kind::Sum | Kind::Difference | Kind::And | Kind::Or => Kids::Two(num(w.w1), num(w.w2)),
            Kind::Product | Kind::Not => Kids::One(num(w.w1)),
            Kind::Comparison => Kids::Two(num(w.w2), num(w.w3)),
            Kind::ForAll | Kind::Exists => Kids::One(num(w.w2)),
            _ => Kids::Zero,
        }
    }
}

// The same by the number of a kind: with a number that is no kind's a node is bad, and has no children.
pub fn judge_leaf(k: usize, g: Given) -> Option<Item>
    requires { (rows.row_of k).children g.words ≡ [] }
    ensures { result ≡ judged.judged (rows.row_of k) g }
{
    match Kind::try_from(k) {
        Ok(kind) => kind.judge_leaf(g),
        Err(_) => None,
    }
}

pub fn judge_parent(k: usize, g: Given) -> Option<Item>
    requires { (rows.row_of k).children g.words ≡ [] → ⊥ }
    ensures { result ≡ judged.judged_parent (rows.row_of k) g }
{
    match Kind::try_from(k) {
        Ok(kind) => kind.judge_parent(g),
        Err(_) => None,
    }
}

pub fn children(k: usize, w: Record<i64>) -> Kids
    ensures { judged.kids result ≡ (rows.row_of k).children w }
{
    match Kind::try_from(k) {
        Ok(kind) => kind.children(w),
        Err(_) => Kids::Zero,
    }
}
