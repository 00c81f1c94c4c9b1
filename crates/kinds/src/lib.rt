// One node by its kind, apart from the checker's scan: its value and its range from those of its children, as the kind's row in
// node/specs/Rows.antt says.
#![tactic(auto)]

ghost use Rattle.std.specs.Prelude.{◌≡◌, true, false, not, ◌&&◌, ◌||◌, ℕ, ◌+◌, ◌%◌, ◌≤◌, ℤ, pos, ◌+ℤ◌, ◌-ℤ◌, ◌*ℤ◌, List, get_or, eqb};
ghost use Rattle.signed.specs.Words.{num as word_number};
ghost use Rattle.signed.specs.Compare.{holds as comparison};
ghost use Rattle.item.specs.Items.{span, compared};
ghost use Rattle.item.specs.Inner.{Small};
ghost use Rattle.node.specs.Kinds.{kind_number};
ghost use Rattle.node.specs.FactValues.{FactValue};
ghost use Rattle.node.specs.Rows.{bit, is_true, row_of};
ghost use Rattle.node.specs.Judged.{SmallKids};
ghost use Rattle.kinds.specs.Inner.{seconds_from, Wide, Leaf, Reads, Joint, is_quantifier, settles};

use item::{Item, converted};
use node::{Given, Kind};
use signed::{Comparison, num, same, to_word};
use tables::entry;
use words::Record;

// A truth value, as a word.
pub fn bit(b: bool) -> i64
    ensures { result ≡ bit b }
{
    i64::from(b)
}

fn compare(w: Record<i64>, x: i64, y: i64) -> i64
    ensures { result ≡ bit (comparison (word_number w.w1) x y) }
{
    match Comparison::try_from(num(w.w1)) {
        Ok(op) => bit(op.holds(x, y)),
        Err(_) => 0,
    }
}

// The fact or the verdict that word 1 names.
fn named(t: &[i64], w: Record<i64>) -> i64
    ensures { result ≡ get_or t.now (word_number w.w1) (pos 0) }
{
    entry(t, num(w.w1), 0)
}

// The type of a literal: t and what word 2 adds.
fn literal_sort(w: Record<i64>, t: usize) -> usize
    requires { (t ≤ 258) × (word_number w.w2 ≤ 127) }
    ensures { result ≡ t + word_number w.w2 }
{
    t + num(w.w2)
}

// How many elements a list has, from the word that is held for it.
pub fn count_in(word: i64) -> usize
    ensures { result ≡ word_number word % 128 }
{
    num(word) % 128
}

// The value of a node that has no children, a duration in seconds. `words` has a word for each fact: its value or, of a list, one that tells its
// length. `fact` is the type of the fact that the node names, which is read where it reads the fact's value; the current element stands at place
// `at` of the lent lists. Apart from the others, for speed: only here is anything converted.
pub fn leaf_of(
    k: Kind,
    w: Record<i64>,
    fact: usize,
    words: &[i64],
    lists: &[i64],
    verdicts: &[i64],
    at: usize,
) -> i64
    requires { Leaf (kind_number k) w words.now }
    ensures { (facts : List FactValue) (f : ℕ) (body : ℤ → ℤ) → (kind_number k ≡ 3 → fact ≡ f) → Reads (kind_number k) w words.now facts f → result ≡ seconds_from (kind_number k) w f facts verdicts.now (get_or lists.now at (pos 0)) (pos 0) (pos 0) body }
{
    match k {
        Kind::IntLiteral | Kind::BoolLiteral | Kind::EnumLiteral | Kind::MoneyLiteral => w.w1,
        Kind::Fact => converted(fact, 261, named(words, w)),
        Kind::Present => named(verdicts, w),
        Kind::DurationLiteral => converted(literal_sort(w, 258), 261, w.w1),
        Kind::Length => to_word(count_in(named(words, w))),
        Kind::Element => entry(lists, at, 0),
        _ => 0,
    }
}

// The same by the number of a kind; a node of none comes to 0.
pub fn leaf_from(
    k: usize,
    w: Record<i64>,
    fact: usize,
    words: &[i64],
    lists: &[i64],
    verdicts: &[i64],
    at: usize,
) -> i64
    requires { Leaf k w words.now }
    ensures { (facts : List FactValue) (f : ℕ) (body : ℤ → ℤ) → (k ≡ 3 → fact ≡ f) → Reads k w words.now facts f → result ≡ seconds_from k w f facts verdicts.now (get_or lists.now at (pos 0)) (pos 0) (pos 0) body }
{
    match Kind::try_from(k) {
        Ok(kind) => leaf_of(kind, w, fact, words, lists, verdicts, at),
        Err(_) => 0,
    }
}

// The value of a node that has children and is no quantifier, from theirs, each duration in seconds.
pub fn joint_from(k: Kind, w: Record<i64>, x: i64, y: i64) -> i64
    requires { Joint (kind_number k) w x y }
    ensures { (f : ℕ) (facts : List FactValue) (verdicts : List ℤ) (e : ℤ) (body : ℤ → ℤ) → result ≡ seconds_from (kind_number k) w f facts verdicts e x y body }
{
    match k {
        Kind::Sum => x + y,
        Kind::Difference => x - y,
        Kind::Product => x * w.w2,
        Kind::Comparison => compare(w, x, y),
        Kind::And => bit(same(x, 1) & same(y, 1)),
        Kind::Or => bit(same(x, 1) | same(y, 1)),
        Kind::Not => bit(!same(x, 1)),
        _ => 0,
    }
}

// Whether the first child of a node already decides it.
#[tactic(auto, unfolding(node::specs::Rows::row_of))]
pub fn is_decided(k: Kind, x: i64) -> bool
    ensures { result ≡ (row_of (kind_number k)).decides x }
{
    match k {
        Kind::And => same(x, 0),
        Kind::Or => same(x, 1),
        _ => false,
    }
}

// The same by the number of a kind; a node of none is decided by no child.
pub fn decides(k: usize, x: i64) -> bool
    ensures { result ≡ (row_of k).decides x }
{
    match Kind::try_from(k) {
        Ok(kind) => is_decided(kind, x),
        Err(_) => false,
    }
}

// Whether a node is a quantifier.
pub fn is_quantifier(k: Kind) -> bool
    ensures { result ≡ is_quantifier (kind_number k) }
{
    matches!(k, Kind::ForAll | Kind::Exists)
}

// The same by the number of a kind; a node of none is no quantifier.
pub fn quantifies(k: usize) -> bool
    ensures { result ≡ is_quantifier k }
{
    match Kind::try_from(k) {
        Ok(kind) => is_quantifier(kind),
        Err(_) => false,
    }
}

// Whether a node is "exists".
pub fn is_exists(k: Kind) -> bool
    ensures { result ≡ eqb (kind_number k) 15 }
{
    matches!(k, Kind::Exists)
}

// Whether the body's value x at an element decides a quantifier: "exists" where it is true, "for all" where it is not.
#[tactic(auto, unfolding(crate::specs::Inner::settles))]
pub fn settles(exists: bool, x: i64) -> bool
    ensures { result ≡ settles exists x }
{
    same(x, 1) == exists
}

// The type and range of a literal.
fn literal_range(w: Record<i64>, t: usize) -> Item
    requires { (t ≤ 258) × (word_number w.w2 ≤ 127) }
    ensures { result ≡ span (t + word_number w.w2) w.w1 w.w1 }
{
    Item {
        sort: literal_sort(w, t),
        low: w.w1,
        high: w.w1,
    }
}

// The type and range of a comparison, of which there are six.
fn comparison_range(w: Record<i64>, x: Item, y: Item) -> Item
    requires { Small x × Small y × (word_number w.w1 ≤ 5) }
    ensures { result ≡ compared (word_number w.w1) x y }
{
    match Comparison::try_from(num(w.w1)) {
        Ok(op) => x.compared(op, y),
        Err(_) => Item::NONE,
    }
}

// The type and range of a node that its row takes.
#[tactic(auto, unfolding(node::specs::Rows::row_of))]
pub fn range_from(k: Kind, g: Given) -> Item
    requires { SmallKids g × ((row_of (kind_number k)).takes g ≡ true) }
    ensures { result ≡ (row_of (kind_number k)).gives g }
{
    let w = g.words;
    let f = g.fact;
    let x = g.x;
    let y = g.y;
    match k {
        Kind::IntLiteral => literal_range(w, 1),
        Kind::BoolLiteral => literal_range(w, 0),
        Kind::EnumLiteral => literal_range(w, 2),
        Kind::Fact | Kind::Element => f.item,
        Kind::Sum => x.sum(y),
        Kind::Difference => x.difference(y),
        Kind::Product => x.multiple(w.w2),
        Kind::Comparison => comparison_range(w, x, y),
        Kind::Present | Kind::ForAll | Kind::Exists => Item::TRUTH,
        Kind::And => x.both(y),
        Kind::Or => x.either(y),
        Kind::Not => x.negation(),
        Kind::MoneyLiteral => literal_range(w, 130),
        Kind::DurationLiteral => literal_range(w, 258),
        Kind::Length => Item {
            sort: 1,
            low: 0,
            high: f.most,
        },
    }
}
