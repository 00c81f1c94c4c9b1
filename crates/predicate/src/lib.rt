// Predicates over facts and verdicts: whether a node is true, and its range; and the verdicts.
#![tactic(auto)]

ghost use Rattle.std.specs.Prelude.{◌≡◌, true, ℕ, ◌+◌, ◌*◌, ◌^◌, ◌<◌, ◌≤◌, ℤ, pos, List, length, get_or, eqb};
ghost use Rattle.signed.specs.Words.{within as in_range, num as num_of};
ghost use Rattle.words.specs.Record.{words_at};
ghost use Rattle.layout.specs.Header.{header_of};
ghost use Rattle.records.specs.Nodes.{named_fact, item_of};
ghost use Rattle.records.specs.Accepted.{Accepted};
ghost use Rattle.node.specs.Kinds.{kind_number};
ghost use Rattle.node.specs.FactValues.{FactValue};
ghost use Rattle.kinds.specs.Inner.{is_quantifier};
ghost use Rattle.node.specs.Judged.{kids};
ghost use Rattle.tree.specs.Inner.{row_at, children_at, BaseOf};
ghost use Rattle.facts.specs.Inner.{FactsIn, held, start_in};
ghost use Rattle.predicate.specs.Values.{truth};
ghost use Rattle.predicate.specs.Units.{seconds_of};
ghost use Rattle.predicate.specs.Verdicts.{verdicts_of};
ghost use Rattle.predicate.specs.Inner.{Evaluable};
ghost use Rattle.predicate.specs.Base.{seconds_at, IsLeafAt, ReadsAt, IsJointAt, given_at, Rangeable, EvaluableAt, RangeAt, Ranges};

use item::Item;
use kinds::{
    bit, count_in, decides, is_exists, joint_from, leaf_of, quantifies, range_from, settles,
};
use layout::{Node, place};
use node::{Given, Kids, Kind};
use records::{Contract, named_fact};
use signed::{num, same, within};
use tables::entry;
use tree::{kids_at, kind_at};
use words::{number, words_at};

// A node of an unknown kind, of which an accepted sheet has none, is no quantifier, is decided by no child, and comes to 0.

// Whether the node in record k is a quantifier.
#[tactic(auto, unfolding(words::specs::Record::words_at))]
fn quantifies_at(s: &[i64], k: usize) -> bool
    requires { 16 + 8 * k + 8 ≤ length s.now }
    ensures { result ≡ is_quantifier (num_of (words_at s.now k).w0) }
{
    quantifies(number(s, k, place::NODE_KIND))
}

// Whether it is "exists".
fn exists_at(s: &[i64], k: usize) -> bool
    requires { 16 + 8 * k + 8 ≤ length s.now }
    ensures { result ≡ eqb (num_of (words_at s.now k).w0) 15 }
{
    match kind_at(s, k) {
        Ok(kind) => is_exists(kind),
        Err(_) => false,
    }
}

// Whether the first child of the node in record k, of value x, already decides it.
#[tactic(auto, unfolding(words::specs::Record::words_at))]
fn decides_at(s: &[i64], k: usize, x: i64) -> bool
    requires { 16 + 8 * k + 8 ≤ length s.now }
    ensures { result ≡ (row_at s.now k).decides x }
{
    decides(number(s, k, place::NODE_KIND), x)
}

// The type of the fact that a node names; it is looked up where the kind reads its value. There are `base` facts.
fn fact_sort(s: &[i64], base: usize, kind: Kind, f: usize) -> usize
    requires { BaseOf s.now base }
    ensures { kind_number kind ≡ 3 → result ≡ (named_fact s.now base f).item.sort }
{
    match kind {
        Kind::Fact => {
            let fact = named_fact(s, base, f);
            let item = fact.item;
            item.sort
        }
        _ => 0,
    }
}

// The value of the node in record k, which has no children, at the element at place `at` of the lent lists, a duration in seconds.
fn leaf_at(
    s: &[i64],
    base: usize,
    k: usize,
    facts: &[i64],
    lists: &[i64],
    verdicts: &[i64],
    at: usize,
) -> i64
    requires base_of { BaseOf s.now base × (16 + 8 * k + 8 ≤ length s.now) }
    requires leaf_at { IsLeafAt s.now k facts.now × ReadsAt s.now base k facts.now (held s.now facts.now lists.now) }
    ensures { (body : ℤ → ℤ) → result ≡ seconds_at s.now base k (held s.now facts.now lists.now) verdicts.now (get_or lists.now at (pos 0)) (pos 0) (pos 0) body }
{
    match kind_at(s, k) {
        Ok(kind) => {
            let w = words_at(s, k);
            let fact = fact_sort(s, base, kind, num(w.w1));
            leaf_of(kind, w, fact, facts, lists, verdicts, at)
        }
        Err(_) => 0,
    }
}

// The value of the node in record k, which has children and is no quantifier, from theirs, each duration in seconds.
fn joint_at(s: &[i64], k: usize, x: i64, y: i64) -> i64
    requires { (16 + 8 * k + 8 ≤ length s.now) × IsJointAt s.now k x y }
    ensures { (base : ℕ) (facts : List FactValue) (verdicts : List ℤ) (e : ℤ) (body : ℤ → ℤ) → result ≡ seconds_at s.now base k facts verdicts e x y body }
{
    match kind_at(s, k) {
        Ok(kind) => joint_from(kind, words_at(s, k), x, y),
        Err(_) => 0,
    }
}

// What a quantifier goes over, and whether it is "exists".
#[derive(Clone, Copy)]
pub struct Elements {
    pub exists: bool,
    pub first: usize,
    pub count: usize,
}

// Where the elements of a list start in the lent slice, from the word that is held for it.
fn start_in(word: i64) -> usize
    ensures value { result ≡ start_in word }
    ensures upper_bound { result < 2 ^ 57 }
{
    num(word) / 128
}

// The quantifier in record k: whether it is "exists", where the elements of its list start, and how many there are.
fn elements_of(s: &[i64], facts: &[i64], k: usize) -> Elements
    requires { 16 + 8 * k + 8 ≤ length s.now }
    ensures { Ranges s.now k facts.now result }
{
    let w = words_at(s, k);
    let word = entry(facts, num(w.w1), 0);
    Elements {
        exists: exists_at(s, k),
        first: start_in(word),
        count: count_in(word),
    }
}

// The value of a node, a duration in seconds, from those of its children, which have smaller numbers, so the calls end. In seconds two
// durations need no conversion, so no node is asked for its type. `base` is the record of the first node, the one number of the header that a
// tree needs: the header is eleven words, and each call would copy them. A quantifier asks for its body at each element of its list, up to the first
// that decides; in the body the current element stands at place `at` of the lent lists, elsewhere no node reads it. The loop stands here, for the
// stack: in a function of its own, which the compiler takes in, each call would hold every slice twice.
fn evaluate(
    s: &[i64],
    base: usize,
    facts: &[i64],
    lists: &[i64],
    verdicts: &[i64],
    n: Node,
    at: usize,
) -> i64
    requires { EvaluableAt s.now base facts.now lists.now verdicts.now n.0 (get_or lists.now at (pos 0)) }
    ensures { result ≡ seconds_of s.now (header_of s.now) (held s.now facts.now lists.now) verdicts.now n.0 (get_or lists.now at (pos 0)) }
{
    let k = base + n.0;
    match kids_at(s, k) {
        Kids::Zero => leaf_at(s, base, k, facts, lists, verdicts, at),
        Kids::One(a) => {
            if quantifies_at(s, k) {
                let over = elements_of(s, facts, k);
                let exists = over.exists;
                let first = over.first;
                let count = over.count;
                for j in 0..count {
                    let v = evaluate(s, base, facts, lists, verdicts, Node(a), first + j);
                    if settles(exists, v) {
                        return bit(exists);
                    }
                }
                return bit(!exists);
            }
            let x = evaluate(s, base, facts, lists, verdicts, Node(a), at);
            joint_at(s, k, x, 0)
        }
        Kids::Two(a, b) => {
            let x = evaluate(s, base, facts, lists, verdicts, Node(a), at);
            if decides_at(s, k, x) {
                return x;
            }
            let y = evaluate(s, base, facts, lists, verdicts, Node(b), at);
            joint_at(s, k, x, y)
        }
    }
}

// Whether a node is true: a when-node, a precondition, a branch.
pub fn is_true(s: &Contract, facts: &[i64], lists: &[i64], verdicts: &[i64], n: Node) -> bool
    requires { Evaluable s.now.sheet.words.now s.now.sheet.header (held s.now.sheet.words.now facts.now lists.now) verdicts.now n.0 }
    ensures { result ≡ truth s.now.sheet.words.now s.now.sheet.header (held s.now.sheet.words.now facts.now lists.now) verdicts.now n.0 }
{
    same(
        evaluate(
            s.sheet.words,
            s.sheet.header.facts,
            facts,
            lists,
            verdicts,
            n,
            lists.len(),
        ),
        1,
    )
}

// The verdict of each rule. A rule is judged by the verdicts before it, which are stored by then; what the buffer held is not read.
pub fn fill_verdicts(s: &Contract, facts: &[i64], lists: &[i64], out: &mut [i64])
    requires { FactsIn s.now.sheet.words.now s.now.sheet.header (held s.now.sheet.words.now facts.now lists.now) × (length out.old ≡ s.now.sheet.header.rules) }
    ensures { out.new ≡ verdicts_of s.now.sheet.words.now s.now.sheet.header (held s.now.sheet.words.now facts.now lists.now) }
{
    let rules = s.sheet.header.rules;
    let first = s.sheet.header.facts + s.sheet.header.nodes;
    for k in 0..rules {
        let when = number(s.sheet.words, first + k, place::RULE_WHEN_NODE);
        let holds = is_true(s, facts, lists, &out[..k], Node(when));
        out[k] = bit(holds);
    }
}

// The type and range of the node in record k, which is good, from those of its children. There are `base` facts. Not taken into
// `item_at`, for the stack: each of up to 640 calls would hold what one judgement needs.
#[inline(never)]
fn range_at(s: &[i64], base: usize, rules: usize, k: usize, x: Item, y: Item) -> Item
    requires base_of { BaseOf s.now base × (16 + 8 * k + 8 ≤ length s.now) }
    requires rangeable { Rangeable s.now base rules k x y }
    ensures { result ≡ (row_at s.now k).gives (given_at s.now base rules k x y) }
{
    match kind_at(s, k) {
        Ok(kind) => {
            let words = words_at(s, k);
            let fact = named_fact(s, base, num(words.w1));
            let g = Given {
                words,
                facts: base,
                rules,
                fact,
                x: x.align(y),
                y: y.align(x),
            };
            range_from(kind, g)
        }
        Err(_) => Item::NONE,
    }
}

// The type and value range of a node from those of its children.
fn item_at(s: &[i64], base: usize, rules: usize, n: Node) -> Item
    requires { RangeAt s.now base rules n.0 }
    ensures { result ≡ item_of s.now (header_of s.now) n.0 }
{
    let k = base + n.0;
    let none = Item::NONE;
    let (a, other) = match kids_at(s, k) {
        Kids::Zero => return range_at(s, base, rules, k, none, none),
        Kids::One(a) => (a, None),
        Kids::Two(a, b) => (a, Some(b)),
    };
    let x = item_at(s, base, rules, Node(a));
    let Some(b) = other else {
        return range_at(s, base, rules, k, x, none);
    };
    let y = item_at(s, base, rules, Node(b));
    range_at(s, base, rules, k, x, y)
}

// Whether the node's range includes 1.
pub fn can_hold(s: &Contract, n: Node) -> bool
    requires { n.0 < s.now.sheet.header.nodes }
    ensures { result ≡ in_range (item_of s.now.sheet.words.now s.now.sheet.header n.0).low (pos 1) (item_of s.now.sheet.words.now s.now.sheet.header n.0).high }
{
    let x = item_at(s.sheet.words, s.sheet.header.facts, s.sheet.header.rules, n);
    within(x.low, 1, x.high)
}
