// The scan of the nodes, in order. Kept are what later records ask of a node: its type, of the tree under it the greatest rule and the elements that
// it cites, and whether it has been named; and, for this scan alone, value ranges.
#![tactic(auto)]

ghost use Rattle.std.specs.Prelude.{◌≡◌, true, false, cond, ◌||◌, [], ℕ, suc, ◌<◌, ◌≤◌, max, ltb, eqb, length, get_or, replicate, OnOk};
ghost use Rattle.signed.specs.Words.{num as word_number};
ghost use Rattle.tables.specs.Inner.{marked};
ghost use Rattle.layout.specs.Header.{first_node};
ghost use Rattle.item.specs.Inner.{Small};
ghost use Rattle.node.specs.declared.Kids.TheVariants.{Zero};
ghost use Rattle.node.specs.Kinds.{kind_number};
ghost use Rattle.node.specs.Rows.{row_of};
ghost use Rattle.node.specs.Judged.{kids, judged, judged_parent};
ghost use Rattle.records.specs.Nodes.{named_fact, good_children, good_node};
ghost use Rattle.records.specs.Scans.{scanned};
ghost use Rattle.sheet_nodes.specs.Scopes.{shut, joint, over, own_scope, kid_scope};
ghost use Rattle.sheet_nodes.specs.Arrays.{item_at, greatest, Filled};
ghost use Rattle.sheet_nodes.specs.Steps.{names_one, first_kid, second_kid, given_by, leaf_given, Inside, Begun, Judgeable, with_item, with_tree, with_flags, name_kids, Turn, Placed, Took};

use item::Item;
use layout::{Header, Sheet};
use node::{Given, Kids, Kind, Named};
use records::{named_fact, no_fact};
use signed::num;
use tables::{flag, mark};
use words::{Record, words_at};

// The number of a tree, as specs/Scopes.antt has it: elements of several lists are cited; there is a quantifier, and no elements are cited
// outside, or some are. It stays a number, because it is one byte of an array that is cleared for every sheet, and the laws count in it.
const SEVERAL: usize = 129;

const QUANTIFIER: usize = 130;

const OUTSIDE: usize = 131;

// The value ranges of the nodes. Apart from the rest, because this scan alone reads them: its caller lets go of them.
#[derive(Drop)]
pub struct Ranges {
    pub lows: [i32; Header::NODES],
    pub highs: [i32; Header::NODES],
}

// What later records ask of the nodes: types, the greatest rule and the elements that the tree under a node cites, and which nodes have been named.
#[derive(Drop)]
pub struct Trees {
    pub sorts: [u16; Header::NODES],
    pub tops: [u8; Header::NODES],
    pub scopes: [u8; Header::NODES],
    pub named: [bool; Header::NODES],
}

// Whether a tree cites no elements outside.
pub fn is_shut(scope: usize) -> bool
    ensures { result ≡ shut scope }
{
    (scope == 0) | (scope == QUANTIFIER)
}

// The number of two trees together.
#[tactic(auto, unfolding(crate::specs::Scopes::joint))]
fn join_scopes(a: usize, b: usize) -> usize
    ensures { result ≡ joint a b }
{
    if a == 0 {
        return b;
    }
    if (b == 0) | (a == b) {
        return a;
    }
    if (a < QUANTIFIER) & (b < QUANTIFIER) {
        SEVERAL
    } else {
        OUTSIDE
    }
}

// The number of a quantifier over a list, from its body's, in which no quantifier may stand.
#[tactic(auto, unfolding(crate::specs::Scopes::over))]
fn bind_scope(list: usize, body: usize) -> Option<usize>
    requires { list < 128 }
    ensures { result ≡ over list body }
{
    if QUANTIFIER <= body {
        return None;
    }
    if (body == 0) | (body == list + 1) {
        Some(QUANTIFIER)
    } else {
        Some(OUTSIDE)
    }
}

// One more than the rule that a node cites, 0 where it cites none.
fn own_top(k: Kind, rule: usize) -> usize
    requires { kind_number k ≡ 8 → rule < 128 }
    ensures { result ≡ cond (eqb (kind_number k) 8) (suc rule) 0 }
{
    match k {
        Kind::Present => rule + 1,
        _ => 0,
    }
}

// One more than the list whose element a node cites, 0 where it cites none.
fn own_scope(k: Kind, list: usize) -> usize
    requires { kind_number k ≡ 17 → list < 128 }
    ensures { result ≡ own_scope (kind_number k) list }
{
    match k {
        Kind::Element => list + 1,
        _ => 0,
    }
}

impl Ranges {
    pub fn new() -> Ranges {
        Ranges {
            lows: [0; Header::NODES],
            highs: [0; Header::NODES],
        }
    }

    fn keep(&mut self, n: usize, x: Item)
        requires { (n < 1024) × Small x }
        ensures { self.new ≡ with_item n x self.old }
    {
        self.lows[n] = x.low as i32;
        self.highs[n] = x.high as i32;
    }
}

impl Trees {
    pub fn new() -> Trees
        ensures { result.named ≡ replicate 1024 false }
    {
        Trees {
            sorts: [0; Header::NODES],
            tops: [0; Header::NODES],
            scopes: [0; Header::NODES],
            named: [false; Header::NODES],
        }
    }

    // Node a has been named, where `on` says so and there is such a node.
    pub fn mark(&mut self, on: bool, a: usize)
        ensures { self.new ≡ with_flags (marked on a self.old.named) self.old }
    {
        mark(&mut self.named, on, a);
    }

    // Whether the children come before node n, have not been named, and are not the same node twice.
    fn links(&self, n: usize, c: Kids) -> bool
        ensures { result ≡ good_children n (λ a. get_or self.now.named a false) (kids c) }
    {
        match c {
            Kids::Zero => true,
            Kids::One(a) => (a < n) & !flag(&self.named, a),
            Kids::Two(a, b) => {
                (a < n) & !flag(&self.named, a) & (b < n) & !flag(&self.named, b) & (b != a)
            }
        }
    }

    // The type and range of node j.
    fn item(&self, ranges: &Ranges, j: usize) -> Item
        requires { j < 1024 }
        ensures { result ≡ item_at ranges.now self.now j }
    {
        Item {
            sort: self.sorts[j] as usize,
            low: ranges.lows[j] as i64,
            high: ranges.highs[j] as i64,
        }
    }

    // Those of a node's children, `Item::NONE` where there is none.
    fn kid_items(&self, ranges: &Ranges, c: Kids) -> (Item, Item)
        requires { Inside c 1024 }
        ensures first { result.0 ≡ first_kid c ranges.now self.now }
        ensures second { result.1 ≡ second_kid c ranges.now self.now }
    {
        match c {
            Kids::Zero => (Item::NONE, Item::NONE),
            Kids::One(a) => (self.item(ranges, a), Item::NONE),
            Kids::Two(a, b) => (self.item(ranges, a), self.item(ranges, b)),
        }
    }

    // The greatest rule of the trees of a node's children, as `own_top` has it.
    #[tactic(auto, unfolding(crate::specs::Arrays::greatest))]
    fn top_of(&self, c: Kids) -> usize
        requires { Inside c 1024 }
        ensures { result ≡ greatest (λ j. get_or self.now.tops j 0) (kids c) }
    {
        match c {
            Kids::Zero => 0,
            Kids::One(a) => self.tops[a] as usize,
            Kids::Two(a, b) => usize::max(self.tops[a] as usize, self.tops[b] as usize),
        }
    }

    // The number of a node of kind k, with `list` in word 1, from its children's; none where a quantifier stands inside another.
    fn scope_of(&self, k: Kind, list: usize, c: Kids) -> Option<usize>
        requires { Inside c 1024 × ((eqb (kind_number k) 14 || eqb (kind_number k) 15) ≡ true → list < 128) }
        ensures { result ≡ kid_scope (kind_number k) list self.now.scopes c }
    {
        match c {
            Kids::Zero => Some(0),
            Kids::One(a) => {
                let body = self.scopes[a] as usize;
                match k {
                    Kind::ForAll | Kind::Exists => bind_scope(list, body),
                    _ => Some(body),
                }
            }
            Kids::Two(a, b) => Some(join_scopes(self.scopes[a] as usize, self.scopes[b] as usize)),
        }
    }

    fn keep(&mut self, n: usize, sort: usize, top: usize, scope: usize)
        requires { (n < 1024) × (sort ≤ 261) × (top < 256) × (scope < 256) }
        ensures { self.new ≡ with_tree n sort top scope self.old }
    {
        self.sorts[n] = sort as u16;
        self.tops[n] = top as u8;
        self.scopes[n] = scope as u8;
    }

    // Marks the children of a node as named.
    fn name(&mut self, c: Kids)
        requires { Inside c 1024 }
        ensures { self.new ≡ with_flags (name_kids c self.old.named) self.old }
    {
        match c {
            Kids::Zero => {}
            Kids::One(a) => self.named[a] = true,
            Kids::Two(a, b) => {
                self.named[a] = true;
                self.named[b] = true;
            }
        }
    }
}

// The fact that a node of kind k names; it is looked up where the kind names one.
fn fact_of(s: &Sheet, k: Kind, f: usize) -> Named
    requires { Begun s.now.words.now s.now.header }
    ensures { names_one (kind_number k) ≡ true → result ≡ named_fact s.now.words.now s.now.header.facts f }
{
    match k {
        Kind::Fact | Kind::ForAll | Kind::Exists | Kind::Length | Kind::Element => {
            named_fact(s.words, s.header.facts, f)
        }
        _ => no_fact(),
    }
}

// Judges a node that has no children.
fn judge_single(s: &Sheet, w: Record<i64>, k: Kind) -> Option<Item>
    requires { Begun s.now.words.now s.now.header × ((row_of (kind_number k)).children w ≡ []) }
    ensures { result ≡ judged (row_of (kind_number k)) (leaf_given s.now.words.now s.now.header w) }
{
    let fact = fact_of(s, k, num(w.w1));
    k.judge_leaf(Given {
        words: w,
        facts: s.header.facts,
        rules: s.header.rules,
        fact,
        x: Item::NONE,
        y: Item::NONE,
    })
}

// Judges a node whose children have been judged.
fn judge_joint(
    s: &Sheet,
    w: Record<i64>,
    k: Kind,
    c: Kids,
    ranges: &Ranges,
    trees: &Trees,
) -> Option<Item>
    requires { Judgeable s.now.words.now s.now.header w c ranges.now trees.now × ((row_of (kind_number k)).children w ≡ [] → ⊥) }
    ensures { result ≡ judged_parent (row_of (kind_number k)) (given_by s.now.words.now s.now.header w c ranges.now trees.now) }
{
    let (x, y) = trees.kid_items(ranges, c);
    let fact = fact_of(s, k, num(w.w1));
    k.judge_parent(Given {
        words: w,
        facts: s.header.facts,
        rules: s.header.rules,
        fact,
        x: x.align(y),
        y: y.align(x),
    })
}

// Judges node n, which has no children; where it is good the arrays take it.
fn take_leaf(
    s: &Sheet,
    n: usize,
    w: Record<i64>,
    k: Kind,
    ranges: &mut Ranges,
    trees: &mut Trees,
) -> bool
    requires { Turn s.now.words.now s.now.header n ranges.old trees.old × Placed s.now.words.now s.now.header n w (kind_number k) Zero }
    ensures { Took s.now.words.now s.now.header n result ranges.new trees.new }
{
    let Some(x) = judge_single(s, w, k) else {
        return false;
    };
    let f = num(w.w1);
    ranges.keep(n, x);
    trees.keep(n, x.sort, own_top(k, f), own_scope(k, f));
    true
}

// Judges node n, which has children; where it is good the arrays take it.
fn take_parent(
    s: &Sheet,
    n: usize,
    w: Record<i64>,
    k: Kind,
    c: Kids,
    ranges: &mut Ranges,
    trees: &mut Trees,
) -> bool
    requires { Turn s.now.words.now s.now.header n ranges.old trees.old × Placed s.now.words.now s.now.header n w (kind_number k) c × (c ≡ Zero → ⊥) }
    ensures { Took s.now.words.now s.now.header n result ranges.new trees.new }
{
    if !trees.links(n, c) {
        return false;
    }
    let Some(x) = judge_joint(s, w, k, c, ranges, trees) else {
        return false;
    };
    let Some(scope) = trees.scope_of(k, num(w.w1), c) else {
        return false;
    };
    ranges.keep(n, x);
    trees.keep(n, x.sort, trees.top_of(c), scope);
    trees.name(c);
    true
}

// Judges node n; where it is good the arrays take it. A node without children is judged apart, for speed: half of a sheet's nodes have none.
fn take_node(s: &Sheet, n: usize, ranges: &mut Ranges, trees: &mut Trees) -> bool
    requires { Turn s.now.words.now s.now.header n ranges.old trees.old }
    ensures { Took s.now.words.now s.now.header n result ranges.new trees.new }
{
    let w = words_at(s.words, s.header.facts + n);
    let Ok(k) = Kind::try_from(num(w.w0)) else {
        return false;
    };
    match k.children(w) {
        Kids::Zero => take_leaf(s, n, w, k, ranges, trees),
        c => take_parent(s, n, w, k, c, ranges, trees),
    }
}

pub fn check_nodes(s: &Sheet, ranges: &mut Ranges, trees: &mut Trees) -> Result<(), usize>
    requires { Begun s.now.words.now s.now.header × (trees.old.named ≡ replicate 1024 false) }
    ensures value { result ≡ scanned (first_node s.now.header) (good_node s.now.words.now s.now.header) s.now.header.nodes }
    ensures filled { OnOk result (Filled s.now.words.now s.now.header s.now.header.nodes ranges.new trees.new) }
{
    for n in 0..s.header.nodes {
        if !take_node(s, n, ranges, trees) {
            return Err(s.header.facts + n);
        }
    }
    Ok(())
}
