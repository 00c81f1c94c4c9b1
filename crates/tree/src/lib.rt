// The tree under a node: its kind, its children, and how many nodes it has.
#![tactic(auto)]

ghost use Rattle.std.specs.Prelude.{◌≡◌, ◌+◌, ◌*◌, ◌<◌, ◌≤◌, length};
ghost use Rattle.signed.specs.Words.{num as word_number};
ghost use Rattle.words.specs.Record.{words_at};
ghost use Rattle.layout.specs.Header.{header_of};
ghost use Rattle.node.specs.Kinds.{Decodes};
ghost use Rattle.node.specs.Judged.{kids};
ghost use Rattle.records.specs.Accepted.{Accepted};
ghost use Rattle.tree.specs.Sizes.{tree_size};
ghost use Rattle.tree.specs.Inner.{children_at, NodeAt};

use layout::{Node, place};
use node::{Kids, Kind, UnknownKind, children};
use records::Contract;
use words::{number, words_at};

// The kind of the node in record k.
#[tactic(auto, unfolding(words::specs::Record::words_at))]
pub fn kind_at(s: &[i64], k: usize) -> Result<Kind, UnknownKind>
    requires { 16 + 8 * k + 8 ≤ length s.now }
    ensures { Decodes (word_number (words_at s.now k).w0) result }
{
    Kind::try_from(number(s, k, place::NODE_KIND))
}

// The children of the node in record k, of which one of an unknown kind has none. It reads the record itself, so that no call of a recursion
// over a tree keeps one.
#[tactic(auto, unfolding(words::specs::Record::words_at))]
pub fn kids_at(s: &[i64], k: usize) -> Kids
    requires { 16 + 8 * k + 8 ≤ length s.now }
    ensures { kids result ≡ children_at s.now k }
{
    children(number(s, k, place::NODE_KIND), words_at(s, k))
}

// S7: the number of nodes in the tree under a node, itself counted. Each node is named at most once, so there are at most n + 1.
pub fn tree_size(s: &Contract, n: Node) -> usize
    requires { n.0 < s.now.sheet.header.nodes }
    ensures { result ≡ tree_size s.now.sheet.words.now s.now.sheet.header n.0 }
{
    size_at(s.sheet.words, s.sheet.header.facts, n)
}

// The same, from the record of the first node.
fn size_at(s: &[i64], base: usize, n: Node) -> usize
    requires { NodeAt s.now base n.0 }
    ensures { result ≡ tree_size s.now (header_of s.now) n.0 }
{
    match kids_at(s, base + n.0) {
        Kids::Zero => 1,
        Kids::One(a) => 1 + size_at(s, base, Node(a)),
        Kids::Two(a, b) => 1 + size_at(s, base, Node(a)) + size_at(s, base, Node(b)),
    }
}
