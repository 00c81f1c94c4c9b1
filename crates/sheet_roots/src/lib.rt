// The scans of the records that name a tree's root: rules, operations and steps.
#![tactic(auto)]

ghost use Rattle.std.specs.Prelude.{◌≡◌, ◌≤◌};
ghost use Rattle.sheet_roots.specs.Roots.{root_test};

pub mod operations;
pub mod rules;
pub mod steps;

use layout::Header;
use sheet_nodes::{Trees, is_shut};

// Whether node a can be a root: it exists, is Bool, cites no element outside a quantifier, and has not been named.
fn root(h: Header, trees: &Trees, a: usize) -> bool
    requires { h.nodes ≤ 1024 }
    ensures { result ≡ root_test h a trees.now }
{
    if a < h.nodes {
        let shut = is_shut(trees.scopes[a] as usize);
        (trees.sorts[a] == 0) & shut & !trees.named[a]
    } else {
        false
    }
}
