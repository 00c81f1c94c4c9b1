// The scan of the rules.
ghost use Rattle.std.specs.Prelude.{◌≡◌, ◌||◌, ◌-◌, ◌<◌, eqb, leb, OnOk};
ghost use Rattle.layout.specs.Header.{first_rule};
ghost use Rattle.layout.specs.Sized.{Sized};
ghost use Rattle.records.specs.Rules.{good_rule, stratum};
ghost use Rattle.records.specs.Names.{named_by_rules};
ghost use Rattle.records.specs.Scans.{scanned};
ghost use Rattle.sheet_roots.specs.Roots.{Known, Flagged, top_lower, NamedByNodes};

use crate::root;
use layout::{Rule, Sheet};
use records::stratum_of;
use sheet_nodes::Trees;
use tables::entry;
use words::record_at;

// Whether a tree whose greatest cited rule is top - 1 cites only rules below rule k and of lower stratum.
#[tactic(auto, unfolding(crate::specs::Roots::top_lower))]
fn cites_lower(s: &Sheet, k: usize, own: usize, top: usize) -> bool
    requires { k < s.now.header.rules }
    ensures { result ≡ top_lower s.now.words.now s.now.header k own top }
{
    if top == 0 {
        return true;
    }
    if top <= k {
        stratum_of(s, Rule(top - 1)) < own
    } else {
        false
    }
}

// Whether the stratum does not fall at rule k.
fn risen(s: &Sheet, k: usize, own: usize) -> bool
    requires { k < s.now.header.rules }
    ensures { result ≡ (eqb k 0 || leb (stratum s.now.words.now s.now.header (k - 1)) own) }
{
    if k == 0 {
        true
    } else {
        stratum_of(s, Rule(k - 1)) <= own
    }
}

pub fn check_rules(s: &Sheet, trees: &mut Trees) -> Result<(), usize>
    requires { Known s.now.words.now s.now.header (NamedByNodes s.now.words.now s.now.header) trees.old }
    ensures value { result ≡ scanned (first_rule s.now.header) (good_rule s.now.words.now s.now.header) s.now.header.rules }
    ensures known { OnOk result (Known s.now.words.now s.now.header (named_by_rules s.now.words.now s.now.header s.now.header.rules) trees.new) }
    ensures flagged { Flagged trees.old trees.new }
{
    let base = s.header.first_rule();
    for k in 0..s.header.rules {
        let r = record_at(s.words, base + k);
        let rooted = root(s.header, trees, r.w1);
        let cites = cites_lower(s, k, r.w0, entry(&trees.tops, r.w1, 0) as usize);
        let good = (r.w0 <= 15) & risen(s, k, r.w0) & rooted & r.unused(2) & cites;
        if !good {
            return Err(base + k);
        }
        trees.mark(true, r.w1);
    }
    Ok(())
}
