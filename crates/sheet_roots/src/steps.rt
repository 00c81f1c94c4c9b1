// The scan of the steps.
ghost use Rattle.std.specs.Prelude.{◌≡◌, true, ℕ, ◌<◌};
ghost use Rattle.layout.specs.Header.{first_step};
ghost use Rattle.layout.specs.Sized.{Sized};
ghost use Rattle.layout.specs.Groups.{good_groups};
ghost use Rattle.records.specs.Operations.{good_operation};
ghost use Rattle.records.specs.Names.{named_by_operations};
ghost use Rattle.records.specs.Flows.{good_step};
ghost use Rattle.records.specs.Scans.{scanned};
ghost use Rattle.sheet_roots.specs.Roots.{Rooted, Flagged, kind_test};

use crate::root;
use layout::Sheet;
use records::good_operation_step;
use sheet_nodes::Trees;
use words::{Record, record_at};

// A step by its kind: an operation, or a branch on a node that can be a root.
fn good_kind(s: &Sheet, r: Record<usize>, rooted: bool) -> bool
    requires { (k : ℕ) → k < s.now.header.operations → good_operation s.now.words.now s.now.header k ≡ true }
    ensures { result ≡ kind_test s.now.words.now s.now.header r rooted }
{
    match r.w0 {
        0 => good_operation_step(s, r),
        1 => rooted & (r.w2 == 0) & (r.w4 == 2),
        _ => false,
    }
}

pub fn check_steps(s: &Sheet, trees: &mut Trees) -> Result<(), usize>
    requires { (good_groups s.now.words.now s.now.header ≡ true) × Rooted s.now.words.now s.now.header (named_by_operations s.now.words.now s.now.header s.now.header.operations) trees.old × ((k : ℕ) → k < s.now.header.operations → good_operation s.now.words.now s.now.header k ≡ true) }
    ensures value { result ≡ scanned (first_step s.now.header) (good_step s.now.words.now s.now.header) s.now.header.steps }
    ensures flagged { Flagged trees.old trees.new }
{
    let base = s.header.first_step();
    let mut sum = 0;
    for k in 0..s.header.steps {
        let r = record_at(s.words, base + k);
        let rooted = root(s.header, trees, r.w1);
        let good = good_kind(s, r, rooted) & (r.w3 == sum) & r.unused(5);
        if !good {
            return Err(base + k);
        }
        trees.mark(r.w0 == 1, r.w1);
        sum += r.w4;
    }
    Ok(())
}
