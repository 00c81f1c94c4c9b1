// The scan of the operations.
ghost use Rattle.std.specs.Prelude.{◌≡◌, true, OnOk};
ghost use Rattle.layout.specs.Header.{first_operation};
ghost use Rattle.layout.specs.Sized.{Sized};
ghost use Rattle.layout.specs.Groups.{good_groups};
ghost use Rattle.records.specs.Operations.{good_operation};
ghost use Rattle.records.specs.Names.{named_by_rules, named_by_operations};
ghost use Rattle.records.specs.Scans.{scanned};
ghost use Rattle.sheet_roots.specs.Roots.{Rooted, Flagged};

use crate::root;
use layout::Sheet;
use records::good_mask;
use sheet_nodes::Trees;
use words::record_at;

pub fn check_operations(s: &Sheet, trees: &mut Trees) -> Result<(), usize>
    requires { (good_groups s.now.words.now s.now.header ≡ true) × Rooted s.now.words.now s.now.header (named_by_rules s.now.words.now s.now.header s.now.header.rules) trees.old }
    ensures value { result ≡ scanned (first_operation s.now.header) (good_operation s.now.words.now s.now.header) s.now.header.operations }
    ensures rooted { OnOk result (Rooted s.now.words.now s.now.header (named_by_operations s.now.words.now s.now.header s.now.header.operations) trees.new) }
    ensures flagged { Flagged trees.old trees.new }
{
    let base = s.header.first_operation();
    let mut sum = 0;
    for k in 0..s.header.operations {
        let r = record_at(s.words, base + k);
        let rooted = root(s.header, trees, r.w1);
        let good = good_mask(s.header, r.w0)
            & rooted
            & (r.w2 == sum)
            & (1 <= r.w3)
            & (1 <= r.w4)
            & (r.w4 <= 8)
            & r.unused(5);
        if !good {
            return Err(base + k);
        }
        trees.mark(true, r.w1);
        sum += r.w3;
    }
    Ok(())
}
