// The scan of the effects, operation by operation. For each (entity, from) an array holds the stamp of the outcome that last had an
// effect from there, 0 where none had: stamps rise along the effects, and 0 is below them all, which is how the laws read them.
#![tactic(auto)]

ghost use Rattle.std.specs.Prelude.{◌≡◌, false, not, ◌&&◌, ◌+◌, ◌*◌, ◌≤◌, ◌<◌, eqb, length, get_or, replicate, OnOk};
ghost use Rattle.layout.specs.Header.{first_effect};
ghost use Rattle.sheet_states.specs.Flags.{place_of};
ghost use Rattle.records.specs.Operations.{good_effect};
ghost use Rattle.records.specs.Scans.{scanned};
ghost use Rattle.sheet_effects.specs.Stamps.{source_of, BeforeEffects, Group, Seen};

use layout::{Sheet, place};
use records::{good_change, good_outcome};
use sheet_states::place_of;
use words::{Record, number, record_at};

// The place of a record's entity and from among the stamps.
fn source_of(r: Record<usize>) -> usize
    requires { (r.w0 < 32) × (r.w1 < 16) }
    ensures { result ≡ source_of r }
{
    16 * r.w0 + r.w1
}

// Whether the transition is declared, and the outcome with this stamp has no effect from this state of this entity yet.
fn fresh(declared: &[bool], seen: &[usize], r: Record<usize>, stamp: usize) -> bool
    requires { ((r.w0 < 32) × (r.w1 < 16) × (r.w2 < 16)) × (place_of r < length declared.now) × (source_of r < length seen.now) }
    ensures { result ≡ (get_or declared.now (place_of r) false && not (eqb (get_or seen.now (source_of r) 0) stamp)) }
{
    declared[place_of(r)] & (seen[source_of(r)] != stamp)
}

// The effects of operation o, those before it being good.
fn check_group(
    s: &Sheet,
    o: usize,
    first: usize,
    end: usize,
    outcomes: usize,
    declared: &[bool],
    seen: &mut [usize],
) -> Result<(), usize>
    requires { BeforeEffects s.now.words.now s.now.header declared.now × Group s.now.words.now s.now.header o first end outcomes × Seen s.now.words.now s.now.header (length seen.old) first seen.old }
    ensures value { result ≡ scanned (first_effect s.now.header) (good_effect s.now.words.now s.now.header) end }
    ensures seen { OnOk result (Seen s.now.words.now s.now.header (length seen.old) end seen.new) }
{
    let base = s.header.first_effect();
    let mut before = 0;
    for e in first..end {
        let n = base + e;
        let r = record_at(s.words, n);
        let good = good_outcome(e == first, e + 1 == end, before, outcomes, r.w3);
        if !(good_change(s, r) & r.unused(4) & good) {
            return Err(n);
        }
        let stamp = 8 * o + r.w3 + 1;
        if !fresh(declared, seen, r, stamp) {
            return Err(n);
        }
        seen[source_of(r)] = stamp;
        before = r.w3;
    }
    Ok(())
}

// `seen` has no stamp yet.
pub fn check_effects(s: &Sheet, declared: &[bool], seen: &mut [usize]) -> Result<(), usize>
    requires { BeforeEffects s.now.words.now s.now.header declared.now × (16 * s.now.header.entities ≤ length seen.old) × (seen.old ≡ replicate (length seen.old) 0) }
    ensures { result ≡ scanned (first_effect s.now.header) (good_effect s.now.words.now s.now.header) s.now.header.effects }
{
    let base = s.header.first_operation();
    let mut first = 0;
    for o in 0..s.header.operations {
        let end = first + number(s.words, base + o, place::OPERATION_EFFECTS);
        let outcomes = number(s.words, base + o, place::OPERATION_OUTCOMES);
        check_group(s, o, first, end, outcomes, declared, seen)?;
        first = end;
    }
    Ok(())
}
