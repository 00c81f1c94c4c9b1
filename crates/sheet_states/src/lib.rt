// The scans of the entities and of the transitions. A flag for each (entity, from, to) says whether that transition is declared.
#![tactic(auto)]

ghost use Rattle.std.specs.Prelude.{◌≡◌, true, false, ℕ, ◌+◌, ◌*◌, ◌≤◌, ◌<◌, length, replicate, OnOk};
ghost use Rattle.words.specs.declared.Record.{Record};
ghost use Rattle.layout.specs.Header.{first_entity, first_transition};
ghost use Rattle.layout.specs.Sized.{Sized};
ghost use Rattle.layout.specs.Tables.{entity};
ghost use Rattle.records.specs.Entities.{good_entity, good_transition};
ghost use Rattle.records.specs.Scans.{scanned};
ghost use Rattle.sheet_states.specs.Flags.{place_of, Declared};

use layout::Sheet;
use records::{good_change, good_entity};
use words::{Record, record_at};

pub fn check_entities(s: &Sheet) -> Result<(), usize>
    ensures { result ≡ scanned (first_entity s.now.header) (λ e. good_entity (entity s.now.words.now s.now.header e)) s.now.header.entities }
{
    let base = s.header.first_entity();
    for k in 0..s.header.entities {
        if !good_entity(record_at(s.words, base + k)) {
            return Err(base + k);
        }
    }
    Ok(())
}

// The flag of a record's entity, from and to.
pub fn place_of(r: Record<usize>) -> usize
    requires { (r.w0 < 32) × (r.w1 < 16) × (r.w2 < 16) }
    ensures { result ≡ place_of r }
{
    256 * r.w0 + 16 * r.w1 + r.w2
}

pub fn check_transitions(s: &Sheet, declared: &mut [bool]) -> Result<(), usize>
    requires { ((k : ℕ) → k < s.now.header.entities → good_entity (entity s.now.words.now s.now.header k) ≡ true) × (256 * s.now.header.entities ≤ length declared.old) × (declared.old ≡ replicate (length declared.old) false) }
    ensures value { result ≡ scanned (first_transition s.now.header) (good_transition s.now.words.now s.now.header) s.now.header.transitions }
    ensures declared { OnOk result (Declared s.now.words.now s.now.header (length declared.old) s.now.header.transitions declared.new) }
{
    let base = s.header.first_transition();
    for k in 0..s.header.transitions {
        let r = record_at(s.words, base + k);
        if !(good_change(s, r) & r.unused(3)) {
            return Err(base + k);
        }
        declared[place_of(r)] = true;
    }
    Ok(())
}
