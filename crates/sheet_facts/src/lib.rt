// The scan of the facts. Enums of one set have one max, lists of them too: an array holds the max of each set, where one of that set was met.
#![tactic(auto)]

ghost use Rattle.std.specs.Prelude.{◌≡◌, ◌+◌, ◌*◌, ◌≤◌, ◌<◌, eqb, length};
ghost use Rattle.layout.specs.Sized.{Sized};
ghost use Rattle.layout.specs.Tables.{fact};
ghost use Rattle.records.specs.Types.{Decodes};
ghost use Rattle.records.specs.Facts.{good_fact};
ghost use Rattle.records.specs.Scans.{scanned};
ghost use Rattle.sheet_facts.specs.Maxes.{valued, good_alone, agrees, noted};

use layout::{Sheet, place};
use records::{UnknownType, ValueType, good_default, good_tail};
use tables::entry;
use words::{Record, record_at, word};

// The type of a fact's values.
fn valued(r: Record<usize>) -> Result<ValueType, UnknownType>
    ensures { Decodes (valued r) result }
{
    ValueType::of(r.w0, r.w6)
}

// Whether they are an Enum's.
fn is_enum(r: Record<usize>) -> bool
    ensures { result ≡ eqb (valued r) 2 }
{
    matches!(valued(r), Ok(ValueType::Enum))
}

fn good_alone(s: &[i64], k: usize, r: Record<usize>) -> bool
    requires { (16 + 8 * k + 8 ≤ length s.now) × (r ≡ fact s.now k) }
    ensures { result ≡ good_alone s.now k }
{
    let Ok(values) = valued(r) else {
        return false;
    };
    let min = word(s, k, place::FACT_MIN);
    let max = word(s, k, place::FACT_MAX);
    let default = word(s, k, place::FACT_DEFAULT);
    values.good_bounds(min, max)
        & values.good_set(r.w5)
        & good_default(r.w3, min, max, default)
        & good_tail(s, k, r)
}

// Whether a fact's max is that of its set, if it is an Enum.
fn agrees(r: Record<usize>, max: Option<u8>) -> bool
    ensures { result ≡ agrees r max }
{
    match max {
        Some(m) => !is_enum(r) | (m as usize == r.w2),
        None => true,
    }
}

fn note(maxes: &mut [Option<u8>], r: Record<usize>)
    requires { valued r ≡ 2 → (r.w5 < length maxes.old) × (r.w2 < 256) }
    ensures { maxes.new ≡ noted r maxes.old }
{
    if is_enum(r) {
        maxes[r.w5] = Some(r.w2 as u8);
    }
}

pub fn check_facts(s: &Sheet) -> Result<(), usize>
    ensures { result ≡ scanned 0 (good_fact s.now.words.now) s.now.header.facts }
{
    let mut maxes = [None::<u8>; 128];
    for k in 0..s.header.facts {
        let r = record_at(s.words, k);
        let seen = entry(&maxes, r.w5, None);
        if !(good_alone(s.words, k, r) & agrees(r, seen)) {
            return Err(k);
        }
        note(&mut maxes, r);
    }
    Ok(())
}
