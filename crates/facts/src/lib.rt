// The facts that a caller lends: their faults, and the values that stand after the defaults.
#![tactic(auto)]

ghost use Rattle.std.specs.Prelude.{◌≡◌, ◌+◌, ◌*◌, ◌≤◌, ◌<◌, ℤ, pos, length, get_or, leb, true, ◌&&◌, List};
ghost use Rattle.signed.specs.Words.{eq_z, num as num_of};
ghost use Rattle.words.specs.Record.{number as number_of};
ghost use Rattle.tables.specs.Lists.{all_of, words_from};
ghost use Rattle.records.specs.Facts.{is_list};
ghost use Rattle.records.specs.Accepted.{Accepted};
ghost use Rattle.facts.specs.Lent.{lent};
ghost use Rattle.facts.specs.Faults.{in_fact, good_lent, fact_fault, facts_fault};
ghost use Rattle.facts.specs.Assembled.{value_taken, assembled_values, assembled};
ghost use Rattle.facts.specs.Inner.{held, held_word, UsedBefore, AtFact, AllLent, LentAt, LengthsIn};

use answer::Refusal;
use layout::place;
use records::{Contract, is_list};
use signed::{num, same, to_word, within};
use words::{number, word};

// What the facts passed so far use of the lent lists: so many slots, and so many lengths.
#[derive(Clone, Copy)]
pub struct Used {
    pub slots: usize,
    pub lengths: usize,
}

impl Used {
    // Before the first fact.
    const NONE: Used = Used {
        slots: 0,
        lengths: 0,
    };

    // With fact k.
    fn more(self, s: &[i64], k: usize) -> Used
        requires { AtFact s.now k self }
        ensures { UsedBefore s.now (k + 1) result }
    {
        if is_list(s, k) {
            let largest = number(s, k, place::FACT_LARGEST);
            Used {
                slots: self.slots + largest,
                lengths: self.lengths + 1,
            }
        } else {
            self
        }
    }
}

// What all facts use: the lent lists have so many slots, and there are so many lengths.
pub fn used_by_all(s: &Contract) -> Used
    ensures { UsedBefore s.now.sheet.words.now s.now.sheet.header.facts result }
{
    let n = s.sheet.header.facts;
    let mut used = Used::NONE;
    for k in 0..n {
        used = used.more(s.sheet.words, k);
    }
    used
}

// Whether x lies in the fact's min..max.
fn in_fact(s: &[i64], k: usize, x: i64) -> bool
    requires { 16 + 8 * k + 8 ≤ length s.now }
    ensures { result ≡ in_fact s.now k x }
{
    within(word(s, k, place::FACT_MIN), x, word(s, k, place::FACT_MAX))
}

// Whether the n words from place a on lie in the fact's min..max.
fn all_in_fact(s: &[i64], k: usize, t: &[i64], a: usize, n: usize) -> bool
    requires { (16 + 8 * k + 8 ≤ length s.now) × (a + n ≤ length t.now) }
    ensures { result ≡ all_of (in_fact s.now k) (words_from t.now a n) }
{
    for i in 0..n {
        if !in_fact(s, k, t[a + i]) {
            return false;
        }
    }
    true
}

// Of a list: whether its length is at most its largest, and the elements within it lie in the fact's min..max.
fn good_list(s: &[i64], k: usize, lists: &[i64], start: usize, count: usize) -> bool
    requires { (16 + 8 * k + 8 ≤ length s.now) × (start + number_of s.now k 7 ≤ length lists.now) }
    ensures { result ≡ (leb count (number_of s.now k 7) && all_of (in_fact s.now k) (words_from lists.now start count)) }
{
    let largest = number(s, k, place::FACT_LARGEST);
    count <= largest && all_in_fact(s, k, lists, start, count)
}

// Whether the flag says given, and what is lent of the fact is in range.
fn given_in_range(
    s: &[i64],
    k: usize,
    values: &[i64],
    given: &[i64],
    lists: &[i64],
    lengths: &[i64],
    used: Used,
) -> bool
    requires { AtFact s.now k used × LentAt s.now k (lent values.now given.now lists.now lengths.now) }
    ensures { result ≡ (eq_z (get_or given.now k (pos 0)) (pos 1) && good_lent s.now (lent values.now given.now lists.now lengths.now) k) }
{
    let flag = same(given[k], 1);
    if is_list(s, k) {
        let at = used.lengths;
        flag & good_list(s, k, lists, used.slots, num(lengths[at]))
    } else {
        flag & in_fact(s, k, values[k])
    }
}

// Refusals 6 and 7 of fact k alone.
fn fact_fault(
    s: &[i64],
    k: usize,
    values: &[i64],
    given: &[i64],
    lists: &[i64],
    lengths: &[i64],
    used: Used,
) -> Result<(), Refusal>
    requires { AtFact s.now k used × LentAt s.now k (lent values.now given.now lists.now lengths.now) }
    ensures { result ≡ fact_fault s.now (lent values.now given.now lists.now lengths.now) k }
{
    if same(given[k], 0) {
        if number(s, k, place::FACT_HAS_DEFAULT) == 1 {
            Ok(())
        } else {
            Err(Refusal::FactAbsent(k))
        }
    } else if given_in_range(s, k, values, given, lists, lengths, used) {
        Ok(())
    } else {
        Err(Refusal::FactValue(k))
    }
}

// Refusals 6 and 7: the first faulty fact decides.
pub fn judge_facts(
    s: &Contract,
    values: &[i64],
    given: &[i64],
    lists: &[i64],
    lengths: &[i64],
) -> Result<(), Refusal>
    requires { AllLent s.now.sheet.words.now s.now.sheet.header (lent values.now given.now lists.now lengths.now) }
    ensures { result ≡ facts_fault s.now.sheet.words.now s.now.sheet.header (lent values.now given.now lists.now lengths.now) }
{
    let facts = s.sheet.header.facts;
    let mut used = Used::NONE;
    for k in 0..facts {
        fact_fault(s.sheet.words, k, values, given, lists, lengths, used)?;
        used = used.more(s.sheet.words, k);
    }
    Ok(())
}

// The value of fact k, lent as x with the given flag g.
fn take_fact(s: &[i64], k: usize, x: i64, g: i64) -> i64
    requires { 16 + 8 * k + 8 ≤ length s.now }
    ensures { result ≡ value_taken s.now k x g }
{
    let absent = same(g, 0);
    if absent {
        word(s, k, place::FACT_DEFAULT)
    } else {
        x
    }
}

// Puts the defaults into the lent values of the facts that are not given.
pub fn fill_defaults(s: &Contract, values: &mut [i64], given: &[i64])
    requires { (length values.old ≡ s.now.sheet.header.facts) × (length given.now ≡ s.now.sheet.header.facts) }
    ensures { values.new ≡ assembled_values s.now.sheet.words.now s.now.sheet.header values.old given.now }
{
    let n = s.sheet.header.facts;
    for k in 0..n {
        values[k] = take_fact(s.sheet.words, k, values[k], given[k]);
    }
}

// The word that stands for fact k: its value, or where the elements of a list start and how many there are. One word for either, since the crates
// above lend the buffer as a slice of words, in fixed memory.
fn hold_fact(s: &[i64], k: usize, values: &[i64], given: &[i64], lengths: &[i64], used: Used) -> i64
    requires at_fact { AtFact s.now k used × (k < length values.now) × (k < length given.now) }
    requires lengths_in_bounds { is_list s.now k ≡ true → (used.lengths < length lengths.now) × (num_of (get_or lengths.now used.lengths (pos 0)) ≤ 100) }
    ensures { result ≡ held_word s.now values.now given.now lengths.now k }
{
    if is_list(s, k) {
        let at = used.lengths;
        to_word(used.slots * 128 + num(lengths[at]))
    } else {
        take_fact(s, k, values[k], given[k])
    }
}

// The facts for a call that leaves the lent values as they were, in a buffer of its own.
pub fn assemble(s: &Contract, values: &[i64], given: &[i64], lengths: &[i64], facts: &mut [i64])
    requires lengths { (length values.now ≡ s.now.sheet.header.facts) × (length given.now ≡ s.now.sheet.header.facts) × (length facts.old ≡ s.now.sheet.header.facts) }
    requires lengths_in { LengthsIn s.now.sheet.words.now s.now.sheet.header lengths.now }
    ensures { (lists : List ℤ) → held s.now.sheet.words.now facts.new lists ≡ assembled s.now.sheet.words.now s.now.sheet.header (lent values.now given.now lists lengths.now) }
{
    let n = s.sheet.header.facts;
    let mut used = Used::NONE;
    for k in 0..n {
        facts[k] = hold_fact(s.sheet.words, k, values, given, lengths, used);
        used = used.more(s.sheet.words, k);
    }
}
