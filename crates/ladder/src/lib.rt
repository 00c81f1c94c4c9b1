// The ladder of refusals 1 to 8, one function for each rung: every public call that takes a sheet climbs it in this order.
#![tactic(auto)]

ghost use Rattle.std.specs.Prelude.{◌≡◌, true, IfOk, OnOk};
ghost use Rattle.answer.specs.declared.Refusal.TheVariants.{Length, Missing};
ghost use Rattle.facts.specs.Lent.{lent};
ghost use Rattle.facts.specs.Inner.{AllLent};
ghost use Rattle.ladder.specs.Inner.{headed};
ghost use Rattle.ladder.specs.Ladder.{then, unless, opened, exists, facts_lent};

use answer::Refusal;
use facts::used_by_all;
use layout::{Header, Sheet};
use records::Contract;
use sheet::check;
use signed::num;

// Refusals 1 to 3, or the contract that an accepted sheet is.
#[tactic(auto, unfolding(crate::specs::Ladder::opened, crate::specs::Ladder::reached))]
pub fn open_sheet(s: &[i64]) -> Result<Contract<'_>, Refusal>
    ensures value { headed result ≡ opened s.now }
    ensures words { IfOk result (λ k. k.sheet.words.now ≡ s.now) }
{
    check(s)?;
    let sheet = Sheet {
        words: s,
        header: Header::read(s),
    };
    Ok(Contract { sheet })
}

// A rung that is a test.
#[tactic(auto, unfolding(crate::specs::Ladder::unless))]
pub fn unless(ok: bool, r: Refusal) -> Result<(), Refusal>
    ensures value { result ≡ unless ok r }
    ensures passed { OnOk result (ok ≡ true) }
{
    if ok { Ok(()) } else { Err(r) }
}

// Refusals 4 and 5.
#[tactic(auto, unfolding(crate::specs::Ladder::then))]
pub fn judge_call(lengths: bool, numbers: bool) -> Result<(), Refusal>
    ensures value { result ≡ then (unless lengths Length) (unless numbers Missing) }
    ensures passed { OnOk result ((lengths ≡ true) × (numbers ≡ true)) }
{
    unless(lengths, Refusal::Length)?;
    unless(numbers, Refusal::Missing)
}

// Whether the lent values and flags are as many as the facts, and the lists and their lengths as many as the facts use.
pub fn facts_lent(
    s: &Contract,
    values: &[i64],
    given: &[i64],
    lists: &[i64],
    lengths: &[i64],
) -> bool
    ensures value { result ≡ facts_lent s.now.sheet.words.now s.now.sheet.header (lent values.now given.now lists.now lengths.now) }
    ensures all { result ≡ true → AllLent s.now.sheet.words.now s.now.sheet.header (lent values.now given.now lists.now lengths.now) }
{
    let used = used_by_all(s);
    (values.len() == s.sheet.header.facts)
        & (given.len() == s.sheet.header.facts)
        & (lists.len() == used.slots)
        & (lengths.len() == used.lengths)
}

// Whether a number that a caller names is one of n.
pub fn exists(x: i64, n: usize) -> bool
    ensures { result ≡ exists x n }
{
    num(x) < n
}
