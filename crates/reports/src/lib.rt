// The reports S1 to S5 and S7, for any input: each climbs the ladder of refusals, then answers a number, and S2 a second one.
#![tactic(auto, unfolding(ladder::specs::Ladder::climb, ladder::specs::Ladder::by, ladder::specs::Ladder::reached, ladder::specs::Ladder::then, ladder::specs::Ladder::unless, calls::specs::Reports::report_rungs))]

ghost use Rattle.std.specs.Prelude.{◌≡◌, ◌<◌};
ghost use Rattle.records.specs.Accepted.{Accepted};
ghost use Rattle.signed.specs.Words.{num as word_number};
ghost use Rattle.calls.specs.Reports.{reported, state_exists};
ghost use Rattle.calls.specs.Reports.{reachable_answer, admissible_answer, can_cause_answer, rules_answer};
ghost use Rattle.ladder.specs.Ladder.{exists};
ghost use Rattle.reports.specs.Figures.{size, figure};

use answer::{Refusal, Tally};
use depth::longest;
use ladder::{exists, open_sheet, unless};
use layout::{Entity, Flow, Header, Node, Operation, Persona, Rule};
use records::{Contract, outcomes_of, states_of, stratum_of};
use signed::num;
use tree::tree_size;

// The reports that take one number, that of a record, and answer one.
#[derive(Clone, Copy)]
pub enum Report {
    States,
    Stratum,
    Outcomes,
    TreeSize,
    Depth,
}

// How many records there are of the kind that a report asks about.
fn size(h: Header, t: Report) -> usize
    ensures { result ≡ size h t }
{
    match t {
        Report::States => h.entities,
        Report::Stratum => h.rules,
        Report::Outcomes => h.operations,
        Report::TreeSize => h.nodes,
        Report::Depth => h.flows,
    }
}

// What a report says of record n of that kind.
fn figure(s: &Contract, t: Report, n: usize) -> usize
    requires { n < size s.now.sheet.header t }
    ensures { result ≡ figure s.now.sheet.words.now s.now.sheet.header t n }
{
    match t {
        Report::States => states_of(&s.sheet, Entity(n)),
        Report::Stratum => stratum_of(&s.sheet, Rule(n)),
        Report::Outcomes => outcomes_of(&s.sheet, Operation(n)),
        Report::TreeSize => tree_size(s, Node(n)),
        Report::Depth => longest(s, Flow(n)),
    }
}

// S1, S5 and S7: a report that takes one number.
pub fn look_up(s: &[i64], t: Report, x: i64) -> Result<usize, Refusal>
    ensures { result ≡ reported s.now (λ h. exists x (size h t)) (λ h. figure s.now h t (word_number x)) }
{
    let k = open_sheet(s)?;
    unless(exists(x, size(k.sheet.header, t)), Refusal::Missing)?;
    Ok(figure(&k, t, num(x)))
}

// S2: the mask of the states reached, and its scans. It takes an entity, as S1 does.
pub fn reachable(s: &[i64], entity: i64) -> Result<Tally, Refusal>
    ensures { result ≡ reachable_answer s.now entity }
{
    let k = open_sheet(s)?;
    unless(exists(entity, k.sheet.header.entities), Refusal::Missing)?;
    let found = reach::reachable(&k, Entity(num(entity)));
    Ok(Tally {
        value: found.mask,
        count: found.scans,
    })
}

// Whether a state is one of the entity's. Where the entity does not exist its states are not looked at.
fn state_exists(s: &Contract, entity: i64, state: i64) -> bool
    ensures { result ≡ state_exists s.now.sheet.words.now s.now.sheet.header entity state }
{
    if exists(entity, s.sheet.header.entities) {
        let n = states_of(&s.sheet, Entity(num(entity)));
        exists(state, n)
    } else {
        false
    }
}

// S3a: whether the operation is admissible to the persona in that state of the entity.
pub fn admissible(
    s: &[i64],
    entity: i64,
    state: i64,
    persona: i64,
    operation: i64,
) -> Result<usize, Refusal>
    ensures { result ≡ admissible_answer s.now entity state persona operation }
{
    let k = open_sheet(s)?;
    let known = state_exists(&k, entity, state)
        & exists(persona, k.sheet.header.personas)
        & exists(operation, k.sheet.header.operations);
    unless(known, Refusal::Missing)?;
    let n = Entity(num(entity));
    let p = Persona(num(persona));
    let o = Operation(num(operation));
    Ok(causes::admissible(&k, n, num(state), p, o) as usize)
}

// S4: whether the persona can cause the change.
pub fn can_cause(s: &[i64], persona: i64, entity: i64, from: i64, to: i64) -> Result<usize, Refusal>
    ensures { result ≡ can_cause_answer s.now persona entity from to }
{
    let k = open_sheet(s)?;
    let known = exists(persona, k.sheet.header.personas)
        & state_exists(&k, entity, from)
        & state_exists(&k, entity, to);
    unless(known, Refusal::Missing)?;
    let p = Persona(num(persona));
    let n = Entity(num(entity));
    Ok(causes::can_cause(&k, p, n, num(from), num(to)) as usize)
}

// S5: the number of rules; it takes no number, so nothing but the sheet is refused.
pub fn rules(s: &[i64]) -> Result<usize, Refusal>
    ensures { result ≡ rules_answer s.now }
{
    let k = open_sheet(s)?;
    Ok(k.sheet.header.rules)
}
