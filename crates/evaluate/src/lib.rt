// The calls on facts and one operation, for any input: each climbs the ladder of refusals, then does its work.
#![tactic(auto, unfolding(ladder::specs::Ladder::climb, ladder::specs::Ladder::by, ladder::specs::Ladder::reached, ladder::specs::Ladder::then, ladder::specs::Ladder::unless, calls::specs::Evaluation::assemble_rungs, calls::specs::Evaluation::verdicts_rungs, calls::specs::Evaluation::operate_rungs))]

ghost use Rattle.std.specs.Prelude.{IfOk, ◌≡◌, true, ◌&&◌, length, Ok};
ghost use Rattle.signed.specs.Words.{num};
ghost use Rattle.layout.specs.declared.Header.{Header};
ghost use Rattle.records.specs.Accepted.{Accepted};
ghost use Rattle.facts.specs.Lent.{lent};
ghost use Rattle.facts.specs.Assembled.{assembled};
ghost use Rattle.facts.specs.Inner.{held};
ghost use Rattle.predicate.specs.Verdicts.{verdicts_of};
ghost use Rattle.instances.specs.Records.{lent_states, states_lent};
ghost use Rattle.instances.specs.Named.{gathered, scattered, has, covers};
ghost use Rattle.instances.specs.Inner.{Blank, HeadGathered};
ghost use Rattle.ladder.specs.Inner.{headed};
ghost use Rattle.ladder.specs.Ladder.{exists};
ghost use Rattle.calls.specs.Evaluation.{assemble_climb, assemble_answer, assemble_values, verdicts_climb, verdicts_answer, verdicts_verdicts};
ghost use Rattle.calls.specs.Evaluation.{wanted_exists, attempted_over, attempted_states_over, operate_climb, operate_answer, operate_states};
ghost use Rattle.evaluate.specs.Settled.{GoodFactsLent, LentOperation, ReadyOperation};

use answer::Refusal;
use attempt::attempt;
use facts::{fill_defaults, judge_facts};
use instances::{covers, gather, judge_records, scatter, states_lent};
use ladder::{exists, facts_lent, judge_call, open_sheet, unless};
use layout::{Header, Operation, Persona};
use operation::{good_wanted, wanted_of};
use predicate::fill_verdicts;
use records::{Contract, outcomes_of};
use signed::num;

// The rungs of fact assembly: 1 to 4, 6 and 7.
fn climb_assemble<'a>(
    s: &'a [i64],
    values: &[i64],
    given: &[i64],
    lists: &[i64],
    lengths: &[i64],
) -> Result<Contract<'a>, Refusal>
    ensures value { headed result ≡ assemble_climb s.now (lent values.now given.now lists.now lengths.now) }
    ensures words { IfOk result (λ k. k.sheet.words.now ≡ s.now) }
    ensures ready { IfOk result (λ k. GoodFactsLent k.sheet.words.now k.sheet.header (lent values.now given.now lists.now lengths.now)) }
{
    let k = open_sheet(s)?;
    judge_call(facts_lent(&k, values, given, lists, lengths), true)?;
    judge_facts(&k, values, given, lists, lengths)?;
    Ok(k)
}

// Fact assembly.
pub fn assemble(
    s: &[i64],
    values: &mut [i64],
    given: &[i64],
    lists: &[i64],
    lengths: &[i64],
) -> Result<(), Refusal>
    ensures value { result ≡ assemble_answer s.now (lent values.old given.now lists.now lengths.now) }
    ensures values_after { values.new ≡ assemble_values s.now (lent values.old given.now lists.now lengths.now) }
{
    let k = climb_assemble(s, values, given, lists, lengths)?;
    fill_defaults(&k, values, given);
    Ok(())
}

// The facts that the lent values and flags come to, and the verdicts over them, put into two buffers.
pub fn settle(
    s: &Contract,
    values: &[i64],
    given: &[i64],
    lists: &[i64],
    lengths: &[i64],
    facts: &mut [i64],
    verdicts: &mut [i64],
)
    requires good_facts_lent { GoodFactsLent s.now.sheet.words.now s.now.sheet.header (lent values.now given.now lists.now lengths.now) }
    requires facts_len { (length facts.old ≡ s.now.sheet.header.facts) × (length verdicts.old ≡ s.now.sheet.header.rules) }
    ensures lists_after { held s.now.sheet.words.now facts.new lists.now ≡ assembled s.now.sheet.words.now s.now.sheet.header (lent values.now given.now lists.now lengths.now) }
    ensures verdicts_after { verdicts.new ≡ verdicts_of s.now.sheet.words.now s.now.sheet.header (assembled s.now.sheet.words.now s.now.sheet.header (lent values.now given.now lists.now lengths.now)) }
{
    facts::assemble(s, values, given, lengths, facts);
    fill_verdicts(s, facts, lists, verdicts);
}

// The verdicts over the lent facts.
fn judge(
    s: &Contract,
    values: &[i64],
    given: &[i64],
    lists: &[i64],
    lengths: &[i64],
    verdicts: &mut [i64],
)
    requires good_facts_lent { GoodFactsLent s.now.sheet.words.now s.now.sheet.header (lent values.now given.now lists.now lengths.now) }
    requires verdicts_len { length verdicts.old ≡ s.now.sheet.header.rules }
    ensures { verdicts.new ≡ verdicts_of s.now.sheet.words.now s.now.sheet.header (assembled s.now.sheet.words.now s.now.sheet.header (lent values.now given.now lists.now lengths.now)) }
{
    let mut facts = [0i64; Header::FACTS];
    let facts = &mut facts[..s.sheet.header.facts];
    settle(s, values, given, lists, lengths, facts, verdicts);
}

// The rungs of verdicts: those of fact assembly, with one slice more.
fn climb_verdicts<'a>(
    s: &'a [i64],
    values: &[i64],
    given: &[i64],
    lists: &[i64],
    lengths: &[i64],
    room: usize,
) -> Result<Contract<'a>, Refusal>
    ensures value { headed result ≡ verdicts_climb s.now (lent values.now given.now lists.now lengths.now) room }
    ensures words { IfOk result (λ k. k.sheet.words.now ≡ s.now) }
    ensures ready { IfOk result (λ k. GoodFactsLent k.sheet.words.now k.sheet.header (lent values.now given.now lists.now lengths.now) × (room ≡ k.sheet.header.rules)) }
{
    let k = open_sheet(s)?;
    let long = facts_lent(&k, values, given, lists, lengths) & (room == k.sheet.header.rules);
    judge_call(long, true)?;
    judge_facts(&k, values, given, lists, lengths)?;
    Ok(k)
}

// The verdict of each rule.
pub fn verdicts(
    s: &[i64],
    values: &[i64],
    given: &[i64],
    lists: &[i64],
    lengths: &[i64],
    verdicts: &mut [i64],
) -> Result<(), Refusal>
    ensures value { result ≡ verdicts_answer s.now (lent values.now given.now lists.now lengths.now) (length verdicts.old) }
    ensures verdicts_after { verdicts.new ≡ verdicts_verdicts s.now (lent values.now given.now lists.now lengths.now) verdicts.old }
{
    let k = climb_verdicts(s, values, given, lists, lengths, verdicts.len())?;
    judge(&k, values, given, lists, lengths, verdicts);
    Ok(())
}

// One operation over what the lent facts come to.
fn act(
    s: &Contract,
    values: &[i64],
    given: &[i64],
    lists: &[i64],
    lengths: &[i64],
    states: &mut [i64],
    p: Persona,
    o: Operation,
    wanted: Option<usize>,
) -> Result<usize, Refusal>
    requires { LentOperation s.now.sheet.words.now s.now.sheet.header (lent values.now given.now lists.now lengths.now) states.old p.0 o.0 }
    ensures value { result ≡ attempted_over s.now.sheet.words.now s.now.sheet.header (lent values.now given.now lists.now lengths.now) states.old p.0 o.0 wanted }
    ensures states_after { states.new ≡ attempted_states_over s.now.sheet.words.now s.now.sheet.header (lent values.now given.now lists.now lengths.now) states.old p.0 o.0 wanted }
{
    let mut facts = [0i64; Header::FACTS];
    let mut verdicts = [0i64; Header::RULES];
    let facts = &mut facts[..s.sheet.header.facts];
    let verdicts = &mut verdicts[..s.sheet.header.rules];
    settle(s, values, given, lists, lengths, facts, verdicts);
    attempt(s, facts, lists, verdicts, states, p, o, wanted)
}

// Whether the operation exists and may want what the word says.
fn wanted_exists(s: &Contract, operation: i64, wanted: i64) -> bool
    ensures { result ≡ wanted_exists s.now.sheet.words.now s.now.sheet.header operation wanted }
{
    if !exists(operation, s.sheet.header.operations) {
        return false;
    }
    let n = outcomes_of(&s.sheet, Operation(num(operation)));
    good_wanted(n, wanted_of(wanted))
}

// Whether the persona exists, the operation with what is wanted, and each named instance that the operation reads; the states of the named
// instances are gathered.
fn operate_named(
    s: &Contract,
    rs: &[i64],
    is: &[i64],
    states: &mut [i64],
    persona: i64,
    operation: i64,
    wanted: i64,
) -> bool
    requires blank { Blank states.old }
    requires lent { states_lent s.now.sheet.header (lent_states rs.now is.now) ≡ true }
    ensures value { result ≡ (exists persona s.now.sheet.header.personas && wanted_exists s.now.sheet.words.now s.now.sheet.header operation wanted && covers s.now.sheet.words.now s.now.sheet.header (has (lent_states rs.now is.now)) (num operation)) }
    ensures head_gathered { result ≡ true → HeadGathered s.now.sheet.header (lent_states rs.now is.now) states.new }
{
    if !(exists(persona, s.sheet.header.personas) & wanted_exists(s, operation, wanted)) {
        return false;
    }
    let mut found = [false; Header::ENTITIES];
    gather(rs, is, states, &mut found);
    covers(s, &found, Operation(num(operation)))
}

// The rungs of an operation, 1 to 8. Past them, the states of the named instances are gathered.
fn climb_operate<'a>(
    s: &'a [i64],
    values: &[i64],
    given: &[i64],
    lists: &[i64],
    lengths: &[i64],
    rs: &[i64],
    is: &[i64],
    states: &mut [i64],
    persona: i64,
    operation: i64,
    wanted: i64,
) -> Result<Contract<'a>, Refusal>
    requires { Blank states.old }
    ensures value { headed result ≡ operate_climb s.now (lent values.now given.now lists.now lengths.now) (lent_states rs.now is.now) persona operation wanted }
    ensures words { IfOk result (λ k. k.sheet.words.now ≡ s.now) }
    ensures ready { IfOk result (λ k. ReadyOperation k.sheet.words.now k.sheet.header (lent values.now given.now lists.now lengths.now) (lent_states rs.now is.now) (num persona) (num operation) states.new) }
{
    let k = open_sheet(s)?;
    let long = facts_lent(&k, values, given, lists, lengths) & states_lent(k.sheet.header, rs, is);
    unless(long, Refusal::Length)?;
    let known = operate_named(&k, rs, is, states, persona, operation, wanted);
    unless(known, Refusal::Missing)?;
    judge_facts(&k, values, given, lists, lengths)?;
    judge_records(&k.sheet, rs)?;
    Ok(k)
}

// One operation by a persona, with the outcome that is wanted or −1: its outcome.
pub fn operate(
    s: &[i64],
    values: &[i64],
    given: &[i64],
    lists: &[i64],
    lengths: &[i64],
    rs: &mut [i64],
    is: &[i64],
    persona: i64,
    operation: i64,
    wanted: i64,
) -> Result<usize, Refusal>
    ensures value { result ≡ operate_answer s.now (lent values.now given.now lists.now lengths.now) (lent_states rs.old is.now) persona operation wanted }
    ensures rs_after { rs.new ≡ operate_states s.now (lent values.now given.now lists.now lengths.now) (lent_states rs.old is.now) persona operation wanted }
{
    let mut states = [0i64; Header::ENTITIES];
    let k = climb_operate(
        s,
        values,
        given,
        lists,
        lengths,
        rs,
        is,
        &mut states,
        persona,
        operation,
        wanted,
    )?;
    let states = &mut states[..k.sheet.header.entities];
    let p = Persona(num(persona));
    let o = Operation(num(operation));
    let j = act(
        &k,
        values,
        given,
        lists,
        lengths,
        states,
        p,
        o,
        wanted_of(wanted),
    )?;
    scatter(rs, is, states);
    Ok(j)
}
