// The calls on flows, for any input: first, next and run climb the ladder of refusals, then do their work.
#![tactic(auto, unfolding(ladder::specs::Ladder::climb, ladder::specs::Ladder::by, ladder::specs::Ladder::reached, ladder::specs::Ladder::then, ladder::specs::Ladder::unless, calls::specs::Flows::run_rungs, calls::specs::Flows::flow_rungs))]

ghost use Rattle.std.specs.Prelude.{IfOk, ◌≡◌, length, true, ◌&&◌, Ok};
ghost use Rattle.signed.specs.Words.{num};
ghost use Rattle.layout.specs.declared.Header.{Header};
ghost use Rattle.records.specs.Accepted.{Accepted};
ghost use Rattle.facts.specs.Lent.{lent};
ghost use Rattle.instances.specs.Records.{lent_states, states_lent};
ghost use Rattle.instances.specs.Named.{gathered, scattered, has};
ghost use Rattle.instances.specs.Inner.{Blank, HeadGathered};
ghost use Rattle.run.specs.Runs.{good_words, flow_covers};
ghost use Rattle.walks.specs.Inner.{Lent};
ghost use Rattle.ladder.specs.Inner.{headed};
ghost use Rattle.ladder.specs.Ladder.{exists};
ghost use Rattle.calls.specs.Flows.{steps_or, wanted_lent, flow_climb, first_answer, first_path, next_answer, next_path};
ghost use Rattle.calls.specs.Flows.{ran_walk_over, ran_path_over, ran_states_over, run_climb, run_answer, run_path, run_states};
ghost use Rattle.flows.specs.Going.{LentRun, ReadyRun};

use answer::{Refusal, Tally};
use evaluate::settle;
use facts::judge_facts;
use instances::{gather, judge_records, scatter, states_lent};
use ladder::{exists, facts_lent, judge_call, open_sheet, unless};
use layout::{Flow, Header};
use records::Contract;
use run::{flow_covers, good_words};
use signed::num;
use walks::steps;

// How many steps a flow has. Where it does not exist, slices sized by its steps are not judged: the lent length is right.
fn steps_or(s: &Contract, flow: i64, lent: usize) -> usize
    ensures { result ≡ steps_or s.now.sheet.words.now s.now.sheet.header flow lent }
{
    if exists(flow, s.sheet.header.flows) {
        steps(&s.sheet, Flow(num(flow)))
    } else {
        lent
    }
}

// The rungs of first and next: 1 to 5.
fn climb_flow<'a>(s: &'a [i64], flow: i64, path: &[u16]) -> Result<Contract<'a>, Refusal>
    ensures value { headed result ≡ flow_climb s.now flow (length path.now) }
    ensures words { IfOk result (λ k. k.sheet.words.now ≡ s.now) }
    ensures ready { IfOk result (λ k. Lent k.sheet.words.now k.sheet.header (num flow) path.now) }
{
    let k = open_sheet(s)?;
    let room = path.len();
    let long = steps_or(&k, flow, room) <= room;
    judge_call(long, exists(flow, k.sheet.header.flows))?;
    Ok(k)
}

// S6: path 0 of a flow.
pub fn first(s: &[i64], flow: i64, path: &mut [u16]) -> Result<Tally, Refusal>
    ensures value { result ≡ first_answer s.now flow path.old }
    ensures path_after { path.new ≡ first_path s.now flow path.old }
{
    let k = climb_flow(s, flow, path)?;
    listing::first(&k, Flow(num(flow)), path)
}

// S6: the path that follows the one at the buffer's head.
pub fn next(s: &[i64], flow: i64, path: &mut [u16]) -> Result<Tally, Refusal>
    ensures value { result ≡ next_answer s.now flow path.old }
    ensures path_after { path.new ≡ next_path s.now flow path.old }
{
    let k = climb_flow(s, flow, path)?;
    listing::next(&k, Flow(num(flow)), path)
}

// A run over what the lent facts come to.
fn go(
    s: &Contract,
    values: &[i64],
    given: &[i64],
    lists: &[i64],
    lengths: &[i64],
    states: &mut [i64],
    flow: Flow,
    wanted: &[i64],
    path: &mut [u16],
) -> Result<Tally, Refusal>
    requires { LentRun s.now.sheet.words.now s.now.sheet.header (lent values.now given.now lists.now lengths.now) states.old flow.0 wanted.now path.old }
    ensures value { result ≡ ran_walk_over s.now.sheet.words.now s.now.sheet.header (lent values.now given.now lists.now lengths.now) states.old flow.0 wanted.now }
    ensures path_after { path.new ≡ ran_path_over s.now.sheet.words.now s.now.sheet.header (lent values.now given.now lists.now lengths.now) states.old flow.0 wanted.now path.old }
    ensures states_after { states.new ≡ ran_states_over s.now.sheet.words.now s.now.sheet.header (lent values.now given.now lists.now lengths.now) states.old flow.0 wanted.now }
{
    let mut facts = [0i64; Header::FACTS];
    let mut verdicts = [0i64; Header::RULES];
    let facts = &mut facts[..s.sheet.header.facts];
    let verdicts = &mut verdicts[..s.sheet.header.rules];
    settle(s, values, given, lists, lengths, facts, verdicts);
    run::run(s, facts, lists, verdicts, states, flow, wanted, path)
}

// Whether the flow exists, each of its steps may want what its word says, and there is each named instance that its operations read; the
// states of the named instances are gathered.
fn run_named(
    s: &Contract,
    rs: &[i64],
    is: &[i64],
    states: &mut [i64],
    flow: i64,
    wanted: &[i64],
) -> bool
    requires blank { Blank states.old }
    requires lent { (states_lent s.now.sheet.header (lent_states rs.now is.now) ≡ true) × (wanted_lent s.now.sheet.words.now s.now.sheet.header flow wanted.now ≡ true) }
    ensures value { result ≡ (exists flow s.now.sheet.header.flows && good_words s.now.sheet.words.now s.now.sheet.header (num flow) wanted.now && flow_covers s.now.sheet.words.now s.now.sheet.header (has (lent_states rs.now is.now)) (num flow)) }
    ensures head_gathered { result ≡ true → HeadGathered s.now.sheet.header (lent_states rs.now is.now) states.new }
{
    if !exists(flow, s.sheet.header.flows) {
        return false;
    }
    if !good_words(s, Flow(num(flow)), wanted) {
        return false;
    }
    let mut found = [false; Header::ENTITIES];
    gather(rs, is, states, &mut found);
    flow_covers(s, &found, Flow(num(flow)))
}

// The rungs of a run, 1 to 8. Past them, the states of the named instances are gathered.
fn climb_run<'a>(
    s: &'a [i64],
    values: &[i64],
    given: &[i64],
    lists: &[i64],
    lengths: &[i64],
    rs: &[i64],
    is: &[i64],
    states: &mut [i64],
    flow: i64,
    wanted: &[i64],
    path: &[u16],
) -> Result<Contract<'a>, Refusal>
    requires { Blank states.old }
    ensures value { headed result ≡ run_climb s.now (lent values.now given.now lists.now lengths.now) (lent_states rs.now is.now) flow wanted.now (length path.now) }
    ensures words { IfOk result (λ k. k.sheet.words.now ≡ s.now) }
    ensures ready { IfOk result (λ k. ReadyRun k.sheet.words.now k.sheet.header (lent values.now given.now lists.now lengths.now) (lent_states rs.now is.now) (num flow) wanted.now path.now states.new) }
{
    let k = open_sheet(s)?;
    let n = wanted.len();
    let room = path.len();
    let long = facts_lent(&k, values, given, lists, lengths)
        & states_lent(k.sheet.header, rs, is)
        & (n == steps_or(&k, flow, n))
        & (steps_or(&k, flow, room) <= room);
    unless(long, Refusal::Length)?;
    let known = run_named(&k, rs, is, states, flow, wanted);
    unless(known, Refusal::Missing)?;
    judge_facts(&k, values, given, lists, lengths)?;
    judge_records(&k.sheet, rs)?;
    Ok(k)
}

// One run of a flow, with what each of its steps wants: its terminal and the path that it took.
pub fn run(
    s: &[i64],
    values: &[i64],
    given: &[i64],
    lists: &[i64],
    lengths: &[i64],
    rs: &mut [i64],
    is: &[i64],
    flow: i64,
    wanted: &[i64],
    path: &mut [u16],
) -> Result<Tally, Refusal>
    ensures value { result ≡ run_answer s.now (lent values.now given.now lists.now lengths.now) (lent_states rs.old is.now) flow wanted.now path.old }
    ensures path_after { path.new ≡ run_path s.now (lent values.now given.now lists.now lengths.now) (lent_states rs.old is.now) flow wanted.now path.old }
    ensures rs_after { rs.new ≡ run_states s.now (lent values.now given.now lists.now lengths.now) (lent_states rs.old is.now) flow wanted.now path.old }
{
    let mut states = [0i64; Header::ENTITIES];
    let k = climb_run(
        s,
        values,
        given,
        lists,
        lengths,
        rs,
        is,
        &mut states,
        flow,
        wanted,
        path,
    )?;
    let states = &mut states[..k.sheet.header.entities];
    let flow = Flow(num(flow));
    let w = go(
        &k, values, given, lists, lengths, states, flow, wanted, path,
    );
    scatter(rs, is, states);
    w
}
