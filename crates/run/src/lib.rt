// A run of a flow, below the ladder of refusals: facts and verdicts are fixed at its start.
#![tactic(auto)]

ghost use Rattle.std.specs.Prelude.{◌≡◌, true, false, ◌&&◌, ◌+◌, ◌<◌, pos, length, get_or, replicate, None};
ghost use Rattle.words.specs.Record.{number};
ghost use Rattle.layout.specs.Header.{first_step};
ghost use Rattle.layout.specs.Sized.{Sized};
ghost use Rattle.records.specs.Accepted.{Accepted};
ghost use Rattle.facts.specs.Inner.{held};
ghost use Rattle.predicate.specs.Values.{truth};
ghost use Rattle.predicate.specs.Inner.{Evaluable};
ghost use Rattle.operation.specs.Mask.{allowed};
ghost use Rattle.operation.specs.Inner.{StatesIn};
ghost use Rattle.operation.specs.Outcomes.{wanted_of};
ghost use Rattle.attempt.specs.Attempts.{precondition, attempted, attempted_states};
ghost use Rattle.walks.specs.Paths.{steps_of};
ghost use Rattle.run.specs.Memo.{Memo};
ghost use Rattle.run.specs.Runs.{performs, operation_at, persona_at, node_at, outcomes_at, good_words, step_covers, flow_covers, answer_route, branch_route, route_taken, states_then, ran_walk, ran_path, ran_states};
ghost use Rattle.run.specs.Inner.{Steppable, Runnable, Seen};

use answer::{Refusal, Tally};
use attempt::{attempt_known, precondition_holds};
use instances::covers;
use layout::{Flow, Header, Node, Operation, Persona, Sheet, place};
use operation::{allows, good_wanted, wanted_of};
use predicate::is_true;
use records::{Contract, outcomes_of};
use walks::{Walker, clear, first_route, first_step, routes, steps};
use words::number;

// Word j of a step's record.
fn step_word(s: &Sheet, step: usize, j: usize) -> usize
    requires { (step < s.now.header.steps) × (j < 8) }
    ensures { result ≡ number s.now.words.now (first_step s.now.header + step) j }
{
    number(s.words, s.header.first_step() + step, j)
}

// What is known of each operation's precondition. Facts and verdicts are fixed for a run, so a precondition is worked out the first time that it
// is asked for, and remembered.
#[derive(Drop)]
struct Preconditions {
    known: [Option<bool>; Header::OPERATIONS],
}

impl Preconditions {
    fn new() -> Preconditions
        ensures { result.known ≡ replicate 128 None }
    {
        Preconditions {
            known: [None; Header::OPERATIONS],
        }
    }

    // Whether the persona is allowed and the operation's precondition is true.
    fn admits(
        &mut self,
        s: &Contract,
        facts: &[i64],
        lists: &[i64],
        verdicts: &[i64],
        p: Persona,
        o: Operation,
    ) -> bool
        requires evaluable { Evaluable s.now.sheet.words.now s.now.sheet.header (held s.now.sheet.words.now facts.now lists.now) verdicts.now (precondition s.now.sheet.words.now s.now.sheet.header o.0) }
        requires o_lt_operations { (o.0 < s.now.sheet.header.operations) × (p.0 < s.now.sheet.header.personas) }
        requires memo { Memo s.now.sheet.words.now s.now.sheet.header (held s.now.sheet.words.now facts.now lists.now) verdicts.now self.old.known }
        ensures value { result ≡ (allowed s.now.sheet.words.now s.now.sheet.header o.0 p.0 && truth s.now.sheet.words.now s.now.sheet.header (held s.now.sheet.words.now facts.now lists.now) verdicts.now (precondition s.now.sheet.words.now s.now.sheet.header o.0)) }
        ensures memo_2 { Memo s.now.sheet.words.now s.now.sheet.header (held s.now.sheet.words.now facts.now lists.now) verdicts.now self.new.known }
    {
        if !allows(&s.sheet, o, p) {
            return false;
        }
        let i = o.0;
        if let Some(b) = self.known[i] {
            return b;
        }
        let b = precondition_holds(s, facts, lists, verdicts, o);
        self.known[i] = Some(b);
        b
    }
}

// An operation step: the route of its outcome; where it is refused, the failure route, which is the last.
fn perform_step(
    s: &Contract,
    facts: &[i64],
    lists: &[i64],
    verdicts: &[i64],
    states: &mut [i64],
    memo: &mut Preconditions,
    step: usize,
    wanted: Option<usize>,
) -> usize
    requires steppable { Steppable s.now.sheet.words.now s.now.sheet.header (held s.now.sheet.words.now facts.now lists.now) verdicts.now step }
    requires states_in { StatesIn s.now.sheet.words.now s.now.sheet.header states.old × (performs s.now.sheet.words.now s.now.sheet.header step ≡ true) }
    requires memo { Memo s.now.sheet.words.now s.now.sheet.header (held s.now.sheet.words.now facts.now lists.now) verdicts.now memo.old.known }
    ensures value { result ≡ answer_route s.now.sheet.words.now s.now.sheet.header step (attempted s.now.sheet.words.now s.now.sheet.header (held s.now.sheet.words.now facts.now lists.now) verdicts.now states.old (persona_at s.now.sheet.words.now s.now.sheet.header step) (operation_at s.now.sheet.words.now s.now.sheet.header step) wanted) }
    ensures states_after { states.new ≡ attempted_states s.now.sheet.words.now s.now.sheet.header (held s.now.sheet.words.now facts.now lists.now) verdicts.now states.old (persona_at s.now.sheet.words.now s.now.sheet.header step) (operation_at s.now.sheet.words.now s.now.sheet.header step) wanted }
    ensures memo_2 { Memo s.now.sheet.words.now s.now.sheet.header (held s.now.sheet.words.now facts.now lists.now) verdicts.now memo.new.known }
{
    let first = first_route(&s.sheet, step);
    let count = routes(&s.sheet, step);
    let o = Operation(step_word(&s.sheet, step, place::STEP_OPERATION));
    let p = Persona(step_word(&s.sheet, step, place::STEP_PERSONA));
    let b = memo.admits(s, facts, lists, verdicts, p, o);
    match attempt_known(s, b, states, p, o, wanted) {
        Ok(j) => first + j,
        Err(_) => first + count - 1,
    }
}

// A branch: its first route where its node is true, else its second.
fn branch(s: &Contract, facts: &[i64], lists: &[i64], verdicts: &[i64], step: usize) -> usize
    requires steppable { Steppable s.now.sheet.words.now s.now.sheet.header (held s.now.sheet.words.now facts.now lists.now) verdicts.now step }
    requires step_value { performs s.now.sheet.words.now s.now.sheet.header step ≡ false }
    ensures { result ≡ branch_route s.now.sheet.words.now s.now.sheet.header step (truth s.now.sheet.words.now s.now.sheet.header (held s.now.sheet.words.now facts.now lists.now) verdicts.now (node_at s.now.sheet.words.now s.now.sheet.header step)) }
{
    let first = first_route(&s.sheet, step);
    let node = Node(step_word(&s.sheet, step, place::STEP_NODE));
    if is_true(s, facts, lists, verdicts, node) {
        first
    } else {
        first + 1
    }
}

// The route that a step takes.
fn advance(
    s: &Contract,
    facts: &[i64],
    lists: &[i64],
    verdicts: &[i64],
    states: &mut [i64],
    memo: &mut Preconditions,
    step: usize,
    wanted: Option<usize>,
) -> usize
    requires steppable { Steppable s.now.sheet.words.now s.now.sheet.header (held s.now.sheet.words.now facts.now lists.now) verdicts.now step }
    requires states_in { StatesIn s.now.sheet.words.now s.now.sheet.header states.old }
    requires memo { Memo s.now.sheet.words.now s.now.sheet.header (held s.now.sheet.words.now facts.now lists.now) verdicts.now memo.old.known }
    ensures value { result ≡ route_taken s.now.sheet.words.now s.now.sheet.header (held s.now.sheet.words.now facts.now lists.now) verdicts.now states.old step wanted }
    ensures states_after { states.new ≡ states_then s.now.sheet.words.now s.now.sheet.header (held s.now.sheet.words.now facts.now lists.now) verdicts.now states.old step wanted }
    ensures memo_2 { Memo s.now.sheet.words.now s.now.sheet.header (held s.now.sheet.words.now facts.now lists.now) verdicts.now memo.new.known }
{
    if step_word(&s.sheet, step, place::STEP_KIND) == 0 {
        perform_step(s, facts, lists, verdicts, states, memo, step, wanted)
    } else {
        branch(s, facts, lists, verdicts, step)
    }
}

// What the word of a flow's step i wants, counted from its first.
fn wanted_at(words: &[i64], i: usize) -> Option<usize>
    requires { i < length words.now }
    ensures { result ≡ wanted_of (get_or words.now i (pos 0)) }
{
    wanted_of(words[i])
}

// How many outcomes a step may want: a branch has none.
fn outcomes_at(s: &Contract, step: usize) -> usize
    requires { step < s.now.sheet.header.steps }
    ensures { result ≡ outcomes_at s.now.sheet.words.now s.now.sheet.header step }
{
    if step_word(&s.sheet, step, place::STEP_KIND) != 0 {
        return 0;
    }
    outcomes_of(
        &s.sheet,
        Operation(step_word(&s.sheet, step, place::STEP_OPERATION)),
    )
}

// Whether each step's word is −1 or one of its outcomes, of all the flow's steps.
pub fn good_words(s: &Contract, flow: Flow, words: &[i64]) -> bool
    requires flow { flow.0 < s.now.sheet.header.flows }
    requires words_len { length words.now ≡ steps_of s.now.sheet.words.now s.now.sheet.header flow.0 }
    ensures { result ≡ good_words s.now.sheet.words.now s.now.sheet.header flow.0 words.now }
{
    let first = first_step(&s.sheet, flow);
    for k in 0..words.len() {
        if !good_wanted(outcomes_at(s, first + k), wanted_at(words, k)) {
            return false;
        }
    }
    true
}

// Whether each entity that the operation of a step names is flagged. An operation that was found so once is not looked at again.
fn step_covers(s: &Contract, found: &[bool], seen: &mut [bool], step: usize) -> bool
    requires step_lt_steps { step < s.now.sheet.header.steps }
    requires seen { Seen s.now.sheet.words.now s.now.sheet.header found.now seen.old }
    ensures value { result ≡ step_covers s.now.sheet.words.now s.now.sheet.header (λ e. get_or found.now e false) step }
    ensures seen_2 { Seen s.now.sheet.words.now s.now.sheet.header found.now seen.new }
{
    if step_word(&s.sheet, step, place::STEP_KIND) != 0 {
        return true;
    }
    let o = step_word(&s.sheet, step, place::STEP_OPERATION);
    if seen[o] {
        return true;
    }
    let b = covers(s, found, Operation(o));
    seen[o] = b;
    b
}

// The same of all the flow's steps.
pub fn flow_covers(s: &Contract, found: &[bool], flow: Flow) -> bool
    requires { flow.0 < s.now.sheet.header.flows }
    ensures { result ≡ flow_covers s.now.sheet.words.now s.now.sheet.header (λ e. get_or found.now e false) flow.0 }
{
    let mut seen = [false; Header::OPERATIONS];
    let first = first_step(&s.sheet, flow);
    for k in 0..steps(&s.sheet, flow) {
        if !step_covers(s, found, &mut seen, first + k) {
            return false;
        }
    }
    true
}

// Takes the route of each step that it comes to, until it comes to a terminal.
pub fn run(
    s: &Contract,
    facts: &[i64],
    lists: &[i64],
    verdicts: &[i64],
    states: &mut [i64],
    flow: Flow,
    wanted: &[i64],
    path: &mut [u16],
) -> Result<Tally, Refusal>
    requires runnable { Runnable s.now.sheet.words.now s.now.sheet.header (held s.now.sheet.words.now facts.now lists.now) verdicts.now states.old flow.0 path.old }
    requires wanted_len { length wanted.now ≡ steps_of s.now.sheet.words.now s.now.sheet.header flow.0 }
    ensures value { result ≡ ran_walk s.now.sheet.words.now s.now.sheet.header (held s.now.sheet.words.now facts.now lists.now) verdicts.now states.old flow.0 wanted.now }
    ensures path_after { path.new ≡ ran_path s.now.sheet.words.now s.now.sheet.header (held s.now.sheet.words.now facts.now lists.now) verdicts.now states.old flow.0 wanted.now path.old }
    ensures states_after { states.new ≡ ran_states s.now.sheet.words.now s.now.sheet.header (held s.now.sheet.words.now facts.now lists.now) verdicts.now states.old flow.0 wanted.now }
{
    let mut memo = Preconditions::new();
    let mut w = Walker::start(&s.sheet, flow);
    let first = w.step;
    while !w.finished {
        let want = wanted_at(wanted, w.step - first);
        let route = advance(s, facts, lists, verdicts, states, &mut memo, w.step, want);
        path[w.length] = route as u16;
        w = w.take(&s.sheet, route);
    }
    clear(path, w.length);
    Ok(Tally {
        value: w.step,
        count: w.length,
    })
}
