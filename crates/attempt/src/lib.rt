// One operation by a persona, over fixed facts and verdicts: refusals 9, 10, 11 and 16, or its outcome and the states afterwards.
#![tactic(auto)]

ghost use Rattle.std.specs.Prelude.{◌≡◌, ◌&&◌, ◌<◌};
ghost use Rattle.records.specs.Accepted.{Accepted};
ghost use Rattle.operation.specs.Mask.{allowed};
ghost use Rattle.facts.specs.Inner.{held};
ghost use Rattle.predicate.specs.Values.{truth};
ghost use Rattle.predicate.specs.Inner.{Evaluable};
ghost use Rattle.operation.specs.Ready.{Ready};
ghost use Rattle.attempt.specs.Attempts.{precondition, attempted, attempted_states};
ghost use Rattle.attempt.specs.Inner.{Attemptable, attempted_if, attempted_states_if};

use answer::Refusal;
use layout::{Node, Operation, Persona, place};
use operation::{allows, perform};
use predicate::is_true;
use records::Contract;
use words::number;

// The node of an operation's precondition.
#[tactic(auto, unfolding(words::specs::Record::record_at))]
fn precondition(s: &Contract, o: Operation) -> Node
    requires { o.0 < s.now.sheet.header.operations }
    ensures { result.0 ≡ precondition s.now.sheet.words.now s.now.sheet.header o.0 }
{
    Node(number(
        s.sheet.words,
        s.sheet.header.first_operation() + o.0,
        place::OPERATION_PRECONDITION,
    ))
}

// Whether an operation's precondition is true.
pub fn precondition_holds(
    s: &Contract,
    facts: &[i64],
    lists: &[i64],
    verdicts: &[i64],
    o: Operation,
) -> bool
    requires evaluable { Evaluable s.now.sheet.words.now s.now.sheet.header (held s.now.sheet.words.now facts.now lists.now) verdicts.now (precondition s.now.sheet.words.now s.now.sheet.header o.0) }
    requires o_lt_operations { o.0 < s.now.sheet.header.operations }
    ensures { result ≡ truth s.now.sheet.words.now s.now.sheet.header (held s.now.sheet.words.now facts.now lists.now) verdicts.now (precondition s.now.sheet.words.now s.now.sheet.header o.0) }
{
    let node = precondition(s, o);
    is_true(s, facts, lists, verdicts, node)
}

// The same, but false where the persona is not allowed: then the precondition is not worked out.
fn admits(
    s: &Contract,
    facts: &[i64],
    lists: &[i64],
    verdicts: &[i64],
    p: Persona,
    o: Operation,
) -> bool
    requires evaluable { Evaluable s.now.sheet.words.now s.now.sheet.header (held s.now.sheet.words.now facts.now lists.now) verdicts.now (precondition s.now.sheet.words.now s.now.sheet.header o.0) }
    requires o_lt_operations { (o.0 < s.now.sheet.header.operations) × (p.0 < s.now.sheet.header.personas) }
    ensures { result ≡ (allowed s.now.sheet.words.now s.now.sheet.header o.0 p.0 && truth s.now.sheet.words.now s.now.sheet.header (held s.now.sheet.words.now facts.now lists.now) verdicts.now (precondition s.now.sheet.words.now s.now.sheet.header o.0)) }
{
    allows(&s.sheet, o, p) && precondition_holds(s, facts, lists, verdicts, o)
}

// Persona, then precondition, then states. `holds` is whether the precondition is true.
pub fn attempt_known(
    s: &Contract,
    holds: bool,
    states: &mut [i64],
    p: Persona,
    o: Operation,
    wanted: Option<usize>,
) -> Result<usize, Refusal>
    requires ready { Ready s.now.sheet.words.now s.now.sheet.header states.old o.0 }
    requires p_lt_personas { p.0 < s.now.sheet.header.personas }
    ensures value { result ≡ attempted_if s.now.sheet.words.now s.now.sheet.header holds states.old p.0 o.0 wanted }
    ensures states_after { states.new ≡ attempted_states_if s.now.sheet.words.now s.now.sheet.header holds states.old p.0 o.0 wanted }
{
    if !allows(&s.sheet, o, p) {
        return Err(Refusal::Persona);
    }
    if !holds {
        return Err(Refusal::Precondition);
    }
    perform(s, states, o, wanted)
}

// An attempt over facts and verdicts.
pub fn attempt(
    s: &Contract,
    facts: &[i64],
    lists: &[i64],
    verdicts: &[i64],
    states: &mut [i64],
    p: Persona,
    o: Operation,
    wanted: Option<usize>,
) -> Result<usize, Refusal>
    requires { Attemptable s.now.sheet.words.now s.now.sheet.header (held s.now.sheet.words.now facts.now lists.now) verdicts.now states.old p.0 o.0 }
    ensures value { result ≡ attempted s.now.sheet.words.now s.now.sheet.header (held s.now.sheet.words.now facts.now lists.now) verdicts.now states.old p.0 o.0 wanted }
    ensures states_after { states.new ≡ attempted_states s.now.sheet.words.now s.now.sheet.header (held s.now.sheet.words.now facts.now lists.now) verdicts.now states.old p.0 o.0 wanted }
{
    let holds = admits(s, facts, lists, verdicts, p, o);
    attempt_known(s, holds, states, p, o, wanted)
}
