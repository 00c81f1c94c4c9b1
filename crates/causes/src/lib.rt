// Reports S3a and S4: what a persona's operations can do to an entity.
#![tactic(auto)]

ghost use Rattle.std.specs.Prelude.{◌≡◌, ◌<◌};
ghost use Rattle.records.specs.Accepted.{Accepted};
ghost use Rattle.causes.specs.Causes.{some_effect, can_be_true, admissible, causes, can_cause};
ghost use Rattle.causes.specs.Inner.{wanted};

use layout::{Entity, Node, Operation, Persona, place};
use operation::{allows, effects_of};
use predicate::can_hold;
use reach::leaves;
use records::Contract;
use words::{Record, number, record_at};

// Whether an effect is entity n's and starts from that state, and leads to the other where one is given.
#[tactic(auto, unfolding(crate::specs::Inner::wanted, reach::specs::Moves::leads))]
fn wanted(n: Entity, from: usize, to: Option<usize>, r: Record<usize>) -> bool
    ensures { result ≡ wanted n.0 from to r }
{
    leaves(n, from, r) & to.is_none_or(|b| r.w2 == b)
}

// Whether an effect of the operation is one that is wanted.
fn some_effect(s: &Contract, o: Operation, n: Entity, from: usize, to: Option<usize>) -> bool
    requires { o.0 < s.now.sheet.header.operations }
    ensures { result ≡ some_effect s.now.sheet.words.now s.now.sheet.header o.0 (wanted n.0 from to) }
{
    let effects = effects_of(s, o);
    let base = s.sheet.header.first_effect();
    for e in effects.first..effects.end {
        if wanted(n, from, to, record_at(s.sheet.words, base + e)) {
            return true;
        }
    }
    false
}

// Whether the range of the operation's precondition includes 1.
fn can_be_true(s: &Contract, o: Operation) -> bool
    requires { o.0 < s.now.sheet.header.operations }
    ensures { result ≡ can_be_true s.now.sheet.words.now s.now.sheet.header o.0 }
{
    can_hold(
        s,
        Node(number(
            s.sheet.words,
            s.sheet.header.first_operation() + o.0,
            place::OPERATION_PRECONDITION,
        )),
    )
}

// S3a. The range is worked out last, and only where the rest holds.
#[tactic(auto, unfolding(crate::specs::Causes::admissible, crate::specs::Inner::wanted))]
pub fn admissible(s: &Contract, n: Entity, state: usize, p: Persona, o: Operation) -> bool
    requires { (p.0 < s.now.sheet.header.personas) × (o.0 < s.now.sheet.header.operations) }
    ensures { result ≡ admissible s.now.sheet.words.now s.now.sheet.header n.0 state p.0 o.0 }
{
    allows(&s.sheet, o, p) && some_effect(s, o, n, state, None) && can_be_true(s, o)
}

// The same of an operation with an effect from that state to the other. Such an effect starts from that state, so it is looked for alone.
fn causes(s: &Contract, p: Persona, n: Entity, from: usize, to: usize, o: Operation) -> bool
    requires { (p.0 < s.now.sheet.header.personas) × (o.0 < s.now.sheet.header.operations) }
    ensures { result ≡ causes s.now.sheet.words.now s.now.sheet.header p.0 n.0 from to o.0 }
{
    allows(&s.sheet, o, p) && some_effect(s, o, n, from, Some(to)) && can_be_true(s, o)
}

// S4, in one pass.
pub fn can_cause(s: &Contract, p: Persona, n: Entity, from: usize, to: usize) -> bool
    requires { p.0 < s.now.sheet.header.personas }
    ensures { result ≡ can_cause s.now.sheet.words.now s.now.sheet.header p.0 n.0 from to }
{
    for o in 0..s.sheet.header.operations {
        if causes(s, p, n, from, to, Operation(o)) {
            return true;
        }
    }
    false
}
