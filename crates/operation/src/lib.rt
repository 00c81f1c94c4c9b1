// One operation on one state for each entity, below the ladder of refusals: refusals 9 and 11, and the states afterwards.
#![tactic(auto)]

ghost use Rattle.std.specs.Prelude.{◌≡◌, ◌+◌, ◌≤◌, ◌<◌, length};
ghost use Rattle.words.specs.Record.{number};
ghost use Rattle.layout.specs.Header.{first_operation, first_effect};
ghost use Rattle.layout.specs.Sized.{Sized};
ghost use Rattle.layout.specs.Tables.{effect};
ghost use Rattle.records.specs.Accepted.{Accepted};
ghost use Rattle.operation.specs.Mask.{in_mask, allowed};
ghost use Rattle.operation.specs.Outcomes.{starts, wanted_of, good_wanted, chosen};
ghost use Rattle.operation.specs.Changes.{applied};
ghost use Rattle.operation.specs.Inner.{performed, effects_of, Read, OutcomeAt, Clear, Collected, Shifted};
ghost use Rattle.operation.specs.Ready.{Ready};

use answer::Refusal;
use layout::{Header, Operation, Persona, Sheet, place};
use records::Contract;
use signed::{num, same, to_word};
use words::{number, number_at};

// An operation's effects: their numbers run from first up to end, in so many outcomes.
#[derive(Clone, Copy)]
pub struct Effects {
    pub first: usize,
    pub end: usize,
    pub outcomes: usize,
}

// Whether bit p of the mask is set.
pub fn in_mask(mask: usize, p: usize) -> bool
    requires { p < 64 }
    ensures { result ≡ in_mask mask p }
{
    (mask >> p) % 2 == 1
}

// Word j of an operation's record.
fn operation_word(s: &Sheet, o: Operation, j: usize) -> usize
    requires { (o.0 < s.now.header.operations) × (j < 8) }
    ensures { result ≡ number s.now.words.now (first_operation s.now.header + o.0) j }
{
    number(s.words, s.header.first_operation() + o.0, j)
}

// Refusal 9 is given exactly where this is false.
#[tactic(auto, unfolding(crate::specs::Mask::allowed, words::specs::Record::record_at))]
pub fn allows(s: &Sheet, o: Operation, p: Persona) -> bool
    requires { (o.0 < s.now.header.operations) × (p.0 < s.now.header.personas) }
    ensures { result ≡ allowed s.now.words.now s.now.header o.0 p.0 }
{
    let bit = p.0;
    in_mask(operation_word(s, o, place::OPERATION_MASK), bit)
}

pub fn effects_of(s: &Contract, o: Operation) -> Effects
    requires { o.0 < s.now.sheet.header.operations }
    ensures { result ≡ effects_of s.now.sheet.words.now s.now.sheet.header o.0 }
{
    let first = operation_word(&s.sheet, o, place::OPERATION_FIRST_EFFECT);
    Effects {
        first,
        end: first + operation_word(&s.sheet, o, place::OPERATION_EFFECTS),
        outcomes: operation_word(&s.sheet, o, place::OPERATION_OUTCOMES),
    }
}

// Word j of effect e's record.
pub fn effect_word(s: &Sheet, e: usize, j: usize) -> usize
    requires { (e < s.now.header.effects) × (j < 8) }
    ensures { result ≡ number s.now.words.now (first_effect s.now.header + e) j }
{
    number(
        s.words,
        s.header.first_operation() + s.header.operations + e,
        j,
    )
}

// Whether effect e starts from its entity's present state.
fn starts(s: &Contract, states: &[i64], e: usize) -> bool
    requires { Read s.now.sheet.words.now s.now.sheet.header states.now e }
    ensures { result ≡ starts states.now (effect s.now.sheet.words.now s.now.sheet.header e) }
{
    let n = effect_word(&s.sheet, e, place::EFFECT_ENTITY);
    effect_word(&s.sheet, e, place::EFFECT_FROM) == number_at(states, n)
}

// Sets the flags of the entities that outcome j matches. Its effects start at `at`; the answer is where they end.
fn collect(
    s: &Contract,
    states: &[i64],
    found: &mut [bool],
    o: Operation,
    at: usize,
    j: usize,
) -> usize
    requires ready { Ready s.now.sheet.words.now s.now.sheet.header states.now o.0 }
    requires outcome_at { OutcomeAt s.now.sheet.words.now s.now.sheet.header o.0 j at × Clear found.old }
    ensures { Collected s.now.sheet.words.now s.now.sheet.header states.now o.0 j at result found.new }
{
    let end = effects_of(s, o).end;
    for e in at..end {
        if effect_word(&s.sheet, e, place::EFFECT_OUTCOME) != j {
            return e;
        }
        let on = starts(s, states, e);
        let n = effect_word(&s.sheet, e, place::EFFECT_ENTITY);
        found[n] |= on;
    }
    end
}

// What a lent word wants: one outcome by its number, or with −1 any that is the only one applicable.
pub fn wanted_of(w: i64) -> Option<usize>
    ensures { result ≡ wanted_of w }
{
    if same(w, -1) { None } else { Some(num(w)) }
}

// Whether the wanted outcome is one of n.
#[tactic(auto, unfolding(crate::specs::Outcomes::good_wanted))]
pub fn good_wanted(n: usize, wanted: Option<usize>) -> bool
    ensures { result ≡ good_wanted n wanted }
{
    wanted.is_none_or(|j| j < n)
}

// The chosen outcome; refusal 11 with the entity that blocks the outcome asked about; or 16. Outcomes ascend along the effects, so those of
// one outcome stand together and the loop goes along them.
pub fn choose(
    s: &Contract,
    states: &[i64],
    o: Operation,
    wanted: Option<usize>,
) -> Result<usize, Refusal>
    requires { Ready s.now.sheet.words.now s.now.sheet.header states.now o.0 }
    ensures { result ≡ chosen s.now.sheet.words.now s.now.sheet.header states.now o.0 wanted }
{
    // A copy, for speed: behind the reference the words' place and the counts are read again for each effect, since flags are written in between.
    let copy = *s;
    let s = &copy;
    let effects = effects_of(s, o);
    let outcomes = effects.outcomes;
    let mut at = effects.first;
    let mut j = 0;
    let mut choice = None;
    let mut blocker = 0;
    // With no outcome wanted, what blocks is said of the outcome numbered 0.
    let subject = wanted.unwrap_or(0);
    'outcomes: loop {
        if j == outcomes {
            break choice.ok_or(Refusal::NoOutcome(blocker));
        }
        let mut found = [false; Header::ENTITIES];
        let first = at;
        let stop = collect(s, states, &mut found, o, first, j);
        at = stop;
        for e in first..stop {
            let n = effect_word(&s.sheet, e, place::EFFECT_ENTITY);
            if !found[n] {
                // No effect of this outcome starts from the entity's state: on to the next outcome.
                if subject == j {
                    blocker = n;
                }
                j += 1;
                continue 'outcomes;
            }
        }
        // Outcome j is applicable.
        if wanted.is_none_or(|k| k == j) {
            if choice.is_some() {
                break Err(Refusal::ManyOutcomes);
            }
            choice = Some(j);
        }
        j += 1;
    }
}

// Applies effect e where it starts from the state of an entity that has not moved, and flags that entity as moved.
fn shift(s: &Contract, states: &mut [i64], moved: &mut [bool], e: usize)
    requires read { Read s.now.sheet.words.now s.now.sheet.header states.old e }
    requires moved_len { length moved.old ≡ 32 }
    ensures { Shifted s.now.sheet.words.now s.now.sheet.header e states.old moved.old states.new moved.new }
{
    let n = effect_word(&s.sheet, e, place::EFFECT_ENTITY);
    let on = !moved[n] & starts(s, states, e);
    if on {
        states[n] = to_word(effect_word(&s.sheet, e, place::EFFECT_TO));
        moved[n] = true;
    }
}

// Applies outcome j of the operation, each effect by the states as they were lent.
pub fn apply(s: &Contract, states: &mut [i64], o: Operation, j: usize)
    requires { Ready s.now.sheet.words.now s.now.sheet.header states.old o.0 }
    ensures { states.new ≡ applied s.now.sheet.words.now s.now.sheet.header states.old o.0 j }
{
    // A copy, as in `choose`.
    let copy = *s;
    let s = &copy;
    let effects = effects_of(s, o);
    // An entity moves once: an effect that starts from the state it moved to is not applied.
    let mut moved = [false; Header::ENTITIES];
    for e in effects.first..effects.end {
        if effect_word(&s.sheet, e, place::EFFECT_OUTCOME) == j {
            shift(s, states, &mut moved, e);
        }
    }
}

// The whole operation: the chosen outcome is applied; where none is chosen, the states stay.
#[tactic(auto, using(crate::proofs::Guarantees::performed_by, crate::proofs::Guarantees::performed_none))]
pub fn perform(
    s: &Contract,
    states: &mut [i64],
    o: Operation,
    wanted: Option<usize>,
) -> Result<usize, Refusal>
    requires { Ready s.now.sheet.words.now s.now.sheet.header states.old o.0 }
    ensures value { result ≡ chosen s.now.sheet.words.now s.now.sheet.header states.old o.0 wanted }
    ensures states_after { states.new ≡ performed s.now.sheet.words.now s.now.sheet.header states.old o.0 wanted }
{
    let j = choose(s, states, o, wanted)?;
    apply(s, states, o, j);
    Ok(j)
}
