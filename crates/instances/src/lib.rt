// Many instances of one entity: the lent records judged, the state of each entity's named instance taken out of them, and what comes of it
// written back.
#![tactic(auto)]

ghost use Rattle.std.specs.Prelude.{◌≡◌, false, ◌+◌, ◌*◌, ◌<◌, get_or};
ghost use Rattle.layout.specs.Sized.{Sized};
ghost use Rattle.records.specs.Accepted.{Accepted};
ghost use Rattle.instances.specs.Records.{lent_states, count, entity_at, instance_at, state_at, states_lent, above, good_record, records_fault};
ghost use Rattle.instances.specs.Named.{scattered, covers};
ghost use Rattle.instances.specs.Inner.{Gathered, placed};

use answer::Refusal;
use layout::{Entity, Header, Operation, Sheet, place};
use operation::{effect_word, effects_of};
use records::{Contract, states_of};
use signed::{num, same};
use tables::{entry, flag};

// Whether the records are whole and not too many, and an instance number is lent for each entity.
#[tactic(auto, unfolding(crate::specs::Records::states_lent))]
pub fn states_lent(h: Header, rs: &[i64], is: &[i64]) -> bool
    ensures { result ≡ states_lent h (lent_states rs.now is.now) }
{
    (rs.len() % 3 == 0) & (rs.len() / 3 <= 256) & (is.len() == h.entities)
}

// A lent record.
#[derive(Clone, Copy)]
struct Instance {
    entity: usize,
    number: i64,
    state: i64,
}

impl Instance {
    // Record i.
    fn at(rs: &[i64], i: usize) -> Instance
        requires { i < count rs.now }
        ensures { (result.entity ≡ entity_at rs.now i) × (result.number ≡ instance_at rs.now i) × (result.state ≡ state_at rs.now i) }
    {
        Instance {
            entity: num(rs[3 * i]),
            number: rs[3 * i + 1],
            state: rs[3 * i + 2],
        }
    }
}

// Whether record j is above record i.
#[tactic(auto, unfolding(crate::specs::Records::above))]
fn above(rs: &[i64], i: usize, j: usize) -> bool
    requires { (i < count rs.now) × (j < count rs.now) }
    ensures { result ≡ above rs.now i j }
{
    let before = Instance::at(rs, i);
    let r = Instance::at(rs, j);
    (before.entity, before.number) < (r.entity, r.number)
}

// Whether a record's entity and state are in range, and it is above the one before it.
#[tactic(auto, unfolding(crate::specs::Records::good_record))]
fn good_record(s: &Sheet, rs: &[i64], i: usize) -> bool
    requires { i < count rs.now }
    ensures { result ≡ good_record s.now.words.now s.now.header rs.now i }
{
    let r = Instance::at(rs, i);
    if s.header.entities <= r.entity {
        return false;
    }
    if states_of(s, Entity(r.entity)) <= num(r.state) {
        return false;
    }
    i == 0 || above(rs, i - 1, i)
}

// Refusal 8, or Done.
pub fn judge_records(s: &Sheet, rs: &[i64]) -> Result<(), Refusal>
    ensures { result ≡ records_fault s.now.words.now s.now.header rs.now }
{
    for i in 0..rs.len() / 3 {
        if !good_record(s, rs, i) {
            return Err(Refusal::State(i));
        }
    }
    Ok(())
}

// One record of the gathering pass.
fn take(rs: &[i64], is: &[i64], i: usize, states: &mut [i64], found: &mut [bool])
    requires i_bound { i < count rs.now }
    requires gathered { Gathered (lent_states rs.now is.now) i states.old found.old }
    ensures { Gathered (lent_states rs.now is.now) (i + 1) states.new found.new }
{
    let r = Instance::at(rs, i);
    let e = r.entity;
    if e < is.len() {
        if same(r.number, is[e]) {
            states[e] = r.state;
            found[e] = true;
        }
    }
}

// One pass over the records: the state of each entity's named instance, and whether a record has it.
pub fn gather(rs: &[i64], is: &[i64], states: &mut [i64], found: &mut [bool])
    requires { Gathered (lent_states rs.now is.now) 0 states.old found.old }
    ensures { Gathered (lent_states rs.now is.now) (count rs.now) states.new found.new }
{
    for i in 0..rs.len() / 3 {
        take(rs, is, i, states, found);
    }
}

// Whether each entity that an effect of the operation names is flagged.
pub fn covers(s: &Contract, found: &[bool], o: Operation) -> bool
    requires { o.0 < s.now.sheet.header.operations }
    ensures { result ≡ covers s.now.sheet.words.now s.now.sheet.header (λ e. get_or found.now e false) o.0 }
{
    let effects = effects_of(s, o);
    for e in effects.first..effects.end {
        if !flag(found, effect_word(&s.sheet, e, place::EFFECT_ENTITY)) {
            return false;
        }
    }
    true
}

// One record of the writing pass.
fn put(rs: &mut [i64], is: &[i64], states: &[i64], i: usize)
    requires { i < count rs.old }
    ensures { rs.new ≡ placed (lent_states rs.old is.now) states.now i }
{
    let r = Instance::at(rs, i);
    if same(r.number, entry(is, r.entity, 0)) {
        rs[3 * i + 2] = entry(states, r.entity, 0);
    }
}

// One pass over the records: each named instance is put into its entity's state.
pub fn scatter(rs: &mut [i64], is: &[i64], states: &[i64])
    ensures { rs.new ≡ scattered (lent_states rs.old is.now) states.now }
{
    for i in 0..rs.len() / 3 {
        put(rs, is, states, i);
    }
}
