// The header of a sheet, where its tables start, and refusals 1 and 2.
#![tactic(auto)]

ghost use Rattle.std.specs.Prelude.{◌≡◌, ◌+◌, ◌*◌, ◌≤◌, ◌<◌, length};
ghost use Rattle.words.specs.Record.{number};
ghost use Rattle.layout.specs.Header.{header_of, in_limits, good_frame, good_header, records, first_rule, first_entity, first_transition, first_operation, first_effect, first_flow, first_step, first_route};
ghost use Rattle.layout.specs.Groups.{good_group, good_groups};
ghost use Rattle.layout.specs.Sized.{Limits, Sized, Owners};

pub mod place;
mod sheet;

pub use sheet::Sheet;
use words::{number, number_at};

// The counts of a sheet, in the header's order.
#[derive(Clone, Copy)]
pub struct Header {
    pub personas: usize,
    pub facts: usize,
    pub nodes: usize,
    pub rules: usize,
    pub entities: usize,
    pub transitions: usize,
    pub operations: usize,
    pub effects: usize,
    pub flows: usize,
    pub steps: usize,
    pub routes: usize,
}

// Numbers that have been checked to exist, each of its own type, so that one cannot be passed for another.
#[derive(Clone, Copy)]
pub struct Persona(pub usize);

#[derive(Clone, Copy)]
pub struct Operation(pub usize);

#[derive(Clone, Copy)]
pub struct Entity(pub usize);

#[derive(Clone, Copy)]
pub struct Node(pub usize);

#[derive(Clone, Copy)]
pub struct Rule(pub usize);

#[derive(Clone, Copy)]
pub struct Flow(pub usize);

impl Header {
    pub const PERSONAS: usize = 24;

    pub const FACTS: usize = 128;

    pub const NODES: usize = 1024;

    pub const RULES: usize = 128;

    pub const ENTITIES: usize = 32;

    pub const TRANSITIONS: usize = 512;

    pub const OPERATIONS: usize = 128;

    pub const EFFECTS: usize = 512;

    pub const FLOWS: usize = 32;

    pub const STEPS: usize = 256;

    pub const ROUTES: usize = 1024;

    #[tactic(auto, unfolding(crate::specs::Header::header_of))]
    pub fn read(s: &[i64]) -> Header
        requires { 16 ≤ length s.now }
        ensures { result ≡ header_of s.now }
    {
        Header {
            personas: number_at(s, 1),
            facts: number_at(s, 2),
            nodes: number_at(s, 3),
            rules: number_at(s, 4),
            entities: number_at(s, 5),
            transitions: number_at(s, 6),
            operations: number_at(s, 7),
            effects: number_at(s, 8),
            flows: number_at(s, 9),
            steps: number_at(s, 10),
            routes: number_at(s, 11),
        }
    }

    #[tactic(auto, unfolding(crate::specs::Header::in_limits))]
    pub fn in_limits(self) -> bool
        ensures { result ≡ in_limits self }
    {
        (self.personas <= Header::PERSONAS)
            & (self.facts <= Header::FACTS)
            & (self.nodes <= Header::NODES)
            & (self.rules <= Header::RULES)
            & (self.entities <= Header::ENTITIES)
            & (self.transitions <= Header::TRANSITIONS)
            & (self.operations <= Header::OPERATIONS)
            & (self.effects <= Header::EFFECTS)
            & (self.flows <= Header::FLOWS)
            & (self.steps <= Header::STEPS)
            & (self.routes <= Header::ROUTES)
    }

    pub fn first_rule(self) -> usize
        requires { Limits self }
        ensures { result ≡ first_rule self }
    {
        self.facts + self.nodes
    }

    pub fn first_entity(self) -> usize
        requires { Limits self }
        ensures { result ≡ first_entity self }
    {
        self.first_rule() + self.rules
    }

    pub fn first_transition(self) -> usize
        requires { Limits self }
        ensures { result ≡ first_transition self }
    {
        self.first_entity() + self.entities
    }

    pub fn first_operation(self) -> usize
        requires { Limits self }
        ensures { result ≡ first_operation self }
    {
        self.first_transition() + self.transitions
    }

    pub fn first_effect(self) -> usize
        requires { Limits self }
        ensures { result ≡ first_effect self }
    {
        self.first_operation() + self.operations
    }

    pub fn first_flow(self) -> usize
        requires { Limits self }
        ensures { result ≡ first_flow self }
    {
        self.first_effect() + self.effects
    }

    pub fn first_step(self) -> usize
        requires { Limits self }
        ensures { result ≡ first_step self }
    {
        self.first_flow() + self.flows
    }

    pub fn first_route(self) -> usize
        requires { Limits self }
        ensures { result ≡ first_route self }
    {
        self.first_step() + self.steps
    }

    pub fn records(self) -> usize
        requires { Limits self }
        ensures { result ≡ records self }
    {
        self.first_route() + self.routes
    }
}

#[tactic(auto, unfolding(crate::specs::Header::good_frame))]
fn good_frame(s: &[i64]) -> bool
    requires { 16 ≤ length s.now }
    ensures { result ≡ good_frame s.now }
{
    (number_at(s, 0) == 1)
        & (number_at(s, 12) == 0)
        & (number_at(s, 13) == 0)
        & (number_at(s, 14) == 0)
        & (number_at(s, 15) == 0)
}

// Refusal 1 is given exactly where this is false.
#[tactic(auto, using(crate::proofs::Limits::limits))]
pub fn good_header(s: &[i64]) -> bool
    ensures { result ≡ good_header s.now }
{
    if s.len() < 16 {
        return false;
    }
    let h = Header::read(s);
    if !h.in_limits() {
        return false;
    }
    good_frame(s) & (s.len() == 16 + 8 * h.records())
}

// The most members that an owner may have.
const MOST: usize = 1024;

// Whether word j of each of the records from `first` on is at most 1,024, and they sum to `size`.
fn good_group(s: &[i64], first: usize, j: usize, owners: usize, size: usize) -> bool
    requires { Owners s.now first j owners }
    ensures { result ≡ good_group (λ i. number s.now (first + i) j) owners size }
{
    let mut sum = 0;
    for i in 0..owners {
        let n = number(s, first + i, j);
        if MOST < n {
            return false;
        }
        sum += n;
    }
    sum == size
}

// Refusal 2 is given exactly where the header is good and this is false.
pub fn good_groups(s: &Sheet) -> bool
    ensures { result ≡ good_groups s.now.words.now s.now.header }
{
    good_group(
        s.words,
        s.header.first_operation(),
        place::OPERATION_EFFECTS,
        s.header.operations,
        s.header.effects,
    ) & good_group(
        s.words,
        s.header.first_flow(),
        place::FLOW_STEPS,
        s.header.flows,
        s.header.steps,
    ) & good_group(
        s.words,
        s.header.first_step(),
        place::STEP_ROUTES,
        s.header.steps,
        s.header.routes,
    )
}
