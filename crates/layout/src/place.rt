// The place of each word in a record, by the record's kind.
pub const FACT_TYPE: usize = 0;

pub const FACT_MIN: usize = 1;

pub const FACT_MAX: usize = 2;

pub const FACT_HAS_DEFAULT: usize = 3;

pub const FACT_DEFAULT: usize = 4;

pub const FACT_SET: usize = 5;

pub const FACT_ELEMENT_TYPE: usize = 6;

pub const FACT_LARGEST: usize = 7;

pub const NODE_KIND: usize = 0;

pub const RULE_STRATUM: usize = 0;

pub const RULE_WHEN_NODE: usize = 1;

pub const ENTITY_STATES: usize = 0;

pub const ENTITY_INITIAL: usize = 1;

pub const OPERATION_MASK: usize = 0;

pub const OPERATION_PRECONDITION: usize = 1;

pub const OPERATION_FIRST_EFFECT: usize = 2;

pub const OPERATION_EFFECTS: usize = 3;

pub const OPERATION_OUTCOMES: usize = 4;

pub const EFFECT_ENTITY: usize = 0;

pub const EFFECT_FROM: usize = 1;

pub const EFFECT_TO: usize = 2;

pub const EFFECT_OUTCOME: usize = 3;

pub const FLOW_FIRST_STEP: usize = 0;

pub const FLOW_STEPS: usize = 1;

pub const STEP_KIND: usize = 0;

pub const STEP_OPERATION: usize = 1;

pub const STEP_NODE: usize = 1;

pub const STEP_PERSONA: usize = 2;

pub const STEP_FIRST_ROUTE: usize = 3;

pub const STEP_ROUTES: usize = 4;

pub const ROUTE_KIND: usize = 0;

pub const ROUTE_TARGET: usize = 1;
