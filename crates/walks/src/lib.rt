// Walks along a flow: its steps and routes, a walker that takes one route after the other, and the buffer past a path.
#![tactic(auto, unfolding(words::specs::Record::record_at, crate::specs::Paths::first_route_of, crate::specs::Paths::routes_of, crate::specs::Paths::ends, crate::specs::Paths::target, crate::specs::Walkers::started, crate::specs::Walkers::taken,))]

ghost use Rattle.std.specs.Prelude.{◌≡◌, ◌++◌, ◌-◌, ◌^◌, ◌≤◌, ◌<◌, length, take, replicate};
ghost use Rattle.layout.specs.Sized.{Sized};
ghost use Rattle.walks.specs.Paths.{first_step_of, steps_of, first_route_of, routes_of, ends, target};
ghost use Rattle.walks.specs.Walkers.{started, taken};

use layout::{Flow, Sheet, place};
use words::number;

// Where a walk along a flow stands: the step that it comes to, or the terminal once it is finished, and how many routes it has taken.
#[derive(Clone, Copy)]
pub struct Walker {
    pub step: usize,
    pub length: usize,
    pub finished: bool,
}

// A flow's first step.
pub fn first_step(s: &Sheet, flow: Flow) -> usize
    requires { flow.0 < s.now.header.flows }
    ensures { result ≡ first_step_of s.now.words.now s.now.header flow.0 }
{
    let f = flow.0;
    number(s.words, s.header.first_flow() + f, place::FLOW_FIRST_STEP)
}

// How many steps a flow has: a path buffer is at least as long.
pub fn steps(s: &Sheet, flow: Flow) -> usize
    requires { flow.0 < s.now.header.flows }
    ensures { result ≡ steps_of s.now.words.now s.now.header flow.0 }
{
    let f = flow.0;
    number(s.words, s.header.first_flow() + f, place::FLOW_STEPS)
}

// The first route of a step; its routes follow each other.
pub fn first_route(s: &Sheet, step: usize) -> usize
    requires { step < s.now.header.steps }
    ensures { result ≡ first_route_of s.now.words.now s.now.header step }
{
    number(
        s.words,
        s.header.first_step() + step,
        place::STEP_FIRST_ROUTE,
    )
}

// How many routes a step has.
pub fn routes(s: &Sheet, step: usize) -> usize
    requires { step < s.now.header.steps }
    ensures { result ≡ routes_of s.now.words.now s.now.header step }
{
    number(s.words, s.header.first_step() + step, place::STEP_ROUTES)
}

// Whether a route ends at a terminal.
pub fn ends(s: &Sheet, route: usize) -> bool
    requires { route < s.now.header.routes }
    ensures { result ≡ ends s.now.words.now s.now.header route }
{
    number(
        s.words,
        s.header.first_step() + s.header.steps + route,
        place::ROUTE_KIND,
    ) == 1
}

// The step or the terminal that a route leads to.
pub fn target(s: &Sheet, route: usize) -> usize
    requires { route < s.now.header.routes }
    ensures { result ≡ target s.now.words.now s.now.header route }
{
    number(
        s.words,
        s.header.first_step() + s.header.steps + route,
        place::ROUTE_TARGET,
    )
}

impl Walker {
    // At a flow's first step.
    pub fn start(s: &Sheet, flow: Flow) -> Walker
        requires { flow.0 < s.now.header.flows }
        ensures { result ≡ started s.now.words.now s.now.header flow.0 }
    {
        Walker {
            step: first_step(s, flow),
            length: 0,
            finished: false,
        }
    }

    // One step of a flow hands on the next step, or the terminal.
    pub fn take(self, s: &Sheet, route: usize) -> Walker
        requires route_lt_routes { route < s.now.header.routes }
        requires length_bound { self.length < 2 ^ 63 }
        ensures { result ≡ taken s.now.words.now s.now.header self route }
    {
        Walker {
            step: target(s, route),
            length: self.length + 1,
            finished: ends(s, route),
        }
    }
}

// Writes 0 from entry `from` on.
pub fn clear(path: &mut [u16], from: usize)
    requires { from ≤ length path.old }
    ensures { path.new ≡ take from path.old ++ replicate (length path.old - from) 0 }
{
    path[from..].fill(0);
}
