// S7: the longest path of a flow, by one pass over the routes, from the last step to the first.
#![tactic(auto)]

ghost use Rattle.std.specs.Prelude.{◌≡◌, ◌<◌};
ghost use Rattle.layout.specs.Sized.{Sized};
ghost use Rattle.records.specs.Accepted.{Accepted};
ghost use Rattle.depth.specs.Depth.{depth};
ghost use Rattle.depth.specs.Inner.{route_depth, step_depth, Shallow};

use layout::{Flow, Header, Sheet};
use records::Contract;
use tables::entry;
use walks::{ends, first_route, first_step, routes, steps, target};

// How many steps the longest way by a route has, itself counted; `depths` has those from each later step.
#[tactic(auto, unfolding(crate::specs::Inner::route_depth))]
fn route_depth(s: &Sheet, depths: &[usize], route: usize) -> usize
    requires route_lt_routes { route < s.now.header.routes }
    requires shallow { Shallow depths.now }
    ensures { result ≡ route_depth s.now.words.now s.now.header depths.now route }
{
    if ends(s, route) {
        1
    } else {
        entry(depths, target(s, route), 0) + 1
    }
}

// How many steps the longest way from a step has, itself counted.
fn step_depth(s: &Contract, depths: &[usize], step: usize) -> usize
    requires step_lt_steps { step < s.now.sheet.header.steps }
    requires shallow { Shallow depths.now }
    ensures { result ≡ step_depth s.now.sheet.words.now s.now.sheet.header depths.now step }
{
    let first = first_route(&s.sheet, step);
    let end = first + routes(&s.sheet, step);
    let mut most = 0;
    for route in first..end {
        most = most.max(route_depth(&s.sheet, depths, route));
    }
    most
}

// S7: the number of steps on a flow's longest path.
pub fn longest(s: &Contract, flow: Flow) -> usize
    requires { flow.0 < s.now.sheet.header.flows }
    ensures { result ≡ depth s.now.sheet.words.now s.now.sheet.header flow.0 }
{
    let first = first_step(&s.sheet, flow);
    let end = first + steps(&s.sheet, flow);
    let mut depths = [0usize; Header::STEPS];
    for step in (first..end).rev() {
        depths[step] = step_depth(s, &depths, step);
    }
    depths[first]
}
