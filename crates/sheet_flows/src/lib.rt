// The scans of the flows and of the routes.
#![tactic(auto)]

ghost use Rattle.std.specs.Prelude.{◌≡◌, true, ℕ, ◌+◌, ◌<◌};
ghost use Rattle.words.specs.Record.{number};
ghost use Rattle.layout.specs.Header.{first_flow, first_route};
ghost use Rattle.layout.specs.Sized.{Sized};
ghost use Rattle.layout.specs.Groups.{good_groups};
ghost use Rattle.records.specs.Flows.{good_flow, good_route};
ghost use Rattle.records.specs.Scans.{scanned};
ghost use Rattle.sheet_flows.specs.Routes.{moved, Room, FlowsGood, StepAt};

use layout::{Sheet, place};
use records::good_route_of;
use words::{number, record_at};

pub fn check_flows(s: &Sheet) -> Result<(), usize>
    requires { good_groups s.now.words.now s.now.header ≡ true }
    ensures { result ≡ scanned (first_flow s.now.header) (good_flow s.now.words.now s.now.header) s.now.header.flows }
{
    let base = s.header.first_flow();
    let mut sum = 0;
    for k in 0..s.header.flows {
        let r = record_at(s.words, base + k);
        if !((r.w0 == sum) & (1 <= r.w1) & r.unused(2)) {
            return Err(base + k);
        }
        sum += r.w1;
    }
    Ok(())
}

// The routes from `first` to `end`, which are those of step i, those before them being good; `last` is where the steps of its flow end.
fn check_group(s: &Sheet, i: usize, last: usize, first: usize, end: usize) -> Result<(), usize>
    requires { FlowsGood s.now.words.now s.now.header × StepAt s.now.words.now s.now.header i last first end × ((k : ℕ) → k < first → good_route s.now.words.now s.now.header k ≡ true) }
    ensures { result ≡ scanned (first_route s.now.header) (good_route s.now.words.now s.now.header) end }
{
    let base = s.header.first_route();
    for k in first..end {
        let n = base + k;
        if !good_route_of(i, last, record_at(s.words, n)) {
            return Err(n);
        }
    }
    Ok(())
}

// How many flows start at or before a step, and where the steps of the last of them end.
#[derive(Clone, Copy)]
pub struct Cursor {
    pub flows: usize,
    pub last: usize,
}

impl Cursor {
    // The cursor at step i, from the one at the step before.
    fn advance(self, s: &Sheet, i: usize) -> Cursor
        requires { Room s.now.words.now s.now.header self i }
        ensures { result ≡ moved s.now.words.now s.now.header self i }
    {
        if i == self.last {
            let n = number(
                s.words,
                s.header.first_flow() + self.flows,
                place::FLOW_STEPS,
            );
            Cursor {
                flows: self.flows + 1,
                last: self.last + n,
            }
        } else {
            self
        }
    }
}

pub fn check_routes(s: &Sheet) -> Result<(), usize>
    requires { FlowsGood s.now.words.now s.now.header }
    ensures { result ≡ scanned (first_route s.now.header) (good_route s.now.words.now s.now.header) s.now.header.routes }
{
    let base = s.header.first_step();
    let mut c = Cursor { flows: 0, last: 0 };
    let mut first = 0;
    for i in 0..s.header.steps {
        c = c.advance(s, i);
        let end = first + number(s.words, base + i, place::STEP_ROUTES);
        check_group(s, i, c.last, first, end)?;
        first = end;
    }
    Ok(())
}
