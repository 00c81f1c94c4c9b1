// The paths of a flow, one after the other: first and next.
#![tactic(auto)]

ghost use Rattle.std.specs.Prelude.{◌≡◌, ◌++◌, length, take, Ok};
ghost use Rattle.std.proofs.lemmas.List.Edits.{sets};
ghost use Rattle.walks.specs.Walkers.{arrived};
ghost use Rattle.walks.specs.Follows.{laid};
ghost use Rattle.walks.specs.Inner.{walked, first_way, Going, Lent};
ghost use Rattle.listing.specs.Calls.{first_walk, first_laid, next_walk, next_laid};
ghost use Rattle.listing.specs.Seeks.{Sought};

use answer::{Refusal, Tally};
use layout::Flow;
use records::Contract;
use walks::{Walker, clear, first_route, routes};

// Goes on by first routes to a terminal, and writes them down.
fn descend(s: &Contract, from: Walker, path: &mut [u16]) -> Walker
    requires { Going s.now.sheet.words.now s.now.sheet.header from (length path.old) }
    ensures value { result ≡ walked s.now.sheet.words.now s.now.sheet.header from (first_way s.now.sheet.words.now s.now.sheet.header from) }
    ensures path_after { path.new ≡ sets path.old from.length (first_way s.now.sheet.words.now s.now.sheet.header from) }
{
    let mut w = from;
    while !w.finished {
        let route = first_route(&s.sheet, w.step);
        path[w.length] = route as u16;
        w = w.take(&s.sheet, route);
    }
    w
}

// Goes on to a terminal by first routes, and clears the buffer past the path.
fn finish(s: &Contract, from: Walker, path: &mut [u16]) -> Tally
    requires { Going s.now.sheet.words.now s.now.sheet.header from (length path.old) }
    ensures value { Ok result ≡ arrived (walked s.now.sheet.words.now s.now.sheet.header from (first_way s.now.sheet.words.now s.now.sheet.header from)) }
    ensures path_after { path.new ≡ laid (take from.length path.old ++ first_way s.now.sheet.words.now s.now.sheet.header from) path.old }
{
    let w = descend(s, from, path);
    clear(path, w.length);
    Tally {
        value: w.step,
        count: w.length,
    }
}

// Path 0 of a flow.
pub fn first(s: &Contract, flow: Flow, path: &mut [u16]) -> Result<Tally, Refusal>
    requires { Lent s.now.sheet.words.now s.now.sheet.header flow.0 path.old }
    ensures value { result ≡ first_walk s.now.sheet.words.now s.now.sheet.header flow.0 }
    ensures path_after { path.new ≡ first_laid s.now.sheet.words.now s.now.sheet.header flow.0 path.old }
{
    let w = Walker::start(&s.sheet, flow);
    Ok(finish(s, w, path))
}

// Where the path that follows the one at the buffer's head leaves it: at the last of its routes that is not the last of its step. The walker
// stands at that route's step. 12 where the buffer does not begin with a path, 13 where none follows.
fn seek(s: &Contract, flow: Flow, path: &[u16]) -> Result<Walker, Refusal>
    requires { Lent s.now.sheet.words.now s.now.sheet.header flow.0 path.now }
    ensures { Sought s.now.sheet.words.now s.now.sheet.header flow.0 path.now result }
{
    let mut w = Walker::start(&s.sheet, flow);
    let mut turn = None;
    while !w.finished {
        let route = path[w.length] as usize;
        let first = first_route(&s.sheet, w.step);
        let end = first + routes(&s.sheet, w.step);
        if route < first || end <= route {
            return Err(Refusal::NotPath);
        }
        if route + 1 < end {
            turn = Some(w);
        }
        w = w.take(&s.sheet, route);
    }
    turn.ok_or(Refusal::LastPath)
}

// The path of a flow that follows the one at the buffer's head.
pub fn next(s: &Contract, flow: Flow, path: &mut [u16]) -> Result<Tally, Refusal>
    requires { Lent s.now.sheet.words.now s.now.sheet.header flow.0 path.old }
    ensures value { result ≡ next_walk s.now.sheet.words.now s.now.sheet.header flow.0 path.old }
    ensures path_after { path.new ≡ next_laid s.now.sheet.words.now s.now.sheet.header flow.0 path.old }
{
    let w = seek(s, flow, path)?;
    let route = path[w.length] as usize + 1;
    path[w.length] = route as u16;
    Ok(finish(s, w.take(&s.sheet, route), path))
}
