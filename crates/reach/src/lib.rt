// Report S2: the mask of the states of an entity that are reached from its initial one, and how many scans of transitions found it.
#![tactic(auto)]

ghost use Rattle.std.specs.Prelude.{◌≡◌, false, cond, ◌+◌, ◌≤◌, ◌<◌, ◌^◌, get_or, replicate};
ghost use Rattle.records.specs.Accepted.{Accepted};
ghost use Rattle.reach.specs.Reached.{mask_below, reachable, scans};
ghost use Rattle.reach.specs.Moves.{leaves};
ghost use Rattle.reach.specs.Inner.{Spread, Kept, Ready, Joined, next_open};

use layout::{Entity, place};
use records::Contract;
use words::{Record, number, record_at};

// What S2 finds: the states as a mask, and how often transitions were scanned.
#[derive(Clone, Copy)]
pub struct Reach {
    pub mask: usize,
    pub scans: usize,
}

// Whether a transition or an effect is entity n's and starts from state a.
#[tactic(auto, unfolding(crate::specs::Moves::leaves))]
pub fn leaves(n: Entity, a: usize, r: Record<usize>) -> bool
    ensures { result ≡ leaves n.0 a r }
{
    (r.w0 == n.0) & (r.w1 == a)
}

// Goes through the sheet's transitions: flags the states that the entity's lead to from `state`, and keeps the entity's moves.
fn scan_sheet(
    s: &Contract,
    n: Entity,
    state: usize,
    moves: &mut [[bool; 16]; 16],
    found: &mut [bool; 16],
)
    requires { moves.old ≡ replicate 16 (replicate 16 false) }
    ensures kept { Kept s.now.sheet.words.now s.now.sheet.header n.0 moves.new }
    ensures spread { Spread s.now.sheet.words.now s.now.sheet.header n.0 state found.old found.new }
{
    let base = s.sheet.header.first_transition();
    for k in 0..s.sheet.header.transitions {
        let r = record_at(s.sheet.words, base + k);
        if r.w0 == n.0 {
            moves[r.w1][r.w2] = true;
            if r.w1 == state {
                found[r.w2] = true;
            }
        }
    }
}

// Goes through the moves kept that lead from one state.
fn scan_moves(row: &[bool; 16], found: &mut [bool; 16])
    ensures { Joined row.now found.old found.new }
{
    for q in 0..16 {
        found[q] |= row[q];
    }
}

// One scan, for one state, which counts itself. The first goes through the sheet's transitions; a later one meets none of another entity or
// from another state.
fn scan(
    s: &Contract,
    n: Entity,
    state: usize,
    scans: usize,
    moves: &mut [[bool; 16]; 16],
    found: &mut [bool; 16],
) -> usize
    requires scans { (state < 16) × (scans ≤ 16) }
    requires ready { Ready s.now.sheet.words.now s.now.sheet.header n.0 scans moves.old }
    ensures value { result ≡ scans + 1 }
    ensures kept { Kept s.now.sheet.words.now s.now.sheet.header n.0 moves.new }
    ensures spread { Spread s.now.sheet.words.now s.now.sheet.header n.0 state found.old found.new }
{
    if scans == 0 {
        scan_sheet(s, n, state, moves, found);
        1
    } else {
        scan_moves(&moves[state], found);
        scans + 1
    }
}

// The first state that is found and not scanned.
fn next_open(found: &[bool; 16], scanned: &[bool; 16]) -> Option<usize>
    ensures { result ≡ next_open found.now scanned.now }
{
    for q in 0..16 {
        if found[q] & !scanned[q] {
            return Some(q);
        }
    }
    None
}

// Bit q where it is set, else 0.
fn place(on: bool, q: usize) -> usize
    requires { q < 16 }
    ensures { result ≡ cond on (2 ^ q) 0 }
{
    if on { 1 << q } else { 0 }
}

// The mask of the flags that are set.
fn mask_of(found: &[bool; 16]) -> usize
    ensures { result ≡ mask_below (λ q. get_or found.now q false) 16 }
{
    let mut mask = 0;
    for q in 0..16 {
        mask += place(found[q], q);
    }
    mask
}

// S2. The transitions are scanned once for each state that is found, the initial one first.
pub fn reachable(s: &Contract, n: Entity) -> Reach
    requires { n.0 < s.now.sheet.header.entities }
    ensures { (result.mask ≡ reachable s.now.sheet.words.now s.now.sheet.header n.0) × (result.scans ≡ scans s.now.sheet.words.now s.now.sheet.header n.0) }
{
    let mut moves = [[false; 16]; 16];
    let mut found = [false; 16];
    let mut scanned = [false; 16];
    let mut scans = 0;
    let initial = number(
        s.sheet.words,
        s.sheet.header.first_entity() + n.0,
        place::ENTITY_INITIAL,
    );
    found[initial] = true;
    let mut next = Some(initial);
    while let Some(state) = next {
        scanned[state] = true;
        scans = scan(s, n, state, scans, &mut moves, &mut found);
        next = next_open(&found, &scanned);
    }
    Reach {
        mask: mask_of(&found),
        scans,
    }
}
