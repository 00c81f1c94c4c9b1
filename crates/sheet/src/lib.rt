// The sheet checker: refusals 1, 2 and 3.
#![tactic(auto)]

ghost use Rattle.std.specs.Prelude.{◌≡◌, true, false, replicate, OnOk};
ghost use Rattle.layout.specs.Header.{records};
ghost use Rattle.layout.specs.Sized.{Sized};
ghost use Rattle.layout.specs.Groups.{good_groups};
ghost use Rattle.records.specs.Accept.{checked, good_in, tables_of};
ghost use Rattle.records.specs.Names.{named_by_rules};
ghost use Rattle.records.specs.Scans.{scanned};
ghost use Rattle.sheet_roots.specs.Roots.{Known};
ghost use Rattle.sheet.specs.Parts.{upper_scan, middle_scan, lower_scan, Unmarked, Lower};

use answer::Refusal;
use layout::{Header, Sheet, good_groups, good_header};
use sheet_effects::check_effects;
use sheet_facts::check_facts;
use sheet_flows::{check_flows, check_routes};
use sheet_nodes::{Ranges, Trees, check_nodes};
use sheet_roots::operations::check_operations;
use sheet_roots::rules::check_rules;
use sheet_roots::steps::check_steps;
use sheet_states::{check_entities, check_transitions};

// Facts, nodes and rules. The nodes' value ranges are kept for that long.
fn upper(s: &Sheet, trees: &mut Trees) -> Result<(), usize>
    requires { trees.old.named ≡ replicate 1024 false }
    ensures first { result ≡ upper_scan s.now.words.now s.now.header }
    ensures known { OnOk result (Known s.now.words.now s.now.header (named_by_rules s.now.words.now s.now.header s.now.header.rules) trees.new) }
{
    check_facts(s)?;
    let mut ranges = Ranges::new();
    check_nodes(s, &mut ranges, trees)?;
    check_rules(s, trees)
}

// Entities, transitions, operations and effects, on flags of declared transitions and stamps of outcomes.
fn middle_on(
    s: &Sheet,
    trees: &mut Trees,
    declared: &mut [bool],
    seen: &mut [usize],
) -> Result<(), usize>
    requires { (good_groups s.now.words.now s.now.header ≡ true) × Known s.now.words.now s.now.header (named_by_rules s.now.words.now s.now.header s.now.header.rules) trees.old × Unmarked s.now.header declared.old seen.old }
    ensures first { result ≡ middle_scan s.now.words.now s.now.header }
    ensures lower { OnOk result (Lower s.now.words.now s.now.header trees.new) }
{
    check_entities(s)?;
    check_transitions(s, declared)?;
    check_operations(s, trees)?;
    check_effects(s, declared, seen)
}

// Arrays are cleared before use, so few entities get small ones.
fn middle(s: &Sheet, trees: &mut Trees) -> Result<(), usize>
    requires { (good_groups s.now.words.now s.now.header ≡ true) × Known s.now.words.now s.now.header (named_by_rules s.now.words.now s.now.header s.now.header.rules) trees.old }
    ensures first { result ≡ middle_scan s.now.words.now s.now.header }
    ensures lower { OnOk result (Lower s.now.words.now s.now.header trees.new) }
{
    if s.header.entities <= 4 {
        middle_on(s, trees, &mut [false; 1024], &mut [0; 64])
    } else {
        middle_on(s, trees, &mut [false; 8192], &mut [0; 512])
    }
}

// Flows, steps and routes.
fn lower(s: &Sheet, trees: &mut Trees) -> Result<(), usize>
    requires { (good_groups s.now.words.now s.now.header ≡ true) × Lower s.now.words.now s.now.header trees.old }
    ensures { result ≡ lower_scan s.now.words.now s.now.header }
{
    check_flows(s)?;
    check_steps(s, trees)?;
    check_routes(s)
}

// All records: Err with the number of the first bad one.
fn check_records(s: &Sheet) -> Result<(), usize>
    requires { good_groups s.now.words.now s.now.header ≡ true }
    ensures { result ≡ scanned 0 (good_in (tables_of s.now.words.now s.now.header)) (records s.now.header) }
{
    let mut trees = Trees::new();
    upper(s, &mut trees)?;
    middle(s, &mut trees)?;
    lower(s, &mut trees)
}

// Judges any words: accepted, or refused 1, 2 or 3 with its place.
pub fn check(s: &[i64]) -> Result<(), Refusal>
    ensures { result ≡ checked s.now }
{
    if !good_header(s) {
        return Err(Refusal::Header);
    }
    let sheet = Sheet {
        words: s,
        header: Header::read(s),
    };
    if !good_groups(&sheet) {
        return Err(Refusal::Group);
    }
    match check_records(&sheet) {
        Ok(()) => Ok(()),
        Err(k) => Err(Refusal::Record(k)),
    }
}
