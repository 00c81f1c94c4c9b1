// Runs the sheet checker over the cases of the file stdin and over a sweep of its first sheet. Writes a line for each case: its number,
// the number of the refusal, 0 where the sheet is accepted, and the refusal's place.
#![tactic(auto)]

ghost use Rattle.std.specs.Prelude.{◌≤◌, ◌<◌, IfOk};

mod largest;
mod sheets;

use answer::Refusal;
use script::buffers::Cursor;
use sheets::{Base, CASES, FIRST, Sheets, WORDS};
use signed::num;
use standard::Output;
use std::io;
use std::io::Write;

// How many numbers the tape has room for.
const TAPE: usize = 16_384;

// Checks the first n of the words.
fn judge(out: &mut impl Write, case: usize, words: &[i64], n: usize) -> io::Result<()> {
    let Some(sheet) = words.get(..n) else {
        return Ok(());
    };
    let (number, place) = match sheet::check(sheet) {
        Ok(()) => (0, 0),
        Err(r) => (r.number(), r.place()),
    };
    writeln!(out, "{case}\t{number}\t{place}")
}

// A case: base, length, number of changes, changes. The sheet is as long as the case says, or else as the base.
fn run(
    out: &mut impl Write,
    sheets: Sheets<'_>,
    cases: &mut Cursor<'_>,
    case: usize,
) -> io::Result<()> {
    let mut words = [0i64; WORDS];
    let base = Base::from(cases.number());
    let given = num(cases.number());
    let n = if given <= WORDS { given } else { base.size() };
    base.lay(sheets, &mut words);
    for _ in 0..num(cases.number()).min(16) {
        sheets::change(cases, &mut words);
    }
    judge(out, case, &words, n)
}

// The cases of the tape, up to its end; answers how many there are.
fn run_all(out: &mut impl Write, sheets: Sheets<'_>, mut cases: Cursor<'_>) -> io::Result<usize>
    ensures { IfOk result (λ n. n ≤ 16384) }
{
    for case in 0..TAPE {
        if cases.is_over() {
            return Ok(case);
        }
        run(out, sheets, &mut cases, case)?;
    }
    Ok(TAPE)
}

// Every word of the first sheet in turn, each made v.
fn sweep(out: &mut impl Write, sheet: &[i64], v: i64, first: usize) -> io::Result<()>
    requires { first < 32768 }
{
    for i in 0..FIRST {
        let mut words = [0i64; FIRST];
        sheets::copy(sheet, &mut words);
        words[i] = v;
        judge(out, first + i, &words, FIRST)?;
    }
    Ok(())
}

// The cases, then a sweep for each of three words.
fn run_sweeps(out: &mut impl Write, tape: &[i64; TAPE], end: usize) -> io::Result<()> {
    let sheets = Sheets::new(tape);
    let cases = Cursor::new(&tape[CASES..], end.saturating_sub(CASES));
    let n = run_all(out, sheets, cases)?;
    for (i, v) in [-1, i64::MIN, i64::MAX].iter().enumerate() {
        sweep(out, sheets.first, *v, n + FIRST * i)?;
    }
    Ok(())
}

fn main() {
    let mut text = [0u8; 131_072];
    let n = standard::read(&mut text);
    let mut tape = [0i64; TAPE];
    let end = script::read(&text[..n], &mut tape);
    let _ = run_sweeps(&mut Output, &tape, end);
}
