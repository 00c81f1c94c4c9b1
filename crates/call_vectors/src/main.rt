// Runs the calls of the script in the file stdin, and writes a line for each: the call's number, the answer, and every lent buffer but lists,
// lengths, instances and the wanted words of a run, which are only read.
// A call: the number of what is called, its numbers, its buffers. 0, with the sheet as a buffer, sets the sheet of the calls after it.
#![tactic(auto)]

mod codes;
mod fact_cases;
mod facts_lent;
mod flow_cases;

use answer::{Figures, Refusal};
use codes::Call;
use script::buffers::Cursor;
use script::lines;
use standard::Output;
use std::io;
use std::io::Write;

// A call's number, its sheet, and its buffers on the tape.
#[derive(Clone, Copy)]
pub struct Case<'a> {
    number: usize,
    sheet: &'a [i64],
    lent: Cursor<'a>,
}

impl Case<'_> {
    // The line of a call that is lent no buffer.
    fn report<T: Figures + Copy>(
        self,
        out: &mut impl Write,
        answer: Result<T, Refusal>,
    ) -> io::Result<()> {
        lines::answer(out, self.number, answer)?;
        writeln!(out)
    }

    fn run(self, out: &mut impl Write, call: Call) -> io::Result<()> {
        let s = self.sheet;
        match call {
            Call::Sheet => Ok(()),
            Call::Assemble => self.assemble(out),
            Call::Verdicts => self.verdicts(out),
            Call::Operate {
                persona,
                operation,
                wanted,
            } => self.operate(out, persona, operation, wanted),
            Call::First(flow) => self.first(out, flow),
            Call::Next(flow) => self.next(out, flow),
            Call::Run(flow) => self.walk(out, flow),
            Call::All(flow) => self.all(out, flow),
            Call::List { flow, nexts } => self.list(out, flow, nexts),
            Call::LookUp(report, x) => self.report(out, reports::look_up(s, report, x)),
            Call::Reachable(entity) => self.report(out, reports::reachable(s, entity)),
            Call::Admissible {
                entity,
                state,
                persona,
                operation,
            } => self.report(
                out,
                reports::admissible(s, entity, state, persona, operation),
            ),
            Call::CanCause {
                persona,
                entity,
                from,
                to,
            } => self.report(out, reports::can_cause(s, persona, entity, from, to)),
            Call::Rules => self.report(out, reports::rules(s)),
        }
    }
}

fn run_all(out: &mut impl Write, mut calls: Cursor<'_>) -> io::Result<()> {
    let mut sheet = calls;
    for number in 0..4096 {
        if calls.is_over() {
            break;
        }
        let call = Call::take(&mut calls);
        let lent = calls;
        calls.pass_buffers(call.buffers());
        if let Call::Sheet = call {
            sheet = lent;
        } else if let Some(words) = sheet.words() {
            let case = Case {
                number,
                sheet: words,
                lent,
            };
            case.run(out, call)?;
        }
    }
    Ok(())
}

fn main() {
    let mut text = [0u8; 262_144];
    let n = standard::read(&mut text);
    let mut tape = [0i64; 65_536];
    let end = script::read(&text[..n], &mut tape);
    let _ = run_all(&mut Output, Cursor::new(&tape, end));
}
