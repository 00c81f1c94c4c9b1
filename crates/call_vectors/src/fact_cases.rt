// The calls on facts and one operation: each takes its buffers from the tape, and writes a line.
use crate::Case;
use crate::facts_lent::{Facts, Room};
use script::lines;
use std::io;
use std::io::Write;

impl Case<'_> {
    pub(crate) fn assemble(mut self, out: &mut impl Write) -> io::Result<()> {
        let mut room = Room::new();
        let Facts {
            values,
            given,
            lists,
            lengths,
        } = room.lend(&mut self.lent);
        let answer = evaluate::assemble(self.sheet, values, given, lists, lengths);
        lines::answer(out, self.number, answer)?;
        lines::buffer(out, values)?;
        lines::buffer(out, given)?;
        writeln!(out)
    }

    pub(crate) fn verdicts(mut self, out: &mut impl Write) -> io::Result<()> {
        let mut room = Room::new();
        let mut verdicts = [0i64; 160];
        let Facts {
            values,
            given,
            lists,
            lengths,
        } = room.lend(&mut self.lent);
        let verdicts = self.lent.lend(&mut verdicts);
        let answer = evaluate::verdicts(self.sheet, values, given, lists, lengths, verdicts);
        lines::answer(out, self.number, answer)?;
        lines::buffer(out, values)?;
        lines::buffer(out, given)?;
        lines::buffer(out, verdicts)?;
        writeln!(out)
    }

    pub(crate) fn operate(
        mut self,
        out: &mut impl Write,
        persona: i64,
        operation: i64,
        wanted: i64,
    ) -> io::Result<()> {
        let mut room = Room::new();
        let mut states = [0i64; 800];
        let mut instances = [0i64; 40];
        let Facts {
            values,
            given,
            lists,
            lengths,
        } = room.lend(&mut self.lent);
        let states = self.lent.lend(&mut states);
        let instances = self.lent.lend(&mut instances);
        let answer = evaluate::operate(
            self.sheet, values, given, lists, lengths, states, instances, persona, operation,
            wanted,
        );
        lines::answer(out, self.number, answer)?;
        lines::buffer(out, values)?;
        lines::buffer(out, given)?;
        lines::buffer(out, states)?;
        writeln!(out)
    }
}
