// The calls on flows: each takes its buffers from the tape, and writes a line.
use crate::Case;
use crate::facts_lent::{Facts, Room};
use answer::{Refusal, Tally};
use script::lines;
use std::io;
use std::io::Write;

// The longest path buffer of a case.
const ROOM: usize = 512;

// A checksum with one more number.
fn mixed(sum: usize, x: usize) -> usize {
    if sum < 1_000_003 && x < 65_536 {
        (31 * sum + x) % 1_000_003
    } else {
        1
    }
}

// A checksum with a path more: its terminal, its length and the whole buffer.
fn mixed_path(sum: usize, path: Tally, buffer: &[u16]) -> usize {
    let first = mixed(mixed(sum, path.value), path.count);
    buffer
        .iter()
        .fold(first, |sum, r| mixed(sum, usize::from(*r)))
}

impl Case<'_> {
    fn write_path(
        self,
        out: &mut impl Write,
        answer: Result<Tally, Refusal>,
        path: &[u16],
    ) -> io::Result<()> {
        lines::answer(out, self.number, answer)?;
        lines::buffer(out, path)
    }

    fn write_line(
        self,
        out: &mut impl Write,
        answer: Result<Tally, Refusal>,
        path: &[u16],
    ) -> io::Result<()> {
        self.write_path(out, answer, path)?;
        writeln!(out)
    }

    pub(crate) fn first(mut self, out: &mut impl Write, flow: i64) -> io::Result<()> {
        let mut path = [0u16; ROOM];
        let path = self.lent.lend(&mut path);
        let answer = flows::first(self.sheet, flow, path);
        self.write_line(out, answer, path)
    }

    pub(crate) fn next(mut self, out: &mut impl Write, flow: i64) -> io::Result<()> {
        let mut path = [0u16; ROOM];
        let path = self.lent.lend(&mut path);
        let answer = flows::next(self.sheet, flow, path);
        self.write_line(out, answer, path)
    }

    // A list of calls on one buffer: first, then so many nexts; a line for each.
    pub(crate) fn list(mut self, out: &mut impl Write, flow: i64, nexts: usize) -> io::Result<()> {
        let mut path = [0u16; ROOM];
        let path = self.lent.lend(&mut path);
        let answer = flows::first(self.sheet, flow, path);
        self.write_line(out, answer, path)?;
        for _ in 0..nexts {
            let answer = flows::next(self.sheet, flow, path);
            self.write_line(out, answer, path)?;
        }
        Ok(())
    }

    // First, then next until refused: one line, the last answer and buffer, how many paths were listed, and a checksum of them.
    pub(crate) fn all(mut self, out: &mut impl Write, flow: i64) -> io::Result<()> {
        let mut path = [0u16; ROOM];
        let path = self.lent.lend(&mut path);
        let mut answer = flows::first(self.sheet, flow, path);
        let mut sum = 0;
        let mut n = 0;
        for i in 0..100_000 {
            let Ok(listed) = answer else {
                break;
            };
            sum = mixed_path(sum, listed, path);
            answer = flows::next(self.sheet, flow, path);
            n = i + 1;
        }
        self.write_path(out, answer, path)?;
        writeln!(out, "\t{n}\t{sum}")
    }

    pub(crate) fn walk(mut self, out: &mut impl Write, flow: i64) -> io::Result<()> {
        let mut room = Room::new();
        let mut states = [0i64; 800];
        let mut instances = [0i64; 40];
        let mut wanted = [0i64; 300];
        let mut path = [0u16; ROOM];
        let Facts {
            values,
            given,
            lists,
            lengths,
        } = room.lend(&mut self.lent);
        let states = self.lent.lend(&mut states);
        let instances = self.lent.lend(&mut instances);
        let wanted = self.lent.lend(&mut wanted);
        let path = self.lent.lend(&mut path);
        let answer = flows::run(
            self.sheet, values, given, lists, lengths, states, instances, flow, wanted, path,
        );
        lines::answer(out, self.number, answer)?;
        lines::buffer(out, values)?;
        lines::buffer(out, given)?;
        lines::buffer(out, states)?;
        lines::buffer(out, path)?;
        writeln!(out)
    }
}
