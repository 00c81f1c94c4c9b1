// A line for each call: the case's number, the four numbers of the answer, then each lent buffer, parted by tabs; a buffer's entries are
// parted by spaces.
use answer::{Figures, Refusal};
use std::io::Write;
use std::{fmt, io};

// A word as a buffer shows it: `<` stands for one below −M.
#[derive(Clone, Copy)]
struct Word(i64);

impl fmt::Display for Word {
    fn fmt<W: fmt::Write>(&self, f: &mut fmt::Formatter<W>) -> fmt::Result {
        let w = self.0;
        if w < -1_000_000_000 {
            write!(f, "<")
        } else {
            write!(f, "{w}")
        }
    }
}

// The case's number and the four numbers of its answer.
pub fn answer<T: Figures + Copy>(
    out: &mut impl Write,
    case: usize,
    answered: Result<T, Refusal>,
) -> io::Result<()> {
    let (refusal, place, (value, count)) = match answered {
        Ok(t) => (0, 0, t.figures()),
        Err(r) => (r.number(), r.place(), (0, 0)),
    };
    write!(out, "{case}\t{refusal}\t{place}\t{value}\t{count}")
}

// The entries of a buffer, past a tab.
pub fn buffer<T: Into<i64> + Copy>(out: &mut impl Write, entries: &[T]) -> io::Result<()> {
    let mut gap = "";
    write!(out, "\t")?;
    for x in entries {
        let word = Word((*x).into());
        write!(out, "{gap}{word}")?;
        gap = " ";
    }
    Ok(())
}
