// The numbers and the buffers of a script, one after the other. A buffer: its length, then its entries; or -1, its length, and the one
// number that it is full of.
ghost use Rattle.std.specs.Prelude.{◌≤◌, length};

use signed::num;
use tables::entry;

// What a buffer has for an entry: a word, or a number of a smaller type.
pub trait Entry {
    // The entry that a word stands for; the greatest where the word does not fit.
    fn of(word: i64) -> Self;
}

impl Entry for i64 {
    fn of(word: i64) -> i64 {
        word
    }
}

impl Entry for u16 {
    fn of(word: i64) -> u16 {
        u16::try_from(word).unwrap_or(u16::MAX)
    }
}

impl Entry for u8 {
    fn of(word: i64) -> u8 {
        u8::try_from(word).unwrap_or(u8::MAX)
    }
}

// The numbers of a script, and the place of the next one. Those before `end` are the script's; past the tape each is 0.
#[derive(Clone, Copy)]
pub struct Cursor<'a> {
    tape: &'a [i64],
    end: usize,
    at: usize,
}

impl<'a> Cursor<'a> {
    pub fn new(tape: &'a [i64], end: usize) -> Cursor<'a> {
        Cursor { tape, end, at: 0 }
    }

    pub fn is_over(&self) -> bool {
        self.end <= self.at
    }

    // The next number, which stays the next.
    pub fn peek(&self) -> i64 {
        entry(self.tape, self.at, 0)
    }

    // Takes the next number.
    pub fn number(&mut self) -> i64 {
        let w = self.peek();
        self.pass(1);
        w
    }

    fn pass(&mut self, n: usize) {
        self.at = self.at.saturating_add(n);
    }

    // Takes the head of the next buffer: how many entries it has, and whether it is full of the one number that comes next.
    fn head(&mut self) -> (usize, bool) {
        match self.number() {
            -1 => (num(self.number()), true),
            n => (num(n), false),
        }
    }

    // Takes the next buffer, and puts its entries to the start of `out`, as many as it has room for; answers those.
    pub fn lend<'b, T: Entry + Copy>(&mut self, out: &'b mut [T]) -> &'b mut [T]
        ensures { length result.now ≤ length out.old }
    {
        let (size, full) = self.head();
        let n = size.min(out.len());
        let lent = &mut out[..n];
        for (i, x) in lent.iter_mut().enumerate() {
            let k = if full { 0 } else { i };
            *x = T::of(entry(self.tape, self.at.saturating_add(k), 0));
        }
        self.pass(if full { 1 } else { size });
        lent
    }

    // Takes the next n buffers.
    pub fn pass_buffers(&mut self, n: usize) {
        for _ in 0..n {
            let (size, full) = self.head();
            self.pass(if full { 1 } else { size });
        }
    }

    // The entries of the next buffer, one by one on the tape, if the tape has them all.
    pub fn words(mut self) -> Option<&'a [i64]> {
        let from = self.at.saturating_add(1);
        let (size, _) = self.head();
        self.tape.get(from..from.saturating_add(size))
    }
}
