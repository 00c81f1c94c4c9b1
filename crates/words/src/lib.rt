// The words of a sheet, record by record.
#![tactic(auto)]

ghost use Rattle.std.specs.Prelude.{◌≡◌, ◌+◌, ◌*◌, ◌≤◌, ◌<◌, pos, length, get_or};
ghost use Rattle.signed.specs.Words.{num};
ghost use Rattle.words.specs.Record.{word, number, record_at, words_at, numbers_of, unused};

use signed::num;

// A record's eight words: as they stand, since facts and nodes have words that may be negative, or as natural numbers.
#[derive(Clone, Copy)]
pub struct Record<T> {
    pub w0: T,
    pub w1: T,
    pub w2: T,
    pub w3: T,
    pub w4: T,
    pub w5: T,
    pub w6: T,
    pub w7: T,
}

impl Record<i64> {
    // The words as natural numbers.
    #[tactic(auto, unfolding(crate::specs::Record::numbers_of))]
    pub fn numbers(self) -> Record<usize>
        ensures { result ≡ numbers_of self }
    {
        Record {
            w0: num(self.w0),
            w1: num(self.w1),
            w2: num(self.w2),
            w3: num(self.w3),
            w4: num(self.w4),
            w5: num(self.w5),
            w6: num(self.w6),
            w7: num(self.w7),
        }
    }
}

impl Record<usize> {
    // Whether the words from number `from` on are 0.
    #[tactic(auto, unfolding(crate::specs::Record::unused))]
    pub fn unused(self, from: usize) -> bool
        ensures { result ≡ unused from self }
    {
        ((0 < from) | (self.w0 == 0))
            & ((1 < from) | (self.w1 == 0))
            & ((2 < from) | (self.w2 == 0))
            & ((3 < from) | (self.w3 == 0))
            & ((4 < from) | (self.w4 == 0))
            & ((5 < from) | (self.w5 == 0))
            & ((6 < from) | (self.w6 == 0))
            & ((7 < from) | (self.w7 == 0))
    }
}

// The word at a place of the sheet, as a natural number.
pub fn number_at(s: &[i64], i: usize) -> usize
    requires { i < length s.now }
    ensures { result ≡ num (get_or s.now i (pos 0)) }
{
    num(s[i])
}

#[tactic(auto, unfolding(crate::specs::Record::numbers_of, crate::specs::Record::record_at, crate::specs::Record::words_at))]
pub fn record_at(s: &[i64], k: usize) -> Record<usize>
    requires { 16 + 8 * k + 8 ≤ length s.now }
    ensures { result ≡ record_at s.now k }
{
    words_at(s, k).numbers()
}

pub fn word(s: &[i64], k: usize, j: usize) -> i64
    requires { (j < 8) × (16 + 8 * k + 8 ≤ length s.now) }
    ensures { result ≡ word s.now k j }
{
    s[16 + 8 * k + j]
}

pub fn number(s: &[i64], k: usize, j: usize) -> usize
    requires { (j < 8) × (16 + 8 * k + 8 ≤ length s.now) }
    ensures { result ≡ number s.now k j }
{
    number_at(s, 16 + 8 * k + j)
}

#[tactic(auto, unfolding(crate::specs::Record::words_at))]
pub fn words_at(s: &[i64], k: usize) -> Record<i64>
    requires { 16 + 8 * k + 8 ≤ length s.now }
    ensures { result ≡ words_at s.now k }
{
    Record {
        w0: word(s, k, 0),
        w1: word(s, k, 1),
        w2: word(s, k, 2),
        w3: word(s, k, 3),
        w4: word(s, k, 4),
        w5: word(s, k, 5),
        w6: word(s, k, 6),
        w7: word(s, k, 7),
    }
}
