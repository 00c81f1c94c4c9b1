// The sheets that the cases start from, and changes to them.
use crate::largest;
use script::buffers::Cursor;
use signed::num;

// How many words the longest sheet of a case has.
pub const WORDS: usize = 30_232;

// How many words the tape's two sheets have, one after the other; the cases follow them.
pub const FIRST: usize = 152;

pub const SECOND: usize = 1168;

pub const CASES: usize = FIRST + SECOND;

// The tape's two sheets.
#[derive(Clone, Copy)]
pub struct Sheets<'a> {
    pub first: &'a [i64],
    pub second: &'a [i64],
}

impl<'a> Sheets<'a> {
    pub fn new(tape: &'a [i64; 16384]) -> Sheets<'a> {
        Sheets {
            first: &tape[..FIRST],
            second: &tape[FIRST..CASES],
        }
    }
}

// What a case starts from.
#[derive(Clone, Copy)]
pub enum Base {
    NoWords,
    HeaderAlone,
    First,
    Second,
    Largest,
}

impl From<i64> for Base {
    fn from(code: i64) -> Base {
        match code {
            1 => Base::HeaderAlone,
            2 => Base::First,
            3 => Base::Second,
            4 => Base::Largest,
            _ => Base::NoWords,
        }
    }
}

impl Base {
    pub fn lay(self, sheets: Sheets<'_>, out: &mut [i64; WORDS]) {
        match self {
            Base::NoWords => {}
            Base::HeaderAlone => out[0] = 1,
            Base::First => copy(sheets.first, out),
            Base::Second => copy(sheets.second, out),
            Base::Largest => largest::lay(out),
        }
    }

    pub fn size(self) -> usize {
        match self {
            Base::NoWords => 0,
            Base::HeaderAlone => 16,
            Base::First => FIRST,
            Base::Second => SECOND,
            Base::Largest => largest::SIZE,
        }
    }
}

// Puts words to the start of a sheet, as many as it has room for.
pub fn copy(words: &[i64], out: &mut [i64]) {
    for (x, w) in out.iter_mut().zip(words) {
        *x = *w;
    }
}

// Where a record's word stands; of no record, where the header's does.
fn place(record: usize, word: usize) -> usize {
    if record < 3777 && word < 8 {
        16 + 8 * record + word
    } else {
        word
    }
}

// The change that is next: record, word, value.
pub fn change(cases: &mut Cursor<'_>, out: &mut [i64]) {
    let record = num(cases.number());
    let word = num(cases.number());
    let value = cases.number();
    if let Some(x) = out.get_mut(place(record, word)) {
        *x = value;
    }
}
