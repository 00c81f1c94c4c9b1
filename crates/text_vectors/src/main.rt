// Runs the reader and the writer of texts over the cases of the file stdin. Writes a line for each: the case's number, the answer, and the
// whole buffer of which a part was lent. A buffer has a guard in every place: past the result, and past the part that is lent, it must
// still be there.
#![tactic(auto)]

use answer::Refusal;
use script::buffers::Cursor;
use script::lines;
use signed::num;
use standard::Output;
use std::io;
use std::io::Write;

const GUARD_WORD: i64 = 77;

const GUARD_BYTE: u8 = b'#';

// The first `room` words are lent. No case asks for more room than there is: its answer would be wrong.
fn read_into(text: &[u8], words: &mut [i64], room: usize) -> Result<usize, Refusal> {
    text::read(text, words.get_mut(..room).ok_or(Refusal::Header)?)
}

fn write_into(words: &[i64], text: &mut [u8], room: usize) -> Result<usize, Refusal> {
    text::write(words, text.get_mut(..room).ok_or(Refusal::Header)?)
}

fn read_case(
    out: &mut impl Write,
    cases: &mut Cursor<'_>,
    room: usize,
    case: usize,
) -> io::Result<()> {
    let mut text = [0u8; 128];
    let mut words = [GUARD_WORD; 24];
    let text = cases.lend(&mut text);
    lines::answer(out, case, read_into(text, &mut words, room))?;
    lines::buffer(out, &words)?;
    writeln!(out)
}

// The text has lines of its own, so it stands below.
fn write_case(
    out: &mut impl Write,
    cases: &mut Cursor<'_>,
    room: usize,
    case: usize,
) -> io::Result<()> {
    let mut words = [0i64; 24];
    let mut text = [GUARD_BYTE; 96];
    let words = cases.lend(&mut words);
    lines::answer(out, case, write_into(words, &mut text, room))?;
    writeln!(out)?;
    out.write_all(&text)?;
    writeln!(out)
}

// A case: 0 to read a text, any other number to write words; how many places of the buffer are lent; and a buffer.
fn run_all(out: &mut impl Write, mut cases: Cursor<'_>) -> io::Result<()> {
    for case in 0..4096 {
        if cases.is_over() {
            break;
        }
        let call = cases.number();
        let room = num(cases.number());
        match call {
            0 => read_case(out, &mut cases, room, case)?,
            _ => write_case(out, &mut cases, room, case)?,
        }
    }
    Ok(())
}

fn main() {
    let mut text = [0u8; 65_536];
    let n = standard::read(&mut text);
    let mut tape = [0i64; 8192];
    let end = script::read(&text[..n], &mut tape);
    let _ = run_all(&mut Output, Cursor::new(&tape, end));
}
