// What the program writes for a sheet's text: a refused line, or the lines of its flows' paths. These can be hundreds of megabytes, so that
// they are written chunk by chunk into a lent buffer.
#![tactic(auto)]

ghost use Rattle.std.specs.Prelude.{◌≡◌, ◌∷◌, ◌+◌, ◌≤◌, ◌<◌, length, take};
ghost use Rattle.std.proofs.lemmas.List.Edits.{sets};
ghost use Rattle.answer.specs.Number.{place};
ghost use Rattle.ladder.specs.Ladder.{opened};
ghost use Rattle.path_lines.specs.Output.{numbers_line, sheet_lines, refused_line, sheet_entrance, entrance, words_left, some_cut, notice_of};
ghost use Rattle.path_lines.specs.Steps.{ending_of, number_field, refused_field};
ghost use Rattle.path_lines.specs.Chunks.{remaining, Ready, Stands, Starts, Follows, Chunk};

use answer::{Refusal, Tally, signed};
use layout::{Flow, Header};
use records::Contract;

// 01: "a sheet's text of at most 16,000 bytes".
const LONGEST_TEXT: usize = 16_000;

// 01: "each flow's first 10,000 paths".
const MOST: usize = 10_000;

// A flow below 32, a terminal of at most 2 and 256 routes below 1,024, each with its ending.
const LONGEST_LINE: usize = 1_285;

// The path that is written next, by its flow and number; it stands in the path buffer. Past the last flow, nothing is left to write.
#[derive(Clone, Copy)]
pub struct Cursor {
    pub flow: usize,
    pub number: usize,
    pub terminal: usize,
    pub length: usize,
    // Whether the list of a flow before this one was cut.
    pub cut: bool,
}

// What there is to say on standard error.
#[derive(Clone, Copy)]
pub enum Notice {
    Nothing,
    Refused,
    Cut,
    Unwritten,
}

// How many bytes of a chunk were written, and where to go on.
#[derive(Clone, Copy)]
pub struct Filled {
    pub written: usize,
    pub cursor: Cursor,
}

// Numbers are parted by a tab, and the last one of a line is ended by LF.
fn ending(last: bool) -> u8
    ensures { result ≡ ending_of last }
{
    if last { b'\n' } else { b'\t' }
}

// A number with its ending. The answer is the place after it.
fn put_number(out: &mut [u8], at: usize, n: usize, last: bool) -> usize
    requires { (n ≤ 1000000000) × (at + length (number_field n last) ≤ length out.old) }
    ensures { (result ≡ at + length (number_field n last)) × (out.new ≡ sets out.old at (number_field n last)) }
{
    decimal::put_field(out, at, signed(n), ending(last))
}

// The first n routes of a path buffer, which end a line. The answer is the place after them.
fn put_routes(path: &[u16], n: usize, out: &mut [u8], from: usize) -> usize
    requires { (n ≤ length path.now) × (from + length (numbers_line (take n path.now)) ≤ length out.old) }
    ensures { (result ≡ from + length (numbers_line (take n path.now))) × (out.new ≡ sets out.old from (numbers_line (take n path.now))) }
{
    let mut at = from;
    for i in 0..n {
        at = put_number(out, at, path[i] as usize, i + 1 == n);
    }
    at
}

// 01: "flow, terminal, routes, by tabs, one line each". The answer is the place after the line.
fn put_line(
    flow: usize,
    terminal: usize,
    path: &[u16],
    n: usize,
    out: &mut [u8],
    from: usize,
) -> usize
    requires flow_bound { (flow ≤ 1000000000) × (terminal ≤ 1000000000) × (1 ≤ n) × (n ≤ length path.now) }
    requires path_in_bounds { from + length (numbers_line (flow ∷ terminal ∷ take n path.now)) ≤ length out.old }
    ensures { (result ≡ from + length (numbers_line (flow ∷ terminal ∷ take n path.now))) × (out.new ≡ sets out.old from (numbers_line (flow ∷ terminal ∷ take n path.now))) }
{
    let second = put_number(out, from, flow, false);
    let third = put_number(out, second, terminal, false);
    put_routes(path, n, out, third)
}

// The word "refused" with its tab.
fn put_refused(out: &mut [u8])
    requires { 8 ≤ length out.old }
    ensures { out.new ≡ sets out.old 0 refused_field }
{
    out[..8].copy_from_slice(b"refused\t");
}

// 01: "On refusal one line by tabs: "refused", number, place". The answer is its length.
pub fn refusal(r: Refusal, out: &mut [u8]) -> usize
    requires { (place r ≤ 1000000000) × (length (refused_line r) ≤ length out.old) }
    ensures { (result ≡ length (refused_line r)) × (out.new ≡ sets out.old 0 (refused_line r)) }
{
    let number = r.number();
    let place = r.place();
    put_refused(out);
    let at = put_number(out, 8, number, false);
    put_number(out, at, place, true)
}

// The n words of a text, checked as a sheet.
#[tactic(auto, unfolding(ladder::specs::Ladder::by))]
fn judge_words(words: &[i64], n: usize) -> Result<(Header, usize), Refusal>
    ensures { result ≡ sheet_entrance n (opened words.now) }
{
    let k = ladder::open_sheet(words)?;
    Ok((k.sheet.header, n))
}

// Reads a text into `words` and checks it, once for all its paths.
pub fn open_text(text: &[u8], words: &mut [i64]) -> Result<(Header, usize), Refusal>
    requires { 8000 ≤ length words.old }
    ensures { (result ≡ entrance text.now) × (words.new ≡ words_left text.now words.old) }
{
    if LONGEST_TEXT < text.len() {
        return Err(Refusal::NoRoom);
    }
    let n = text::read(text, words)?;
    judge_words(&words[..n], n)
}

// At the first path of a flow, or past the last flow.
fn enter(s: &Contract, flow: usize, path: &mut [u16], cut: bool) -> Cursor
    requires ready { Ready s.now.sheet.words.now s.now.sheet.header path.old }
    requires flow_le_flows { (flow ≤ s.now.sheet.header.flows) × (cut ≡ some_cut s.now.sheet.words.now s.now.sheet.header flow) }
    ensures { Starts s.now.sheet.words.now s.now.sheet.header flow path.old result path.new }
{
    if s.sheet.header.flows <= flow {
        return Cursor {
            flow,
            number: 0,
            terminal: 0,
            length: 0,
            cut,
        };
    }
    match listing::first(s, Flow(flow), path) {
        Ok(
            Tally {
                value: terminal,
                count: length,
            },
        ) => Cursor {
            flow,
            number: 0,
            terminal,
            length,
            cut,
        },
        Err(_) => Cursor {
            flow,
            number: 0,
            terminal: 0,
            length: 0,
            cut,
        },
    }
}

// At the first path of the sheet: all its lines remain.
pub fn start(s: &Contract, path: &mut [u16]) -> Cursor
    requires { Ready s.now.sheet.words.now s.now.sheet.header path.old }
    ensures { Starts s.now.sheet.words.now s.now.sheet.header 0 path.old result path.new × (remaining s.now.sheet.words.now s.now.sheet.header result ≡ sheet_lines s.now.sheet.words.now s.now.sheet.header) }
{
    enter(s, 0, path, false)
}

// At the path that follows in the flow, or at the next flow's first one. A path that follows the last that is written is one too many.
fn advance(s: &Contract, cursor: Cursor, path: &mut [u16]) -> Cursor
    requires stands { Stands s.now.sheet.words.now s.now.sheet.header cursor path.old }
    requires flow_lt_flows { cursor.flow < s.now.sheet.header.flows }
    ensures { Follows s.now.sheet.words.now s.now.sheet.header cursor result path.new }
{
    let flow = cursor.flow;
    let number = cursor.number + 1;
    let cut = cursor.cut;
    match listing::next(s, Flow(flow), path) {
        Ok(
            Tally {
                value: terminal,
                count: length,
            },
        ) => {
            if MOST <= number {
                return enter(s, flow + 1, path, true);
            }
            Cursor {
                flow,
                number,
                terminal,
                length,
                cut,
            }
        }
        Err(_) => enter(s, flow + 1, path, cut),
    }
}

// Writes whole lines while the longest one would fit.
pub fn fill(s: &Contract, cursor: Cursor, path: &mut [u16], out: &mut [u8]) -> Filled
    requires { Stands s.now.sheet.words.now s.now.sheet.header cursor path.old }
    ensures { Stands s.now.sheet.words.now s.now.sheet.header result.cursor path.new × Chunk s.now.sheet.words.now s.now.sheet.header cursor out.old result.cursor result.written out.new }
{
    let mut c = cursor;
    let mut n = 0;
    while c.flow < s.sheet.header.flows {
        if out.len() - n < LONGEST_LINE {
            return Filled {
                written: n,
                cursor: c,
            };
        }
        n = put_line(c.flow, c.terminal, path, c.length, out, n);
        c = advance(s, c, path);
    }
    Filled {
        written: n,
        cursor: c,
    }
}

// What there is to say when the lines have been written, by whether a flow's list was cut.
pub fn notice_of(cut: bool) -> Notice
    ensures { result ≡ notice_of cut }
{
    if cut { Notice::Cut } else { Notice::Nothing }
}
