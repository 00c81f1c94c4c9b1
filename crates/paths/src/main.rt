// Reads a sheet's text and writes each flow's first 10,000 paths, or a refused line: what is written for a text is path_lines' `output`.
// Where a text is refused, a list is cut or standard output fails, it says so in a line on standard error: path_lines' `said`.
#![tactic(auto)]

ghost use Rattle.std.specs.Prelude.{◌<◌, ◌≡◌, ◌⊎◌, IfOk, OnOk};
ghost use Rattle.std.specs.Io.KnownBytes.{Appends};
ghost use Rattle.answer.specs.Number.{place};
ghost use Rattle.records.specs.Accepted.{Accepted};
ghost use Rattle.path_lines.specs.Output.{sheet_lines, sheet_notice, refused_line, output, said};
ghost use Rattle.path_lines.specs.declared.Notice.TheVariants.{Refused, Unwritten};

use answer::Refusal;
use layout::{Header, Sheet};
use path_lines::Notice;
use records::Contract;
use standard::{Output, say};
use std::io;
use std::io::Write;

// The lines of all paths, chunk by chunk.
fn write_paths<W: Write>(s: &Contract, out: &mut W) -> io::Result<Notice>
    ensures notice { IfOk result (λ n. n ≡ sheet_notice s.now.sheet.words.now s.now.sheet.header) }
    ensures bytes { OnOk result (Appends (W.contents out.old) (W.contents out.new) (sheet_lines s.now.sheet.words.now s.now.sheet.header)) }
{
    let mut path = [0u16; Header::STEPS];
    let mut chunk = [0u8; 65_536];
    let mut c = path_lines::start(s, &mut path);
    while c.flow < s.sheet.header.flows {
        let f = path_lines::fill(s, c, &mut path, &mut chunk);
        out.write_all(&chunk[..f.written])?;
        c = f.cursor;
    }
    Ok(path_lines::notice_of(c.cut))
}

fn write_refused<W: Write>(r: Refusal, out: &mut W) -> io::Result<Notice>
    requires { place r < 100000 }
    ensures notice { IfOk result (λ n. n ≡ Refused) }
    ensures bytes { OnOk result (Appends (W.contents out.old) (W.contents out.new) (refused_line r)) }
{
    let mut line = [0u8; 32];
    let n = path_lines::refusal(r, &mut line);
    out.write_all(&line[..n])?;
    Ok(Notice::Refused)
}

// All that is written for a text, and what is said of it.
fn write_output<W: Write>(text: &[u8], out: &mut W) -> io::Result<Notice>
    ensures notice { IfOk result (λ n. n ≡ said text.now) }
    ensures bytes { OnOk result (Appends (W.contents out.old) (W.contents out.new) (output text.now)) }
{
    let mut words = [0i64; 8000];
    match path_lines::open_text(text, &mut words) {
        Ok((header, n)) => {
            let words = &words[..n];
            let sheet = Sheet { words, header };
            write_paths(&Contract { sheet }, out)
        }
        Err(r) => write_refused(r, out),
    }
}

// What is said of a text: that its output could not be written, or else, its output having been written, what there is to say of it.
fn answer<W: Write>(text: &[u8], out: &mut W) -> Notice
    ensures { (result ≡ said text.now) × Appends (W.contents out.old) (W.contents out.new) (output text.now) ⊎ (result ≡ Unwritten) }
{
    write_output(text, out).unwrap_or(Notice::Unwritten)
}

fn tell(n: Notice) {
    match n {
        Notice::Nothing => {}
        Notice::Refused => say(b"paths: the text was refused: see the number and place\n"),
        Notice::Cut => say(b"paths: a flow has more than 10,000 paths: the rest were left out\n"),
        Notice::Unwritten => say(b"paths: standard output could not be written\n"),
    }
}

// The buffer is longer than the longest text, so that a text that is too long is seen to be so.
fn main() {
    let mut text = [0u8; 65_536];
    let n = standard::read(&mut text);
    tell(answer(&text[..n], &mut Output));
}
