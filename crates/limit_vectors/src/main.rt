// Texts at the limits of the program `paths`, each a buffer of bytes in the script in the file stdin. Writes a line for each: the case's
// number and how many words its sheet has, or the refused line as the program has it.
#![tactic(auto)]

ghost use Rattle.std.specs.Prelude.{◌<◌};
ghost use Rattle.answer.specs.Number.{place};

use answer::Refusal;
use script::buffers::Cursor;
use standard::Output;
use std::io;
use std::io::Write;

fn refused(out: &mut impl Write, case: usize, r: Refusal) -> io::Result<()>
    requires { place r < 100000 }
{
    let mut line = [0u8; 32];
    let n = path_lines::refusal(r, &mut line);
    write!(out, "{case}\t")?;
    out.write_all(&line[..n])
}

fn enter(out: &mut impl Write, cases: &mut Cursor<'_>, case: usize) -> io::Result<()> {
    let mut text = [0u8; 65_536];
    let mut words = [0i64; 8000];
    let text = cases.lend(&mut text);
    match path_lines::open_text(text, &mut words) {
        Ok((_, n)) => writeln!(out, "{case}\t{n}"),
        Err(r) => refused(out, case, r),
    }
}

fn run_all(out: &mut impl Write, mut cases: Cursor<'_>) -> io::Result<()> {
    for case in 0..4096 {
        if cases.is_over() {
            break;
        }
        enter(out, &mut cases, case)?;
    }
    Ok(())
}

fn main() {
    let mut text = [0u8; 65_536];
    let n = standard::read(&mut text);
    let mut tape = [0i64; 8192];
    let end = script::read(&text[..n], &mut tape);
    let _ = run_all(&mut Output, Cursor::new(&tape, end));
}
