// Standard input and output of the programs, by the kit's `io`: of the C library it asks for `read` and `write` alone, and no memory.
#![tactic(auto)]

ghost use Rattle.std.specs.Prelude.{◌≤◌, length};

use std::io::{Error, ErrorKind, Result, Write};

// Reads until the buffer is full, the input ends or a read fails; answers how many bytes were read.
pub fn read(bytes: &mut [u8]) -> usize
    ensures { result ≤ length bytes.new }
{
    io::read_full(0, bytes)
}

// Says something on standard error.
pub fn say(line: &[u8]) {
    io::write_all(2, line);
}

// Standard output.
#[derive(Clone, Copy)]
pub struct Output;

impl Write for Output {
    fn write(&mut self, bytes: &[u8]) -> Result<usize> {
        if io::write_all(1, bytes) {
            Ok(bytes.len())
        } else {
            Err(Error::from(ErrorKind::WriteZero))
        }
    }

    fn flush(&mut self) -> Result<()> {
        Ok(())
    }
}
