// A sheet under its header.
ghost use Rattle.layout.specs.Sized.{Sized};

use crate::Header;

// The words of a sheet whose header is good, and the counts that they begin with.
#[derive(Clone, Copy)]
pub struct Sheet<'a> {
    pub words: &'a [i64],
    pub header: Header,
    pub ghost sized: { Sized words.now header },
}
