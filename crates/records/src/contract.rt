// A sheet that is accepted.
ghost use Rattle.records.specs.Accepted.{Accepted};

use layout::Sheet;

// A contract: a sheet to which 1, 2 and 3 do not apply.
#[derive(Clone, Copy)]
pub struct Contract<'a> {
    pub sheet: Sheet<'a>,
    pub ghost accepted: { Accepted sheet.words.now sheet.header },
}
