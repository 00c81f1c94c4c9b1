// The buffers that lend facts: values, flags, lists and lengths.
use script::buffers::Cursor;

// Room for the longest that a case lends.
#[derive(Drop)]
pub struct Room {
    values: [i64; 160],
    given: [i64; 160],
    lists: [i64; 400],
    lengths: [i64; 160],
}

#[derive(Drop)]
pub struct Facts<'a> {
    pub values: &'a mut [i64],
    pub given: &'a [i64],
    pub lists: &'a [i64],
    pub lengths: &'a [i64],
}

impl Room {
    pub fn new() -> Room {
        Room {
            values: [0; 160],
            given: [0; 160],
            lists: [0; 400],
            lengths: [0; 160],
        }
    }

    // Takes the four buffers that come next.
    pub fn lend(&mut self, lent: &mut Cursor<'_>) -> Facts<'_> {
        let Room {
            values,
            given,
            lists,
            lengths,
        } = self;
        Facts {
            values: lent.lend(values),
            given: lent.lend(given),
            lists: lent.lend(lists),
            lengths: lent.lend(lengths),
        }
    }
}
