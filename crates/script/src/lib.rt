// A script for the programs that run cases: numbers from text, decimals parted by any other byte, onto a tape. `<` and `>` stand for the
// least and the greatest word, `#` starts a comment. `buffers` takes the cases from the tape, `lines` writes what came of them.
#![tactic(auto)]

ghost use Rattle.std.specs.Prelude.{◌≤◌, length};

pub mod buffers;
pub mod lines;

// What has been read of the comment, or of the number, at hand.
#[derive(Clone, Copy)]
enum Part {
    Comment,
    Number { minus: bool, digits: Option<u64> },
}

fn digit(b: u8) -> Option<u8> {
    match b {
        b'0'..=b'9' => Some(b - b'0'),
        _ => None,
    }
}

// A value with one more digit; a value that is long already stays.
fn grown(value: u64, d: u8) -> u64 {
    if value < 1_000_000_000_000 {
        10 * value + u64::from(d)
    } else {
        value
    }
}

impl Part {
    // What is at hand past a byte.
    fn then(self, b: u8) -> Part {
        match (self, digit(b)) {
            (Part::Comment, _) if b != b'\n' => Part::Comment,
            (Part::Number { minus, digits }, Some(d)) => Part::Number {
                minus,
                digits: Some(grown(digits.unwrap_or(0), d)),
            },
            _ if b == b'#' => Part::Comment,
            _ => Part::Number {
                minus: b == b'-',
                digits: None,
            },
        }
    }

    // The number that ends where a byte stands, if one does.
    fn ended(self, b: u8) -> Option<i64> {
        let Part::Number { minus, digits } = self else {
            return None;
        };
        match b {
            b'0'..=b'9' => None,
            b'<' => Some(i64::MIN),
            b'>' => Some(i64::MAX),
            _ if minus => digits.map(|value| 0i64.saturating_sub_unsigned(value)),
            _ => digits.map(|value| 0i64.saturating_add_unsigned(value)),
        }
    }
}

// Puts the numbers of a text onto the tape, as many as it has room for, and answers how many there are.
pub fn read(text: &[u8], tape: &mut [i64]) -> usize
    ensures { result ≤ length tape.new }
{
    let mut part = Part::Number {
        minus: false,
        digits: None,
    };
    let mut k = 0;
    for b in text {
        if let Some(w) = part.ended(*b) {
            if k < tape.len() {
                tape[k] = w;
                k += 1;
            }
        }
        part = part.then(*b);
    }
    k
}
