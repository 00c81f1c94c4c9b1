// One word of a sheet's text: its decimal is read and written, with the byte that ends it.
#![tactic(auto)]

ghost use Rattle.std.specs.Prelude.{◌≡◌, true, ◌++◌, ◌∷◌, [], ◌+◌, ◌<◌, ◌≤◌, nat_abs, length, drop};
ghost use Rattle.std.proofs.lemmas.List.Edits.{sets};
ghost use Rattle.decimal.specs.Decimal.{M, digits, sign, decimal, has_text};
ghost use Rattle.decimal.specs.Scan.{goes_on, run_at, bounded_run, number_at, positive_word, negative_word, word_at, field_at, Small};
ghost use Rattle.decimal.specs.Width.{reached};

// 01's M, the largest magnitude that has a text.
const LARGEST: usize = 1_000_000_000;

// Digits that follow each other: the number they say, and the place after them.
#[derive(Clone, Copy)]
pub struct Run {
    pub magnitude: usize,
    pub next: usize,
}

// A word, and the place after it.
#[derive(Clone, Copy)]
pub struct Field {
    pub value: i64,
    pub next: usize,
}

// Past M a number is bad whatever follows, so that no further digit is read.
fn goes_on(magnitude: usize, b: u8) -> bool
    ensures { result ≡ goes_on magnitude b }
{
    b.is_ascii_digit() & (magnitude <= LARGEST)
}

// The digits from `at` on, as one number.
#[tactic(auto, using(crate::proofs::Steps::run_steps))]
fn run_at(text: &[u8], at: usize) -> Run
    ensures { result ≡ run_at 0 at (drop at text.now) }
{
    let mut magnitude = 0;
    for next in at..text.len() {
        let b = text[next];
        if !goes_on(magnitude, b) {
            return Run { magnitude, next };
        }
        magnitude = magnitude * 10 + usize::from(b - b'0');
    }
    Run {
        magnitude,
        next: at.max(text.len()),
    }
}

// A number is at most M. A run that starts with no zero is 0 only where it has no digit.
#[tactic(auto, unfolding(crate::specs::Scan::bounded_run))]
fn bounded(run: Run) -> Option<Run>
    ensures { result ≡ bounded_run run }
{
    if (run.magnitude == 0) | (LARGEST < run.magnitude) {
        return None;
    }
    Some(run)
}

// A zero is a number by itself. A digit after it is no end of a field, so that a leading zero is refused.
#[tactic(auto, using(crate::proofs::Steps::number_steps))]
fn number_at(text: &[u8], at: usize) -> Option<Run>
    ensures { result ≡ number_at at (drop at text.now) }
{
    let first = *text.get(at)?;
    if first == b'0' {
        return Some(Run {
            magnitude: 0,
            next: at + 1,
        });
    }
    bounded(run_at(text, at))
}

#[tactic(auto, unfolding(crate::specs::Scan::positive_word))]
fn positive(n: Run) -> Field
    requires { Small (Some n) }
    ensures { Some result ≡ positive_word (Some n) }
{
    Field {
        value: n.magnitude as i64,
        next: n.next,
    }
}

// There is no "-0".
#[tactic(auto, unfolding(crate::specs::Scan::negative_word))]
fn negative(n: Run) -> Option<Field>
    requires { Small (Some n) }
    ensures { result ≡ negative_word (Some n) }
{
    if n.magnitude == 0 {
        return None;
    }
    Some(Field {
        value: -(n.magnitude as i64),
        next: n.next,
    })
}

// A number, or a minus and a number.
#[tactic(auto, using(crate::proofs::Steps::word_steps), unfolding(crate::specs::Scan::positive_word, crate::specs::Scan::negative_word))]
fn word_at(text: &[u8], at: usize) -> Option<Field>
    ensures { result ≡ word_at at (drop at text.now) }
{
    let first = *text.get(at)?;
    if first == b'-' {
        negative(number_at(text, at + 1)?)
    } else {
        Some(positive(number_at(text, at)?))
    }
}

// A word with the byte that ends it.
#[tactic(auto, using(crate::proofs::Steps::field_steps), unfolding(crate::specs::Scan::field_at))]
pub fn field_at(text: &[u8], at: usize, end: u8) -> Option<Field>
    ensures { result ≡ field_at text.now at end }
{
    let word = word_at(text, at)?;
    let last = *text.get(word.next)?;
    if last != end {
        return None;
    }
    Some(Field {
        value: word.value,
        next: word.next + 1,
    })
}

// Whether a word is within −M..M.
#[tactic(auto, using(crate::proofs::Signed::bounds))]
pub fn has_text(w: i64) -> bool
    ensures { result ≡ has_text w }
{
    (-1_000_000_000 <= w) & (w <= 1_000_000_000)
}

// A word without its sign.
fn magnitude(w: i64) -> usize
    ensures { result ≡ nat_abs w }
{
    w.unsigned_abs() as usize
}

// 1 where a number has reached `least`, else 0.
fn reaches(m: usize, least: usize) -> usize
    ensures { (result ≡ reached m least) × (result ≤ 1) }
{
    usize::from(least <= m)
}

// How many digits a number has. Sums of comparisons take no branch, and no division.
#[tactic(auto, using(crate::proofs::Writing::width_sums))]
fn width(m: usize) -> usize
    requires { m ≤ M }
    ensures { result ≡ length (digits m) }
{
    if m < 1_000 {
        return 1 + reaches(m, 10) + reaches(m, 100);
    }
    if m < 1_000_000 {
        return 4 + reaches(m, 10_000) + reaches(m, 100_000);
    }
    7 + reaches(m, 10_000_000) + reaches(m, 100_000_000) + reaches(m, 1_000_000_000)
}

// How many bytes a word's decimal has.
#[tactic(auto, using(crate::proofs::Writing::size_parts, crate::proofs::Writing::sign_cases))]
pub fn size(w: i64) -> usize
    requires { has_text w ≡ true }
    ensures { result ≡ length (decimal w) }
{
    let n = width(magnitude(w));
    if w < 0 {
        return n + 1;
    }
    n
}

// The last `n` digits of `m`, the last one first: each is the remainder by ten.
#[tactic(auto, using(crate::proofs::Writing::last_steps))]
fn put_last(text: &mut [u8], at: usize, n: usize, m: usize)
    requires { (n ≡ length (digits m)) × (at + n ≤ length text.old) }
    ensures { text.new ≡ sets text.old at (digits m) }
{
    let mut left = m;
    for j in (0..n).rev() {
        text[at + j] = b'0' + (left % 10) as u8;
        left /= 10;
    }
}

// A number's digits. The answer is the place after them. Most of a sheet's numbers have one digit.
#[tactic(auto, using(crate::proofs::Digits::digits_one))]
fn put_digits(text: &mut [u8], at: usize, m: usize) -> usize
    requires { (m ≤ M) × (at + length (digits m) ≤ length text.old) }
    ensures { (result ≡ at + length (digits m)) × (text.new ≡ sets text.old at (digits m)) }
{
    if m < 10 {
        text[at] = b'0' + m as u8;
        return at + 1;
    }
    let n = width(m);
    put_last(text, at, n, m);
    at + n
}

// A word's minus, where it has one. The answer is the place after it.
#[tactic(auto, using(crate::proofs::Writing::sign_cases))]
fn put_sign(text: &mut [u8], at: usize, w: i64) -> usize
    requires { at + length (sign w) ≤ length text.old }
    ensures { (result ≡ at + length (sign w)) × (text.new ≡ sets text.old at (sign w)) }
{
    if w < 0 {
        text[at] = b'-';
        return at + 1;
    }
    at
}

// A word's decimal and the byte that ends it. The answer is the place after them.
#[tactic(auto, using(crate::proofs::Writing::size_parts, crate::proofs::Writing::put_all))]
pub fn put_field(text: &mut [u8], at: usize, w: i64, end: u8) -> usize
    requires { (has_text w ≡ true) × (at + length (decimal w) < length text.old) }
    ensures { (result ≡ at + length (decimal w) + 1) × (text.new ≡ sets text.old at (decimal w ++ (end ∷ []))) }
{
    let m = magnitude(w);
    let from = put_sign(text, at, w);
    let last = put_digits(text, from, m);
    text[last] = end;
    last + 1
}
