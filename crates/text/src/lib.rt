// 01, "Text of a sheet": lines of eight words are read and written. One pass judges, a later one writes.
#![tactic(auto)]

ghost use Rattle.std.specs.Prelude.{◌≡◌, true, ◌≤◌, leb, length, take, drop};
ghost use Rattle.std.proofs.lemmas.List.Edits.{sets};
ghost use Rattle.text.specs.Lines.{all, good_row, rows_of, text_of, good_line, lines_of, words_of};
ghost use Rattle.text.specs.Calls.{before, judged, read_answer, read_buffer, write_answer, write_buffer};
ghost use Rattle.text.specs.Steps.{end_of, line_end};

use answer::Refusal;

// Words are parted by a tab, and the eighth of a line is ended by LF.
fn ending(i: usize) -> u8
    ensures { result ≡ end_of i }
{
    if i % 8 == 7 { b'\n' } else { b'\t' }
}

// The end of the line that starts at `at`: eight words, each with its ending.
#[tactic(auto, using(crate::proofs::LineSteps::line_steps))]
fn line_at(text: &[u8], at: usize) -> Option<usize>
    ensures { result ≡ line_end at (drop at text.now) }
{
    let mut next = at;
    for j in 0..8 {
        next = decimal::field_at(text, next, ending(j))?.next;
    }
    Some(next)
}

// The number of words in the text, or its first bad line.
#[tactic(auto, using(crate::proofs::ReadLoops::counting_steps))]
fn count_words(text: &[u8]) -> Result<usize, Refusal>
    ensures { result ≡ judged good_line (lines_of text.now) (length (words_of text.now)) }
{
    let mut at = 0;
    let mut k: usize = 0;
    // A line starts where the one before it ends, so that no range or iterator has the places: k counts the lines.
    while at < text.len() {
        at = line_at(text, at).ok_or(Refusal::Line(k))?;
        k += 1;
    }
    Ok(k * 8)
}

// The second pass of `read`: the text is good, so that every field is read again.
#[tactic(auto, using(crate::proofs::ReadLoops::storing_steps))]
fn store(text: &[u8], words: &mut [i64])
    requires { (all good_line (lines_of text.now) ≡ true) × (length words.old ≡ length (words_of text.now)) }
    ensures { words.new ≡ words_of text.now }
{
    let mut at = 0;
    for (i, word) in words.iter_mut().enumerate() {
        let field = decimal::field_at(text, at, ending(i)).unwrap();
        *word = field.value;
        at = field.next;
    }
}

// Reads the words of a text. The answer is how many there are. On refusal, and past the result, `words` stays as it was.
#[tactic(auto, using(crate::proofs::Calls::ends_refused), unfolding(crate::specs::Calls::read_answer, crate::specs::Calls::read_buffer))]
pub fn read(text: &[u8], words: &mut [i64]) -> Result<usize, Refusal>
    ensures { (result ≡ read_answer text.now (length words.old)) × (words.new ≡ read_buffer text.now words.old) }
{
    let n = count_words(text)?;
    if words.len() < n {
        return Err(Refusal::NoRoom);
    }
    store(text, &mut words[..n]);
    Ok(n)
}

// Whether the eight words of a line have a text. All are tested, which takes no branch.
#[tactic(auto, using(crate::proofs::WriteLoops::testing_steps))]
fn good_row(row: &[i64; 8]) -> bool
    ensures { result ≡ good_row row.now }
{
    let mut good = true;
    for w in row {
        good &= decimal::has_text(*w);
    }
    good
}

// How many lines come before the first one that has no text. A short last line has none whatever its words.
#[tactic(auto, using(crate::proofs::WriteLoops::passing_steps))]
fn good_rows(words: &[i64]) -> usize
    ensures { result ≡ before good_row (rows_of words.now) }
{
    let (rows, _) = words.as_chunks::<8>();
    for (k, row) in rows.iter().enumerate() {
        if !good_row(row) {
            return k;
        }
    }
    rows.len()
}

// The number of bytes in the words' text.
#[tactic(auto, using(crate::proofs::WriteLoops::counting_steps))]
fn count_bytes(words: &[i64]) -> usize
    requires { all good_row (rows_of words.now) ≡ true }
    ensures { result ≡ length (text_of words.now) }
{
    let mut n = 0;
    for w in words {
        n += decimal::size(*w) + 1;
    }
    n
}

// Whether the text fits. A word takes at most twelve bytes, so that where there is so much room, none is counted.
#[tactic(auto, using(crate::proofs::WriteLoops::text_most))]
fn has_room(words: &[i64], room: usize) -> bool
    requires { all good_row (rows_of words.now) ≡ true }
    ensures { result ≡ leb (length (text_of words.now)) room }
{
    if words.len() <= room / 12 {
        return true;
    }
    count_bytes(words) <= room
}

// The last pass of `write`: the words have a text, and there is room for it. The answer is how many bytes it has.
#[tactic(auto, using(crate::proofs::WriteLoops::putting_steps))]
fn put(words: &[i64], text: &mut [u8]) -> usize
    requires { (all good_row (rows_of words.now) ≡ true) × (length (text_of words.now) ≤ length text.old) }
    ensures { (result ≡ length (text_of words.now)) × (text.new ≡ sets text.old 0 (text_of words.now)) }
{
    let mut at = 0;
    for (i, w) in words.iter().enumerate() {
        at = decimal::put_field(text, at, *w, ending(i));
    }
    at
}

// Writes the text of words. The answer is how many bytes it has. On refusal, and past the result, `text` stays as it was.
#[tactic(auto, using(crate::proofs::WriteLoops::write_steps), unfolding(crate::specs::Calls::write_answer, crate::specs::Calls::write_buffer))]
pub fn write(words: &[i64], text: &mut [u8]) -> Result<usize, Refusal>
    ensures { (result ≡ write_answer words.now (length text.old)) × (text.new ≡ write_buffer words.now text.old) }
{
    let lines = good_rows(words);
    if lines * 8 != words.len() {
        return Err(Refusal::Line(lines));
    }
    if !has_room(words, text.len()) {
        return Err(Refusal::NoRoom);
    }
    Ok(put(words, text))
}
