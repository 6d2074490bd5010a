//! Patterns of tags: `*` stands for any text, `?` for any one character, and each other character for
//! itself.
ghost use Rattle.std.specs.Prelude.{◌≡◌, ◌+◌, ℕ, Bool, List, [], ◌∷◌, length, IfOk, if◌then◌else◌};
ghost use Rattle.oci_entries.specs.Pattern.{
  after_byte,
  after_character,
  continues,
  matches,
  matches_one,
  some_end,
  texts_of,
  IsRow,
};

use oci_digest::NoMemory;
use std::alloc::Global;

/// Returns whether a text matches one of these patterns. If there are none, each text does.
pub(crate) fn matches_one(alloc: Global, patterns: &[&str], text: &str) -> Result<bool, NoMemory>
    ensures { IfOk result (λ it. it ≡ matches_one (texts_of patterns.now) text.now) }
{
    for pattern in patterns {
        if matches(alloc, pattern, text)? {
            return Ok(true);
        }
    }
    Ok(patterns.is_empty())
}

/// Returns whether a text, as a whole, matches a pattern. The steps are at most as many as the bytes
/// of the pattern, times those of the text.
fn matches(alloc: Global, pattern: &str, text: &str) -> Result<bool, NoMemory>
    ensures { IfOk result (λ it. it ≡ matches pattern.now text.now) }
{
    let (pattern, text) = (pattern.as_bytes(), text.as_bytes());
    let mut row = end_row(alloc, text)?;
    let row = row.as_mut_slice();
    for place in (0..pattern.len()).rev() {
        put_before(pattern[place], text, row);
    }
    Ok(row[0])
}

/// Returns the row of the empty pattern. A row says for each place of the text, the end among them,
/// whether the text from there matches the pattern.
fn end_row(alloc: Global, text: &[u8]) -> Result<Vec<bool>, NoMemory>
    ensures { IfOk result (λ row. IsRow (matches []) text.now row.items) }
{
    let mut row = Vec::new(alloc);
    for _ in text {
        row.push(false)?;
    }
    row.push(true)?;
    Ok(row)
}

/// Makes the row of a pattern that of the pattern after this byte.
fn put_before(byte: u8, text: &[u8], row: &mut [bool])
    requires { length row.old ≡ length text.now + 1 }
    ensures { (pattern : List ℕ) → IsRow (matches pattern) text.now row.old
        → IsRow (matches (byte ∷ pattern)) text.now row.new }
{
    if byte == b'*' {
        put_any_text(row);
    } else if byte == b'?' {
        put_character(text, row);
    } else {
        put_byte(byte, text, row);
    }
}

/// Puts a `*` before the pattern of a row: it matches from each place from which, or after which, the
/// pattern does.
fn put_any_text(row: &mut [bool])
    ensures { (test : List ℕ → Bool) (text : List ℕ) → IsRow test text row.old
        → IsRow (some_end test) text row.new }
{
    for place in (1..row.len()).rev() {
        row[place - 1] |= row[place];
    }
}

/// Puts a byte before the pattern of a row that stands for itself.
fn put_byte(byte: u8, text: &[u8], row: &mut [bool])
    requires { length row.old ≡ length text.now + 1 }
    ensures { (test : List ℕ → Bool) → IsRow test text.now row.old
        → IsRow (after_byte byte test) text.now row.new }
{
    for place in 0..text.len() {
        row[place] = (text[place] == byte) & row[place + 1];
    }
    row[text.len()] = false;
}

/// Puts a `?` before the pattern of a row: it matches from each place from which one character leads
/// to a place where the pattern does.
fn put_character(text: &[u8], row: &mut [bool])
    requires { length row.old ≡ length text.now + 1 }
    ensures { (test : List ℕ → Bool) → IsRow test text.now row.old
        → IsRow (after_character test) text.now row.new }
{
    let mut after = row[text.len()];
    row[text.len()] = false;
    for place in (0..text.len()).rev() {
        after = shift(&mut row[place], after, text[place]);
    }
}

/// Replaces what a row has at the place of a byte by what it had after the byte's character. Returns
/// what the row had where a character begins: at the byte, or after it if the byte continues one.
fn shift(row: &mut bool, after: bool, byte: u8) -> bool
    ensures put { row.new ≡ after }
    ensures before { result ≡ (if continues byte then after else row.old) }
{
    let here = *row;
    *row = after;
    if continues(byte) { after } else { here }
}

/// Returns whether a byte of a text continues a character.
fn continues(byte: u8) -> bool
    ensures { result ≡ continues byte }
{
    (128..=191).contains(&byte)
}
