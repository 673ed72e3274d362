// Bytes taken apart: the lines of an input, the words of a line, the number that a word is.

#![tactic(auto)]

ghost use Rattle.std.specs.Prelude.{◌≡◌, ℕ, Bool, true, ◌*◌, ◌+◌, ◌-◌, ◌≤◌, min, length};
ghost use Rattle.model.specs.Lists.{same_numbers};
ghost use Rattle.language.specs.Words.{is_blank, is_digit, has_comma};
ghost use Rattle.scanning.specs.Scanned.{Run, Found, NumberRead, LineEnd, Shortened, of_word, of_piece, of_line, cap};

// What stands between two pieces of a word.
const COMMA: u8 = b',';

// What ends a line, and what may stand before that.
const NEWLINE: u8 = b'\n';

const RETURN: u8 = b'\r';

// What every number above the largest is read as: one more than the largest.
pub const CAP: u64 = 4294967296;

// Bytes from one place up to another.
#[derive(Clone, Copy)]
pub struct Span {
    pub start: usize,
    pub end: usize,
}

// Whether a byte is a blank.
#[tactic(auto, unfolding(language::specs::Words::is_blank))]
fn is_blank(byte: u8) -> bool
    ensures { result ≡ is_blank byte }
{
    matches!(byte, b' ' | b'\t')
}

// The place of the first byte from a place on that fails a test, or the end.
fn run_end<F: Fn(u8) -> bool>(bytes: &[u8], from: usize, passes: F) -> usize
    ghost test: { ℕ → Bool }
    requires from_in_bounds { from ≤ length bytes.now }
    requires answers { F.IsAlwaysCallable passes }
    requires tests { (byte : ℕ) (answer : Bool) → F.post passes byte answer → answer ≡ test byte }
    ensures { Run test bytes.now from result }
{
    for i in from..bytes.len() {
        if !passes(bytes[i]) {
            return i;
        }
    }
    bytes.len()
}

// The place of the first byte from a place on that is no blank, or the end.
fn blanks_end(line: &[u8], from: usize) -> usize
    requires { from ≤ length line.now }
    ensures { Run is_blank line.now from result }
{
    run_end(line, from, |byte| is_blank(byte))
}

// The place of the first blank from a place on, or the end.
pub fn word_end(line: &[u8], from: usize) -> usize
    requires { from ≤ length line.now }
    ensures { Run of_word line.now from result }
{
    run_end(line, from, |byte| !is_blank(byte))
}

// The first word from a place on; an empty one where there is none.
pub fn next_word(line: &[u8], from: usize) -> Span
    requires { from ≤ length line.now }
    ensures { Found line.now from result.start result.end }
{
    let start = blanks_end(line, from);
    let end = word_end(line, start);
    Span { start, end }
}

// Whether a word is this one.
pub fn is_word(word: &[u8], name: &[u8]) -> bool
    ensures { result ≡ same_numbers word.now name.now }
{
    word == name
}

// The place of the first comma from a place on, or the end.
pub fn piece_end(word: &[u8], from: usize) -> usize
    requires { from ≤ length word.now }
    ensures { Run of_piece word.now from result }
{
    run_end(word, from, |byte| byte != COMMA)
}

// Whether a word has a comma.
pub fn has_comma(word: &[u8]) -> bool
    ensures { result ≡ has_comma word.now }
{
    word.contains(&COMMA)
}

// Whether a byte is a digit.
#[tactic(auto, unfolding(language::specs::Words::is_digit))]
fn is_digit(byte: u8) -> bool
    ensures { result ≡ is_digit byte }
{
    matches!(byte, b'0'..=b'9')
}

// A number with a digit more, cut down to the cap.
fn with_digit(value: u64, byte: u8) -> u64
    requires value_le_cap { value ≤ cap }
    requires byte_value { is_digit byte ≡ true }
    ensures { result ≡ min (10 * value + (byte - 48)) cap }
{
    let more = 10 * value + u64::from(byte - b'0');
    more.min(CAP)
}

// The number that a word is, where it is one.
pub fn number(word: &[u8]) -> Option<u64>
    ensures { NumberRead word.now result }
{
    if word.is_empty() {
        return None;
    }
    let mut value = 0;
    for byte in word {
        if !is_digit(*byte) {
            return None;
        }
        value = with_digit(value, *byte);
    }
    Some(value)
}

// The place of what ends the line that starts at a place, or the end of the bytes.
pub fn line_end(bytes: &[u8], from: usize) -> usize
    requires { from ≤ length bytes.now }
    ensures { LineEnd bytes.now from result }
{
    run_end(bytes, from, |byte| byte != NEWLINE)
}

// The end of a line without the CR that may stand there.
pub fn without_return(line: &[u8]) -> usize
    ensures { Shortened line.now result }
{
    if line.ends_with(&[RETURN]) {
        line.len() - 1
    } else {
        line.len()
    }
}
