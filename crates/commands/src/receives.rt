// The receive part that the rest of a line spells, or none: the end of an operation.
ghost use Rattle.std.specs.Prelude.{◌≡◌, [], ◌∷◌, ◌%◌, ◌≤◌, ◌<◌, length, drop};
ghost use Rattle.model.specs.Bondtrace.{ascii};
ghost use Rattle.language.specs.Words.{words, pieces};
ghost use Rattle.language.specs.Commands.{closed, read_numbers, reached, with_member, read_members, read_open, read_closed, read_one_of, read_wait, read_receive};
ghost use Rattle.scanning.specs.Scanned.{between};
ghost use Rattle.commands.specs.Standing.{Placed, Spells};

use crate::Misread;
use crate::cursors::{Cursor, read_numbers, value_of};
use letters::{Reason, THREAD};
use model::{Operation, Receive, SendPart, Wait};
use scanning::{Span, has_comma, is_word, next_word, piece_end};
use threads::is_member;

// An operation whose receive part is read, where nothing is left of the line.
fn close(line: &[u8], at: usize, send: SendPart, receive: Receive) -> Result<Operation, Misread>
    requires { at ≤ length line.now }
    ensures { Spells line.now (closed send (λ _. receive) (reached [] (words (drop at line.now)))) result }
{
    let word = next_word(line, at);
    if word.start == word.end {
        return Ok(Operation { send, receive });
    }
    Err(Misread {
        reason: Reason::TooMuch,
        word,
    })
}

// The low byte of a number.
pub fn low_byte(n: u32) -> u8
    ensures { result ≡ n % 256 }
{
    (n % 256) as u8
}

// Behind the words `receive any`: a time code.
fn read_open(line: &[u8], at: usize, send: SendPart) -> Result<Operation, Misread>
    requires { at ≤ length line.now }
    ensures { Spells line.now (read_open send (words (drop at line.now))) result }
{
    let mut numbers = [0; 2];
    let last = read_numbers(line, b"b", Cursor { at, count: 0 }, &mut numbers)?;
    let wait = Wait {
        time: low_byte(numbers[0]),
        partner: 0,
    };
    close(line, last.at, send, Receive::Open(wait))
}

// Behind the word `receive`: a partner and a time code.
fn read_closed(line: &[u8], at: usize, send: SendPart) -> Result<Operation, Misread>
    requires { at ≤ length line.now }
    ensures { Spells line.now (read_closed send (words (drop at line.now))) result }
{
    let mut numbers = [0; 4];
    let last = read_numbers(line, b"bb", Cursor { at, count: 0 }, &mut numbers)?;
    let wait = Wait {
        time: low_byte(numbers[1]),
        partner: low_byte(numbers[0]),
    };
    close(line, last.at, send, Receive::Closed(wait))
}

// Behind a set: a time code.
fn read_one_of(line: &[u8], at: usize, send: SendPart, set: u32) -> Result<Operation, Misread>
    requires { at ≤ length line.now }
    ensures { Spells line.now (read_one_of send (reached (set ∷ []) (words (drop at line.now)))) result }
{
    let mut numbers = [0; 2];
    let last = read_numbers(line, b"b", Cursor { at, count: 0 }, &mut numbers)?;
    let time = low_byte(numbers[0]);
    close(line, last.at, send, Receive::OneOf(time, set))
}

// Behind the words `receive set`: the number of a set and a time code.
fn read_set(line: &[u8], at: usize, send: SendPart) -> Result<Operation, Misread>
    requires { at ≤ length line.now }
    ensures { Spells line.now (read_one_of send (read_numbers (ascii "w") (reached [] (words (drop at line.now))))) result }
{
    let mut numbers = [0; 2];
    let last = read_numbers(line, b"w", Cursor { at, count: 0 }, &mut numbers)?;
    read_one_of(line, last.at, send, numbers[0])
}

// A set with one member more.
fn with_member(set: u32, s: u8) -> u32
    requires { s < 32 }
    ensures { result ≡ with_member set s }
{
    if is_member(set, s) {
        return set;
    }
    set + (1 << s)
}

// A word read as partners between commas, and what stands behind it.
// Kept: a walk from comma to comma. `split` tells no places, and a piece that is wrong is told by its place in the line (`Refuses`).
fn read_members(line: &[u8], word: Span, send: SendPart) -> Result<Operation, Misread>
    requires { Placed line.now word.start word.end }
    ensures { Spells line.now (read_one_of send (read_members 0 (pieces (between word.start word.end line.now)) (words (drop word.end line.now)))) result }
{
    let front = &line[..word.end];
    let mut set = 0;
    let mut start = word.start;
    loop {
        let end = piece_end(front, start);
        let value = value_of(front, THREAD, Span { start, end })?;
        set = with_member(set, low_byte(value));
        if end == word.end {
            return read_one_of(line, word.end, send, set);
        }
        start = end + 1;
    }
}

// Behind the word `receive`.
fn read_wait(line: &[u8], at: usize, send: SendPart) -> Result<Operation, Misread>
    requires { at ≤ length line.now }
    ensures { Spells line.now (read_wait send (words (drop at line.now))) result }
{
    let word = next_word(line, at);
    let text = &line[word.start..word.end];
    if is_word(text, b"any") {
        return read_open(line, word.end, send);
    }
    if is_word(text, b"set") {
        return read_set(line, word.end, send);
    }
    if has_comma(text) {
        return read_members(line, word, send);
    }
    read_closed(line, at, send)
}

// A receive part or none.
pub fn read_receive(line: &[u8], at: usize, send: SendPart) -> Result<Operation, Misread>
    requires { at ≤ length line.now }
    ensures { Spells line.now (read_receive send (words (drop at line.now))) result }
{
    let word = next_word(line, at);
    if word.start == word.end {
        let receive = Receive::Absent;
        return Ok(Operation { send, receive });
    }
    if is_word(&line[word.start..word.end], b"receive") {
        return read_wait(line, word.end, send);
    }
    Err(Misread {
        reason: Reason::NoPart,
        word,
    })
}
