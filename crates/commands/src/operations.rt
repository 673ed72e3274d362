// The operation that the rest of a line spells: a send part or none, then a receive part or none.
ghost use Rattle.std.specs.Prelude.{◌≡◌, [], ◌≤◌, length, drop, set};
ghost use Rattle.model.specs.Bondtrace.{ascii};
ghost use Rattle.language.specs.Words.{words};
ghost use Rattle.language.specs.Commands.{read_numbers, reached, with_word, read_words, read_send, read_parts};
ghost use Rattle.commands.specs.Standing.{Spells};

use crate::Misread;
use crate::cursors::{Cursor, read_numbers, value_of};
use crate::receives::{low_byte, read_receive};
use letters::WORD;
use model::{Operation, SendPart};
use scanning::{is_word, next_word};
use threads::no_operation;

// The most words that are kept.
const WORDS: u8 = 8;

// A word put at its place, where that is one of the eight.
fn put_word(words: [u32; 8], place: u8, word: u32) -> [u32; 8]
    ensures { result ≡ set words place word }
{
    let mut next = words;
    if place < WORDS {
        next[place as usize] = word;
    }
    next
}

// A send part with a word more: of the words past the eighth only their number is kept, up to 255.
fn with_word(word: u32, send: SendPart) -> SendPart
    ensures { result ≡ with_word word send }
{
    SendPart {
        count: send.count.saturating_add(1),
        words: put_word(send.words, send.count, word),
        ..send
    }
}

// The words of a send part, and what stands behind them.
// Kept: a walk from word to word. A `for` needs an iterator of words that also tells the place where `read_receive` goes on, with laws longer than this loop.
fn read_words(line: &[u8], from: usize, first: SendPart) -> Result<Operation, Misread>
    requires { from ≤ length line.now }
    ensures { Spells line.now (read_words first (words (drop from line.now))) result }
{
    let mut send = first;
    let mut at = from;
    loop {
        let word = next_word(line, at);
        if word.start == word.end {
            return read_receive(line, at, send);
        }
        if is_word(&line[word.start..word.end], b"receive") {
            return read_receive(line, at, send);
        }
        let value = value_of(line, WORD, word)?;
        send = with_word(value, send);
        at = word.end;
    }
}

// Behind the word `send`: a target, a time code and words.
fn read_send(line: &[u8], at: usize) -> Result<Operation, Misread>
    requires { at ≤ length line.now }
    ensures { Spells line.now (read_send (read_numbers (ascii "bb") (reached [] (words (drop at line.now))))) result }
{
    let mut numbers = [0; 4];
    let last = read_numbers(line, b"bb", Cursor { at, count: 0 }, &mut numbers)?;
    let send = SendPart {
        present: true,
        target: low_byte(numbers[0]),
        count: 0,
        time: low_byte(numbers[1]),
        words: [0; 8],
    };
    read_words(line, last.at, send)
}

// The operation that the rest of a line spells.
pub fn read_parts(line: &[u8], at: usize) -> Result<Operation, Misread>
    requires { at ≤ length line.now }
    ensures { Spells line.now (read_parts (words (drop at line.now))) result }
{
    let word = next_word(line, at);
    if is_word(&line[word.start..word.end], b"send") {
        return read_send(line, word.end);
    }
    read_receive(line, at, no_operation().send)
}
