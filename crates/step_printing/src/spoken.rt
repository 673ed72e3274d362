// One line for a record: which call it was, what it answered, and what it changed of each thread, in words.
use crate::lines::print_line;
use crate::taken::Taken;
use model::Record;
use std::io;
use std::io::Write;
use text::{SPACE, Text};
use threads::WORD_LIMIT;
use words::first_words;

// Where the changes start, if the call is short enough.
const COLUMN: usize = 24;

// Spaces up to a column.
fn put_pad(line: &mut Text, column: usize) {
    for _place in line.len()..column {
        line.byte(SPACE);
    }
}

// The changes of all threads.
fn put_all(line: &mut Text, taken: Taken) {
    let threads = taken.before.threads.iter().zip(&taken.after.threads);
    for (x, (was, is)) in (0..taken.after.n).zip(threads) {
        speaking::put_changes(
            line,
            x,
            *was,
            *is,
            first_words(taken.old, x, WORD_LIMIT),
            first_words(taken.new, x, WORD_LIMIT),
        );
    }
}

// Prints the line of a record.
pub fn print_spoken<W: Write>(output: &mut W, taken: Taken) -> io::Result<()> {
    let mut space = [0u8; 65536];
    let mut line = Text::new(&mut space);
    speaking::put_call(&mut line, taken.place, taken.item, taken.answer);
    let called = line.len();
    put_pad(&mut line, COLUMN);
    let column = line.len();
    put_all(&mut line, taken);
    // Where nothing changed, the line ends with the answer.
    if line.len() == column {
        line.truncate(called);
    }
    print_line(output, &mut line)
}

// Prints the line of the table record, which is accepted.
pub fn print_made<W: Write>(output: &mut W, item: Record) -> io::Result<()> {
    let mut space = [0u8; 4096];
    let mut line = Text::new(&mut space);
    line.bytes(b"0 ");
    record_text::put_record(&mut line, item);
    line.bytes(b": made");
    print_line(output, &mut line)
}
