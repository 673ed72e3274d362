// One line of text in a caller's bytes, and the line of one thread.
use model::Thread;
use std::io;
use std::io::Write;
use text::{NEWLINE, Text};
use threads::WORD_LIMIT;

// Ends a line and prints it.
pub fn print_line<W: Write>(output: &mut W, line: &mut Text) -> io::Result<()> {
    line.byte(NEWLINE);
    output.write_all(line.front())
}

// Prints the line of thread x, with its eight words of the store.
pub fn print_thread<W: Write>(
    output: &mut W,
    x: u8,
    thread: Thread,
    store: &[u32],
) -> io::Result<()> {
    let words = words::first_words(store, x, WORD_LIMIT);
    let mut space = [0u8; 4096];
    let mut line = Text::new(&mut space);
    showing::put_thread(&mut line, x, thread, words);
    output.write_all(line.front())
}
