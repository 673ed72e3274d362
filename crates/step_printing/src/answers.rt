// The lines that tell what a call answered.
use crate::lines::print_line;
use model::Answer;
use std::io;
use std::io::Write;
use text::{SPACE, Text};

// Prints the answer to the table record, which is accepted.
pub fn print_made<W: Write>(output: &mut W) -> io::Result<()> {
    output.write_all(b"0 made\n")
}

// Prints a record's place in the schedule and the answer to its call.
pub fn print_answer<W: Write>(output: &mut W, place: u64, answer: Answer) -> io::Result<()> {
    let mut space = [0u8; 4096];
    let mut line = Text::new(&mut space);
    line.number(place);
    line.byte(SPACE);
    line.answer(answer);
    print_line(output, &mut line)
}
