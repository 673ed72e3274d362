// Bytes to text: a line for each record.
ghost use Rattle.std.specs.Prelude.{◌+◌};
ghost use Rattle.language.specs.RecordText.{record_text};
ghost use Rattle.spelling.specs.Lengths.{longest_line};
ghost use Rattle.text.specs.Writing.{Printed};

use model::Record;
use record_input::{LAST_BYTE, Next, Records, print_bad};
use record_text::put_record;
use std::io;
use std::io::{Read, Write};
use text::{NEWLINE, Text};

// The line of a record from the first byte on, with what ends it.
fn put_line(item: Record, out: &mut [u8]) -> usize
    ensures { Printed (record_text item) (longest_line + 1) out.old out.new result }
{
    let mut line = Text::new(out);
    put_record(&mut line, item);
    line.byte(NEWLINE);
    line.len()
}

// Prints the line of a record.
fn print_line<W: Write>(output: &mut W, item: Record) -> io::Result<()> {
    let mut line = [0u8; 4096];
    let end = put_line(item, &mut line);
    output.write_all(&line[..end])
}

// Prints the lines of the records that an input delivers, up to the end, or to one that is unlawful or cut short: that is told.
pub fn print_text<R: Read, W: Write>(input: &mut R, output: &mut W) -> io::Result<()> {
    let mut space = [0u8; 65536];
    let mut records = Records::new(&mut space);
    let mut byte: u64 = 0;
    // Kept: no `for` counts it, for each turn goes on by a record's length.
    while byte < LAST_BYTE {
        match records.next_record(input, byte == 0)? {
            Next::Over => return Ok(()),
            Next::Refused(number) => return print_bad(output, number, byte),
            Next::Found(found) => {
                print_line(output, found.item)?;
                byte += found.length as u64;
            }
        }
    }
    Ok(())
}
