// A schedule through its text and back: the line of each record is read as one record again, which is written as the same bytes.
use record_input::{LAST_BYTE, Next, Records};
use schedule_text::respelled;
use std::io;
use std::io::{Read, Write};

// Prints how many records are read back the same, and whether the schedule goes on with one that is unlawful or cut short.
fn print_same<W: Write>(output: &mut W, records: u64, bad: bool) -> io::Result<()> {
    if bad {
        return writeln!(output, "{records} records, read back the same then bad");
    }
    writeln!(output, "{records} records, read back the same")
}

// Prints which record is read back otherwise, counted from 0.
fn print_other<W: Write>(output: &mut W, record: u64) -> io::Result<()> {
    writeln!(output, "record {record} differs")
}

// Reads each record of the schedule that an input delivers back from its line, and prints how many are the same.
pub fn respell<R: Read, W: Write>(input: &mut R, output: &mut W) -> io::Result<()> {
    let mut space = [0u8; 65536];
    let mut records = Records::new(&mut space);
    let mut byte: u64 = 0;
    let mut same: u64 = 0;
    // Kept: no `for` counts it, for each turn goes on by a record's length.
    while byte < LAST_BYTE {
        let first = byte == 0;
        match records.next_record(input, first)? {
            Next::Over => return print_same(output, same, false),
            Next::Refused(_) => return print_same(output, same, true),
            Next::Found(found) => {
                if !respelled(first, found.item, records.bytes(found)) {
                    return print_other(output, same);
                }
                byte += found.length as u64;
                same += 1;
            }
        }
    }
    Ok(())
}
