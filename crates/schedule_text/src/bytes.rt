// Text to bytes: the records of each line, up to the first line that is none of a schedule.
ghost use Rattle.std.specs.Prelude.{◌≡◌, ◌+◌, ◌≤◌, length, IfOk};
ghost use Rattle.model.specs.RecordBytes.{longest_record};
ghost use Rattle.model.specs.Encoding.{lawful_record};
ghost use Rattle.roundtrip.specs.Fits.{Bytes};
ghost use Rattle.language.specs.Commands.{command_of};
ghost use Rattle.language.specs.RecordText.{threads_of, records_asked, lawful_row, records_of};
ghost use Rattle.commands.specs.Standing.{line_room};
ghost use Rattle.schedule_text.specs.Steps.{next_after};

use crate::asked::{how_many, kind_asked, record_at};
use commands::{Reason, TICK_ROW, command, no_numbers};
use line_input::Lines;
use model::{Answer, Operation, Record};
use reading::{LONGEST, record_length};
use replies::put_error;
use scanning::{next_word, without_return};
use std::io;
use std::io::{Read, Write};
use writing::write;

// Says why line n is none of a schedule, and at which word.
fn say_wrong<E: Write>(errors: &mut E, n: u64, reason: Reason, word: &[u8]) -> io::Result<()> {
    let mut text = [0u8; 65536];
    let end = put_error(&mut text, 0, n, reason.into(), word);
    errors.write_all(&text[..end])
}

// Says why line n is none of a schedule, with its first word.
fn say_first<E: Write>(errors: &mut E, n: u64, reason: Reason, line: &[u8]) -> io::Result<()> {
    let stop = without_return(line);
    let word = next_word(&line[..stop], 0);
    say_wrong(errors, n, reason, &line[word.start..word.end])
}

// Writes out what is gathered where a record more might not fit; answers how many bytes are still gathered.
fn with_room<W: Write>(output: &mut W, filled: usize, out: &[u8]) -> io::Result<usize>
    requires longest_record_in_bounds { longest_record ≤ length out.now }
    requires filled_in_bounds { filled ≤ length out.now }
    ensures { IfOk result (λ gathered. gathered + longest_record ≤ length out.now) }
{
    if LONGEST <= out.len() - filled {
        return Ok(filled);
    }
    output.write_all(&out[..filled])?;
    Ok(0)
}

// Writes a record over the first bytes; answers whether it is lawful.
fn put_lawful(first: bool, item: Record, out: &mut [u8]) -> bool
    requires { longest_record ≤ length out.old }
    ensures { result ≡ lawful_record first item }
{
    match write(first, item, out) {
        Answer::Refused(_) => false,
        _ => true,
    }
}

// Writes the records of a line out, gathered in a buffer; answers whether they are lawful.
fn write_records<W: Write>(
    output: &mut W,
    first: bool,
    row: u8,
    op: Operation,
    numbers: &[u32],
    out: &mut [u8],
) -> io::Result<bool>
    requires bytes { Bytes (threads_of row numbers.now) }
    requires longest_record_in_bounds { longest_record ≤ length out.old }
    ensures { IfOk result (λ lawful. lawful ≡ lawful_row first (records_asked row numbers.now op)) }
{
    let count = how_many(row, numbers);
    let size = record_length(kind_asked(row, op));
    let mut filled = 0;
    for i in 0..count {
        filled = with_room(output, filled, out)?;
        let item = record_at(row, op, numbers, i);
        if !put_lawful(first & (i == 0), item, &mut out[filled..]) {
            return Ok(false);
        }
        filled += size;
    }
    output.write_all(&out[..filled])?;
    Ok(true)
}

// Writes the records of line n out, told whether they are the first; or says why it has none. Answers whether the next record is the first, or nothing where the line is none of a schedule.
fn write_line<W: Write, E: Write>(
    output: &mut W,
    errors: &mut E,
    n: u64,
    line: &[u8],
    first: bool,
    numbers: &mut [u32],
    out: &mut [u8],
) -> io::Result<Option<bool>>
    requires line_room_in_bounds { line_room ≤ length numbers.old }
    requires longest_record_in_bounds { longest_record ≤ length out.old }
    ensures { IfOk result (λ next. next ≡ next_after first (records_of first (command_of line.now))) }
{
    let asked = match command(line, numbers) {
        Ok(Some(asked)) => asked,
        Ok(None) => return Ok(Some(first)),
        Err(misread) => {
            let word = &line[misread.word.start..misread.word.end];
            say_wrong(errors, n, misread.reason, word)?;
            return Ok(None);
        }
    };
    if TICK_ROW < asked.row {
        say_first(errors, n, Reason::NotRecord, line)?;
        return Ok(None);
    }
    let named = &numbers[..asked.count];
    if write_records(output, first, asked.row, asked.op, named, out)? {
        let many = how_many(asked.row, named);
        return Ok(Some(first & (many == 0)));
    }
    say_first(errors, n, Reason::TableFirst, line)?;
    Ok(None)
}

// Writes the records of the lines that an input delivers out, through a buffer for lines, one for numbers and one for bytes.
fn write_lines<R: Read, W: Write, E: Write>(
    input: &mut R,
    output: &mut W,
    errors: &mut E,
    buffer: &mut [u8],
    numbers: &mut [u32],
    out: &mut [u8],
) -> io::Result<()>
    requires line_room_in_bounds { line_room ≤ length numbers.old }
    requires longest_record_in_bounds { longest_record ≤ length out.old }
{
    let mut lines = Lines::new(buffer);
    let mut first = true;
    for before in 0..u64::MAX {
        let Some(line) = lines.fetch_line(input)? else {
            return Ok(());
        };
        let text = lines.text(line);
        let next = write_line(output, errors, before + 1, text, first, numbers, out)?;
        let Some(next_first) = next else {
            return Ok(());
        };
        first = next_first;
    }
    Ok(())
}

// Writes the bytes of the schedule whose text an input delivers, up to the end, or to the first line that is none of a schedule: that is told where errors are.
pub fn print_bytes<R: Read, W: Write, E: Write>(
    input: &mut R,
    output: &mut W,
    errors: &mut E,
) -> io::Result<()> {
    let mut lines = [0u8; 65536];
    let mut numbers = no_numbers();
    let mut out = [0u8; 65536];
    write_lines(input, output, errors, &mut lines, &mut numbers, &mut out)
}
