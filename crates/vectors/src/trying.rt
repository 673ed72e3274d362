// What no line of the console can say: making a table of any size, a begin whose absent send part has fields, and writing a record into a lent run of bytes.
use crate::cases;
use model::{Answer, Record, Table};
use reading::{KIND, THREAD};
use std::io;
use std::io::Write;
use text::Text;

// How many bytes a record is written into at most, and what stands in each before.
const ALL: usize = 48;

const BYTE: u8 = 7;

// Prints bytes.
fn print<W: Write>(output: &mut W, bytes: &[u8]) -> io::Result<()> {
    output.write_all(bytes)
}

// Prints an answer in words.
fn print_answer<W: Write>(output: &mut W, answer: Answer) -> io::Result<()> {
    let mut line = [0u8; 4096];
    let mut text = Text::new(&mut line);
    text.answer(answer);
    print(output, text.front())
}

// Prints a number behind a space.
fn print_number<W: Write>(output: &mut W, n: u8) -> io::Result<()> {
    write!(output, " {n}")
}

// Prints bytes as numbers.
fn print_numbers<W: Write>(output: &mut W, bytes: &[u8]) -> io::Result<()> {
    for n in bytes {
        print_number(output, *n)?;
    }
    Ok(())
}

// Prints what stands where a record was to be written.
fn print_bytes<W: Write>(output: &mut W, bytes: &[u8; ALL]) -> io::Result<()> {
    print(output, b", bytes")?;
    print_numbers(output, bytes)
}

// Prints the numbers of a case and what it answers.
fn print_case<W: Write>(output: &mut W, case: &[u8], answer: Answer) -> io::Result<()> {
    print_numbers(output, case)?;
    print(output, b": ")?;
    print_answer(output, answer)
}

// Makes a table of so many threads, and prints the size of the one that is returned.
fn try_make<W: Write>(output: &mut W, case: &[u8]) -> io::Result<()> {
    let made = engine::make(cases::number(case, 0));
    let answer = made.answer;
    let table = made.table;
    print_case(output, case, answer)?;
    print(output, b", N")?;
    print_number(output, table.n)?;
    print(output, b"\n")
}

// A table of three, new, or in which 0 copies to 1.
fn table_of_three(copying: bool) -> Table {
    let mut store = [0u32; 24];
    let new = unchecked::new_table(3);
    if !copying {
        return new;
    }
    let open = cases::operation(&[0, 0, 1, 1, 6, 0, 0, 0, 0, 15]);
    let send = cases::operation(&[0, 0, 1, 0, 1, 1, 0, 1, 15, 0]);
    let waiting = engine::begin(new, 1, open, &mut store);
    let sending = engine::begin(waiting.table, 0, send, &mut store);
    let locked = engine::step(sending.table, 0, &mut store);
    let checked = engine::step(locked.table, 0, &mut store);
    checked.table
}

// A begin of thread 0 on a table of three, through the main entry, and through the spark entry.
fn try_begin<W: Write>(output: &mut W, case: &[u8; 10]) -> io::Result<()> {
    let mut store = [0u32; 24];
    let table = table_of_three(cases::number(case, 0) == 1);
    let after = engine::begin(table, 0, cases::operation(case), &mut store);
    let answer = after.answer;
    print_case(output, case, answer)?;
    let spark = engine::spark_begin(table, 0, cases::operation(case), &mut store);
    let answer = spark.answer;
    print(output, b", spark ")?;
    print_answer(output, answer)?;
    print(output, b"\n")
}

// A record written into as many bytes as are lent; prints all bytes afterwards.
fn try_write<W: Write>(output: &mut W, case: &[u8; 10]) -> io::Result<()> {
    let item = Record {
        kind: cases::number(case, KIND),
        thread: cases::number(case, THREAD),
        op: cases::operation(case),
    };
    let first = cases::number(case, 0) == 1;
    let lent = usize::from(cases::number(case, 1)).min(ALL);
    let mut bytes = [BYTE; ALL];
    let answer = writing::write(first, item, &mut bytes[0..lent]);
    print_case(output, case, answer)?;
    print_bytes(output, &bytes)?;
    print(output, b"\n")
}

// Tables of these sizes.
fn make_tables<W: Write>(output: &mut W) -> io::Result<()> {
    print(output, b"Making a table of N\n")?;
    for size in [0u8, 1, 32, 33, 255] {
        try_make(output, &[size])?;
    }
    Ok(())
}

// Begins without a send part, in which its fields stand all the same: none of them counts.
fn begin_without_send<W: Write>(output: &mut W) -> io::Result<()> {
    print(
        output,
        b"\nBegins without a send part: copying, -, kind, thread, parts, target, partner, count, send time, receive time\n",
    )?;
    for case in &cases::without_send() {
        try_begin(output, case)?;
    }
    Ok(())
}

// Records of every kind and of none.
// Kept beside `begin_without_send`: heading, cases and what is tried differ, and nothing else stands in them.
fn write_records<W: Write>(output: &mut W) -> io::Result<()> {
    print(
        output,
        b"\nRecords written: first, bytes lent, kind, thread, parts, target, partner, count, send time, receive time\n",
    )?;
    for case in &cases::records() {
        try_write(output, case)?;
    }
    Ok(())
}

// Tries all of them, and prints the numbers of each case before what comes of it.
pub fn try_all<W: Write>(output: &mut W) -> io::Result<()> {
    make_tables(output)?;
    begin_without_send(output)?;
    write_records(output)
}
