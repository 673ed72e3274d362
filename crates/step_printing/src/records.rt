// The loop over the records.
ghost use Rattle.std.specs.Prelude.{◌≡◌, ◌≤◌, ◌<◌, length};
ghost use Rattle.model.specs.RecordBytes.{longest_record};
ghost use Rattle.step_printing.specs.Modes.{mode_of};

use crate::lines::print_thread;
use crate::taken::Taken;
use crate::{answers, entries, spoken};
use model::{Answer, Record, Returned, Table};
use record_input::{Found, LAST_BYTE, Next, Records, print_bad};
use std::io;
use std::io::{Read, Write};

// What is printed of a schedule: every field of every thread, what changed, in words, or the logs of two recorders.
#[derive(Clone, Copy, PartialEq, Eq)]
pub enum Mode {
    Full,
    Words,
    Logs,
}

// The mode of a number: any but those of the other two prints every field.
impl From<u8> for Mode {
    ghost from_gives = { λ number result. result ≡ mode_of number };

    #[tactic(auto, unfolding(crate::specs::Modes::mode_of))]
    fn from(number: u8) -> Mode {
        match number {
            1 => Mode::Words,
            2 => Mode::Logs,
            _ => Mode::Full,
        }
    }
}

// Prints the lines of all threads.
fn print_threads<W: Write>(output: &mut W, table: Table, store: &[u32]) -> io::Result<()> {
    for (x, thread) in (0..table.n).zip(&table.threads) {
        print_thread(output, x, *thread, store)?;
    }
    Ok(())
}

// The call that a record after the first asks for.
fn call(table: Table, item: Record, store: &mut [u32]) -> Returned {
    let kind = item.kind;
    if reading::is_begin(kind) {
        return engine::begin(table, item.thread, item.op, store);
    }
    match kind {
        reading::STEP => engine::step(table, item.thread, store),
        reading::CANCEL => engine::cancel(table, item.thread),
        _ => engine::tick(table),
    }
}

// The words of a store, in an array of the longest.
fn words_of(store: &[u32]) -> [u32; 256]
    ensures { 256 ≡ length result }
{
    let mut words = zero_store();
    let most = store.len().min(256);
    words[..most].copy_from_slice(&store[..most]);
    words
}

// Prints the answer to a record's call, and every field.
fn print_full<W: Write>(output: &mut W, taken: Taken) -> io::Result<()> {
    answers::print_answer(output, taken.place, taken.answer)?;
    print_threads(output, taken.after, taken.new)
}

// Prints what the mode says of a record.
fn print_taken<W: Write>(output: &mut W, taken: Taken, mode: Mode) -> io::Result<()> {
    match mode {
        Mode::Full => print_full(output, taken),
        Mode::Words => spoken::print_spoken(output, taken),
        Mode::Logs => entries::print_rendezvous(output, taken),
    }
}

// Makes the call of a record and prints what comes of it: the table after it.
fn follow_record<W: Write>(
    output: &mut W,
    place: u64,
    item: Record,
    table: Table,
    store: &mut [u32],
    mode: Mode,
) -> io::Result<Table>
    ensures { length store.new ≡ length store.old }
{
    let old = words_of(store);
    let returned = call(table, item, store);
    let taken = Taken {
        place,
        item,
        answer: returned.answer,
        before: table,
        after: returned.table,
        old: &old,
        new: store,
    };
    print_taken(output, taken, mode)?;
    Ok(returned.table)
}

// Prints what comes of the table record, which is no rendezvous.
fn follow_first<W: Write>(
    output: &mut W,
    item: Record,
    made: Table,
    store: &[u32],
    mode: Mode,
) -> io::Result<()> {
    match mode {
        Mode::Full => {
            answers::print_made(output)?;
            print_threads(output, made, store)
        }
        Mode::Words => spoken::print_made(output, item),
        Mode::Logs => Ok(()),
    }
}

// Prints what stands behind the last record: of the logs, that they are compared.
fn follow_last<W: Write>(output: &mut W, mode: Mode) -> io::Result<()> {
    match mode {
        Mode::Full | Mode::Words => Ok(()),
        Mode::Logs => entries::print_compare(output),
    }
}

// Follows the records after the first, which has so many bytes.
fn follow_rest<R: Read, W: Write>(
    input: &mut R,
    output: &mut W,
    records: &mut Records,
    size: usize,
    made: Table,
    store: &mut [u32],
    mode: Mode,
) -> io::Result<()>
    requires { (0 < size) × (size ≤ longest_record) }
{
    let mut table = made;
    let mut place: u64 = 1;
    let mut byte = size as u64;
    // Kept: no `for` counts it, for each turn goes on by a record's length.
    while byte < LAST_BYTE {
        match records.next_record(input, false)? {
            Next::Over => return follow_last(output, mode),
            Next::Refused(number) => return print_bad(output, number, byte),
            Next::Found(found) => {
                table = follow_record(output, place, found.item, table, store, mode)?;
                byte += found.length as u64;
                place += 1;
            }
        }
    }
    Ok(())
}

// The words of the largest table's store, all zero.
fn zero_store() -> [u32; 256]
    ensures { 256 ≡ length result }
{
    [0; 256]
}

// Follows a schedule from its table record on.
fn follow_from<R: Read, W: Write>(
    input: &mut R,
    output: &mut W,
    records: &mut Records,
    first: Found,
    mode: Mode,
) -> io::Result<()>
    requires { (0 < first.length) × (first.length ≤ longest_record) }
{
    let made = engine::make(first.item.thread);
    if let Answer::Refused(number) = made.answer {
        return print_bad(output, number, 0);
    }
    let table = made.table;
    let words = 8 * usize::from(table.n);
    let mut store = zero_store();
    follow_first(output, first.item, table, &store[0..words], mode)?;
    follow_rest(
        input,
        output,
        records,
        first.length,
        table,
        &mut store[0..words],
        mode,
    )
}

// Follows the schedule that an input delivers, to its end or to a record that is refused, and prints what the mode, or its number, says.
pub fn follow<R: Read, W: Write, M: Into<Mode>>(
    input: &mut R,
    output: &mut W,
    mode: M,
) -> io::Result<()> {
    let asked: Mode = mode.into();
    let mut space = [0u8; 65536];
    let mut records = Records::new(&mut space);
    match records.next_record(input, true)? {
        // A schedule has a first record.
        Next::Over => unreachable!(),
        Next::Refused(number) => print_bad(output, number, 0),
        Next::Found(first) => follow_from(input, output, &mut records, first, asked),
    }
}
