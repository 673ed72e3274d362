// One line: which command it is, and what is done for it.
ghost use Rattle.std.specs.Prelude.{◌≡◌, ◌≤◌, length};
ghost use Rattle.commands.specs.Standing.{line_room};

use crate::{calls, fields, logged};
use commands::{
    Asked, BEGIN_ROW, CANCEL_ROW, COMPARE_ROW, COUNT_ROW, HELP_ROW, OUTCOME_ROW, PLACES_ROW,
    RECORDS_ROW, REPORT_ROW, RULE_ROW, RULES_ROW, SAY_ROW, SEARCH_ROW, SENT_ROW, SHOW_ROW,
    SIZE_ROW, SPARK_ROW, STEP_ROW, STORE_ROW, TABLE_ROW, TICK_ROW,
};
use forcing::{byte_at, number_at};
use model::{EntryPoint, Rules, Table};

// What a dialogue keeps: a table, how many words are lent as a store, how many records to the report, the rows noted for the next loading, how many places are lent to a count, and how many entries the logs of sends and of receives have.
#[derive(Clone, Copy)]
pub struct Session {
    pub table: Table,
    pub words: usize,
    pub records: usize,
    pub noted: Rules,
    pub places: usize,
    pub sends: u16,
    pub receives: u16,
}

// What is kept after a line, and where its answer ends.
#[derive(Clone, Copy)]
pub struct Reply {
    pub session: Session,
    pub end: usize,
}

// "At first there is a table of no thread, with no store and no records", and for a count "4096" places.
pub fn new_session() -> Session {
    Session {
        table: unchecked::new_table(0),
        words: 0,
        records: 0,
        noted: rules::no_rules(),
        places: 4096,
        sends: 0,
        receives: 0,
    }
}

// The calls that change the table.
fn called(
    session: &mut Session,
    command: Asked,
    numbers: &[u32],
    store: &mut [u32],
    out: &mut [u8],
) -> usize {
    let row = command.row;
    let x = byte_at(numbers, 0);
    match row {
        TABLE_ROW => calls::table(session, x, store, out),
        BEGIN_ROW => calls::begin(session, EntryPoint::Main, x, command.op, store, out),
        SPARK_ROW => calls::begin(session, EntryPoint::Spark, x, command.op, store, out),
        STEP_ROW => calls::step(session, numbers, store, out),
        CANCEL_ROW => calls::cancel(session, x, out),
        RULES_ROW => calls::rules(session, out),
        _ => calls::tick(session, numbers, out),
    }
}

// The words behind `say`.
fn said(line: &[u8], out: &mut [u8]) -> usize {
    let end = scanning::without_return(line);
    replies::put_said(out, 0, &line[..end])
}

// The commands that only print: where the text ends.
fn told(
    session: &Session,
    row: u8,
    numbers: &[u32],
    line: &[u8],
    store: &[u32],
    out: &mut [u8],
) -> usize {
    let table = session.table;
    let words = session.words.min(store.len());
    let lent = &store[..words];
    let x = byte_at(numbers, 0);
    match row {
        OUTCOME_ROW => telling::outcome(table, x, lent, out),
        REPORT_ROW => telling::report(table, session.records, out),
        SHOW_ROW => telling::show(table, lent, out),
        SAY_ROW => said(line, out),
        SEARCH_ROW => telling::search(table, x, out),
        COUNT_ROW => telling::count(table, number_at(numbers, 0) as u64, session.places, out),
        _ => replies::put_help(out, 0),
    }
}

// The commands that lend something, note a row of rules, or set something by force.
fn forced(
    session: &mut Session,
    command: Asked,
    number: u64,
    numbers: &[u32],
    store: &mut [u32],
    out: &mut [u8],
) -> usize {
    let row = command.row;
    match row {
        STORE_ROW => fields::store(session, numbers, store, out),
        RECORDS_ROW => fields::lend(&mut session.records, numbers, out),
        PLACES_ROW => fields::lend(&mut session.places, numbers, out),
        SIZE_ROW => fields::size(session, numbers, out),
        RULE_ROW => fields::rule(session, number, numbers, out),
        _ => fields::set(session, command, numbers, out),
    }
}

// Does what a command asks for: where the text of the answer ends.
// Kept, matches on the row: a table of functions would hand function pointers out, and the arms take other arguments each.
fn done(
    session: &mut Session,
    command: Asked,
    line: &[u8],
    number: u64,
    numbers: &[u32],
    store: &mut [u32],
    entries: &mut [u32],
    out: &mut [u8],
) -> usize {
    let row = command.row;
    match row {
        TABLE_ROW..=TICK_ROW | SPARK_ROW | RULES_ROW => {
            called(session, command, numbers, store, out)
        }
        OUTCOME_ROW | REPORT_ROW | SHOW_ROW | SAY_ROW | SEARCH_ROW | COUNT_ROW | HELP_ROW => {
            told(session, row, numbers, line, store, out)
        }
        SENT_ROW..=COMPARE_ROW => { logged::recorded(session, row, number, numbers, entries, out) }
        _ => forced(session, command, number, numbers, store, out),
    }
}

// Does what a line asks for, and puts the answer at the front of `out`. The numbers are where those of the line are put, the store is what is lent from, and the entries are those of the logs.
pub fn respond(
    session: Session,
    line: &[u8],
    number: u64,
    numbers: &mut [u32],
    store: &mut [u32],
    entries: &mut [u32],
    out: &mut [u8],
) -> Reply
    requires { line_room ≤ length numbers.old }
{
    let mut next = session;
    let end = match commands::command(line, numbers) {
        Ok(None) => 0,
        Ok(Some(command)) => {
            let read = &numbers[..command.count];
            done(&mut next, command, line, number, read, store, entries, out)
        }
        Err(misread) => {
            let word = &line[misread.word.start..misread.word.end];
            replies::put_error(out, 0, number, misread.reason.into(), word)
        }
    };
    Reply { session: next, end }
}
