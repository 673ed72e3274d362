// Which command a line is: the row of the grammar, the numbers, and the operation that its words spell; or why it is none.

#![tactic(auto)]

ghost use Rattle.std.specs.Prelude.{◌≡◌, ◌+◌, ◌≤◌, length, take, drop};
ghost use Rattle.language.specs.Words.{words};
ghost use Rattle.scanning.specs.Scanned.{between};
ghost use Rattle.language.specs.Grammar.{number_letters};
ghost use Rattle.language.specs.Commands.{read_numbers, read_rest, read_row, read_field, from_words, command_of};
ghost use Rattle.commands.specs.Standing.{progress, Advanced, Placed, Demands, Parses, row_room, rest_room, line_room, from_first};

mod cursors;
mod operations;
mod receives;
mod rows;

pub use cursors::Cursor;
use cursors::{read_more, read_numbers};
pub use letters::Reason;
use letters::most_more;
use model::Operation;
use operations::read_parts;
use rows::{Row, find_row, letters_of, rest_letter};
use scanning::{Span, next_word, without_return};
use threads::no_operation;

// The rows of the grammar: first the commands.
// Kept: numbers, no enum. `find_row` of language/specs/Grammar counts the rows, `kind_asked` of RecordText takes the first five for kinds of records, and an enum would name all 35 a second time to come from a place of the table to its variant.
pub const TABLE_ROW: u8 = 0;

pub const BEGIN_ROW: u8 = 1;

pub const STEP_ROW: u8 = 2;

pub const CANCEL_ROW: u8 = 3;

pub const TICK_ROW: u8 = 4;

pub const OUTCOME_ROW: u8 = 5;

pub const REPORT_ROW: u8 = 6;

pub const SHOW_ROW: u8 = 7;

pub const SAY_ROW: u8 = 8;

pub const STORE_ROW: u8 = 9;

pub const RECORDS_ROW: u8 = 10;

pub const SIZE_ROW: u8 = 11;

pub const HELP_ROW: u8 = 12;

pub const SEARCH_ROW: u8 = 14;

pub const SPARK_ROW: u8 = 15;

pub const RULE_ROW: u8 = 16;

pub const RULES_ROW: u8 = 17;

pub const COUNT_ROW: u8 = 18;

pub const PLACES_ROW: u8 = 19;

pub const SENT_ROW: u8 = 20;

pub const RECEIVED_ROW: u8 = 21;

pub const COMPARE_ROW: u8 = 22;

// Then the fields that `set` can set.
pub const FLAGS_ROW: u8 = FIRST_FIELD as u8;

pub const PHASE_ROW: u8 = FLAGS_ROW + 1;

pub const LEFT_ROW: u8 = FLAGS_ROW + 2;

pub const OWNER_ROW: u8 = FLAGS_ROW + 3;

pub const OUTCOME_FIELD_ROW: u8 = FLAGS_ROW + 4;

pub const COPIED_ROW: u8 = FLAGS_ROW + 5;

pub const WAKING_ROW: u8 = FLAGS_ROW + 6;

pub const QUEUE_ROW: u8 = FLAGS_ROW + 7;

pub const QUEUELENGTH_ROW: u8 = FLAGS_ROW + 8;

pub const OPERATION_ROW: u8 = FLAGS_ROW + 9;

pub const TARGET_ROW: u8 = FLAGS_ROW + 10;

pub const PRESENT_ROW: u8 = FLAGS_ROW + 11;

// `set`, the command whose second word is a field; no line asks for this row itself.
const SET_ROW: usize = 13;

// The first row that is a field, and how many fields there are.
const FIRST_FIELD: usize = 23;

const FIELDS: usize = 12;

// The most bytes of a line.
const LINE_LIMIT: usize = 4095;

// How many numbers a caller must have room for.
pub const ROOM: usize = 4128;

// Room for the numbers of a line, none read yet.
pub fn no_numbers() -> [u32; ROOM]
    ensures { line_room ≡ length result }
{
    [0; ROOM]
}

// What a line asks for: a row with its numbers, as many as count, and its operation.
#[derive(Clone, Copy)]
pub struct Asked {
    pub row: u8,
    pub count: usize,
    pub op: Operation,
}

// Why a line is no command, and which word is wrong.
#[derive(Clone, Copy)]
pub struct Misread {
    pub reason: Reason,
    pub word: Span,
}

// A row that is asked for.
fn of_row(row: Row, count: usize, op: Operation) -> Asked
    ensures { result ≡ record { row = row.place; count = count; op = op } }
{
    Asked {
        row: row.place as u8,
        count,
        op,
    }
}

// The numbers of a row.
fn read_letters(
    line: &[u8],
    row: Row,
    cursor: Cursor,
    numbers: &mut [u32],
) -> Result<Cursor, Misread>
    requires at_in_bounds { cursor.at ≤ length line.now }
    requires row_room_in_bounds { cursor.count + row_room ≤ length numbers.old }
    ensures { Advanced line.now numbers.new (read_numbers (number_letters row.place) (progress line.now numbers.old cursor)) (cursor.count + row_room) result }
{
    read_numbers(line, letters_of(row), cursor, numbers)
}

// What stands behind the numbers of a row, by the row's last letter: an operation, anything, or more numbers.
fn read_rest(line: &[u8], row: Row, cursor: Cursor, numbers: &mut [u32]) -> Result<Asked, Misread>
    requires at_in_bounds { cursor.at ≤ length line.now }
    requires rest_room_in_bounds { cursor.count + rest_room ≤ length numbers.old }
    ensures { Demands line.now numbers.new (read_rest row.place (progress line.now numbers.old cursor)) result }
{
    match rest_letter(row) {
        b'p' => {
            let op = read_parts(line, cursor.at)?;
            Ok(of_row(row, cursor.count, op))
        }
        b'a' => Ok(of_row(row, cursor.count, no_operation())),
        letter => {
            let last = read_more(line, letter, most_more(letter), cursor, numbers)?;
            Ok(of_row(row, last.count, no_operation()))
        }
    }
}

// A line by its row.
fn read_row(line: &[u8], row: Row, cursor: Cursor, numbers: &mut [u32]) -> Result<Asked, Misread>
    requires at_in_bounds { cursor.at ≤ length line.now }
    requires rest_room_in_bounds { cursor.count + (row_room + rest_room) ≤ length numbers.old }
    ensures { Demands line.now numbers.new (read_row row.place (progress line.now numbers.old cursor)) result }
{
    let last = read_letters(line, row, cursor, numbers)?;
    read_rest(line, row, last, numbers)
}

// The field of `set`, behind the thread.
fn read_field(line: &[u8], cursor: Cursor, numbers: &mut [u32]) -> Result<Asked, Misread>
    requires at_in_bounds { cursor.at ≤ length line.now }
    requires rest_room_in_bounds { cursor.count + (row_room + rest_room) ≤ length numbers.old }
    ensures { Demands line.now numbers.new (read_field (progress line.now numbers.old cursor)) result }
{
    let word = next_word(line, cursor.at);
    let unknown = Misread {
        reason: Reason::NoField,
        word,
    };
    if word.start == word.end {
        return Err(unknown);
    }
    let Some(row) = find_row(&line[word.start..word.end], FIRST_FIELD, FIELDS) else {
        return Err(unknown);
    };
    let behind = Cursor {
        at: word.end,
        count: cursor.count,
    };
    read_row(line, row, behind, numbers)
}

// A line by its first word.
fn read_first(line: &[u8], word: Span, numbers: &mut [u32]) -> Result<Asked, Misread>
    requires placed { Placed line.now word.start word.end }
    requires line_room_in_bounds { line_room ≤ length numbers.old }
    ensures { Demands line.now numbers.new (from_first (between word.start word.end line.now) (words (drop word.end line.now))) result }
{
    let Some(row) = find_row(&line[word.start..word.end], 0, FIRST_FIELD) else {
        return Err(Misread {
            reason: Reason::NoCommand,
            word,
        });
    };
    let behind = Cursor {
        at: word.end,
        count: 0,
    };
    if row.place == SET_ROW {
        let thread = read_letters(line, row, behind, numbers)?;
        return read_field(line, thread, numbers);
    }
    read_row(line, row, behind, numbers)
}

// A line that is not too long, by its words: nothing where it is skipped.
fn read_line(line: &[u8], numbers: &mut [u32]) -> Result<Option<Asked>, Misread>
    requires { line_room ≤ length numbers.old }
    ensures { Parses line.now numbers.new (from_words (words line.now)) result }
{
    let word = next_word(line, 0);
    if word.start == word.end {
        return Ok(None);
    }
    if line[word.start] == b'#' {
        return Ok(None);
    }
    let asked = read_first(line, word, numbers)?;
    Ok(Some(asked))
}

// Which command a line is: nothing where it is skipped.
pub fn command(line: &[u8], numbers: &mut [u32]) -> Result<Option<Asked>, Misread>
    requires { line_room ≤ length numbers.old }
    ensures parses { Parses line.now numbers.new (command_of line.now) result }
    ensures numbers_len_unchanged { length numbers.new ≡ length numbers.old }
{
    let end = without_return(line);
    if LINE_LIMIT < end {
        return Err(Misread {
            reason: Reason::TooLong,
            word: Span { start: 0, end: 0 },
        });
    }
    read_line(&line[..end], numbers)
}
