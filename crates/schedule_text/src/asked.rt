// The records that a line of a schedule stands for, by its row, its numbers and its operation.
ghost use Rattle.std.specs.Prelude.{◌≡◌, ◌<◌, length, get_or};
ghost use Rattle.roundtrip.specs.Fits.{Bytes};
ghost use Rattle.language.specs.RecordText.{threads_of, kind_asked};
ghost use Rattle.schedule_text.specs.Steps.{record_for};

use commands::{BEGIN_ROW, TICK_ROW};
use model::{Operation, Record};
use reading::SET;

// How many records a line stands for: a tick as many as its number says, or one; every other line one for each number.
pub fn how_many(row: u8, numbers: &[u32]) -> usize
    ensures { result ≡ length (threads_of row numbers.now) }
{
    if row != TICK_ROW {
        return numbers.len();
    }
    numbers.first().copied().unwrap_or(1) as usize
}

// The thread of record i of them.
fn thread_at(row: u8, numbers: &[u32], i: usize) -> u8
    requires i_in_bounds { i < length (threads_of row numbers.now) }
    requires bytes { Bytes (threads_of row numbers.now) }
    ensures { result ≡ get_or (threads_of row numbers.now) i 0 }
{
    if row == TICK_ROW {
        return 0;
    }
    numbers[i] as u8
}

// The kind of the records of a line: the first rows are the kinds, but a begin that names a set has one of its own.
#[tactic(auto, unfolding(language::specs::RecordText::kind_asked))]
pub fn kind_asked(row: u8, op: Operation) -> u8
    ensures { result ≡ kind_asked row op }
{
    if row == BEGIN_ROW && threads::names_set(op.receive) {
        return SET;
    }
    row
}

// Record i of them.
pub fn record_at(row: u8, op: Operation, numbers: &[u32], i: usize) -> Record
    requires i_in_bounds { i < length (threads_of row numbers.now) }
    requires bytes { Bytes (threads_of row numbers.now) }
    ensures { result ≡ record_for row op (get_or (threads_of row numbers.now) i 0) }
{
    Record {
        kind: kind_asked(row, op),
        thread: thread_at(row, numbers, i),
        op,
    }
}
