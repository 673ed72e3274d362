// A record through its line and back.
ghost use Rattle.roundtrip.specs.Fits.{Bytes};
ghost use Rattle.language.specs.RecordText.{threads_of};

use crate::asked::{how_many, record_at};
use commands::{TICK_ROW, command, no_numbers};
use model::{Answer, Operation, Record};
use reading::{LONGEST, record_length};
use record_text::put_record;
use text::Text;
use writing::write;

// Two runs of bytes have the same first n.
fn same_front(a: &[u8], b: &[u8], n: usize) -> bool {
    n <= a.len() && n <= b.len() && a[..n] == b[..n]
}

// A line of a schedule stands for one record, which is written as the first of these bytes.
fn writes_one(first: bool, row: u8, op: Operation, numbers: &[u32], bytes: &[u8]) -> bool
    requires { Bytes (threads_of row numbers.now) }
{
    if how_many(row, numbers) != 1 {
        return false;
    }
    let again = record_at(row, op, numbers, 0);
    let mut written = [0u8; LONGEST];
    let answer = write(first, again, &mut written);
    if let Answer::Accepted = answer {
        return same_front(&written, bytes, record_length(again.kind));
    }
    false
}

// The line of a record is read as one record again, which is written as the first of these bytes.
pub fn respelled(first: bool, item: Record, bytes: &[u8]) -> bool {
    let mut space = [0u8; 4096];
    let mut line = Text::new(&mut space);
    put_record(&mut line, item);
    let mut numbers = no_numbers();
    let Ok(Some(asked)) = command(line.front(), &mut numbers) else {
        return false;
    };
    if TICK_ROW < asked.row {
        return false;
    }
    writes_one(first, asked.row, asked.op, &numbers[..asked.count], bytes)
}
