// The report, into as many records as are lent.
ghost use Rattle.std.specs.Prelude.{◌≤◌};

use crate::lines::tell_answer;
use model::{Answer, Outcome, Table};
use text::{NEWLINE, Text};

// The most records that are lent.
pub const RECORDS: usize = 40;

// What every number of every record is filled with before a report: no outcome has it.
const NUMBER: u8 = 77;

// What the report call answered, and the records after it.
// Kept, no Result: `compare` of the console's `watching` looks at the records of a refused report too.
#[derive(Clone, Copy)]
pub struct Filled {
    pub answer: Answer,
    pub records: [Outcome; 40],
}

// A record as it is before a report.
pub fn blank() -> Outcome {
    Outcome {
        code: 77,
        source: NUMBER,
        count: NUMBER,
    }
}

// The report call into the first len of these records.
fn fill(table: Table, records: [Outcome; 40], len: usize) -> Filled
    requires { len ≤ 40 }
{
    let mut filled = records;
    let answer = report::report_into(table, &mut filled[..len]);
    Filled {
        answer: answer,
        records: filled,
    }
}

// The report call into so many records, 40 at most.
pub fn report_to(table: Table, len: usize) -> Filled {
    fill(table, [blank(); 40], len.min(RECORDS))
}

// The report of all threads into so many records, a line each.
pub fn report(table: Table, len: usize, out: &mut [u8]) -> usize {
    let mut text = Text::new(out);
    let filled = report_to(table, len);
    if let Answer::Refused(_) = filled.answer {
        tell_answer(&mut text, filled.answer);
        return text.len();
    }
    for (i, record) in filled.records[..len.min(RECORDS)].iter().enumerate() {
        printing::put_outcome(&mut text, i as u8, *record);
        text.byte(NEWLINE);
    }
    text.len()
}
