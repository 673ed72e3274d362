// The commands that lend a store, records or places, note a row of rules, or set a field by force, as no call would. Each answers where the text of its answer ends.
use crate::sessions::Session;
use commands::{Asked, Reason};
use forcing::{byte_at, number_at};
use model::{Range, Rule};
use telling::put_word;

// From now on a store of so many words, each the same, is lent.
pub fn store(session: &mut Session, named: &[u32], store: &mut [u32], out: &mut [u8]) -> usize {
    session.words = number_at(named, 0) as usize;
    store.fill(number_at(named, 1));
    put_word(out, b"lent")
}

// From now on so many are lent: records to the report, or places to a count.
pub fn lend(lent: &mut usize, named: &[u32], out: &mut [u8]) -> usize {
    *lent = number_at(named, 0) as usize;
    put_word(out, b"lent")
}

// The most rows that are noted. Those from the 65th on are counted, and not kept.
const MOST_NOTED: u8 = 80;

const MOST_KEPT: u8 = 64;

// The row of rules that a line's numbers are.
fn row_of(named: &[u32]) -> Rule {
    let senders = Range {
        from: byte_at(named, 0),
        to: byte_at(named, 1),
    };
    let targets = Range {
        from: byte_at(named, 2),
        to: byte_at(named, 3),
    };
    Rule {
        senders,
        targets,
        permits: number_at(named, 4) == 1,
    }
}

// A row for the next loading.
pub fn rule(session: &mut Session, number: u64, named: &[u32], out: &mut [u8]) -> usize {
    let mut noted = session.noted;
    if MOST_NOTED <= noted.len {
        return replies::put_error(out, 0, number, Reason::RowsFull.into(), b"");
    }
    if noted.len < MOST_KEPT {
        noted.rows[noted.len as usize] = row_of(named);
    }
    noted.len += 1;
    session.noted = noted;
    put_word(out, b"noted")
}

// The table's N.
pub fn size(session: &mut Session, named: &[u32], out: &mut [u8]) -> usize {
    session.table.n = byte_at(named, 0);
    put_word(out, b"set")
}

// A field of a thread of the array.
pub fn set(session: &mut Session, command: Asked, named: &[u32], out: &mut [u8]) -> usize {
    let x = number_at(named, 0) as usize;
    let mut table = session.table;
    if x < 32 {
        table.threads[x] = forcing::changed(table.threads[x], command, named);
    }
    session.table = table;
    put_word(out, b"set")
}
