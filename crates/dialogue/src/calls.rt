// The commands that call the engine. Each answers where the text of its answer ends.
use crate::sessions::Session;
use forcing::byte_at;
use model::{Answer, EntryPoint, Operation, Returned};
use telling::{put_line, put_loaded, put_word};

// The table that a call returned is kept, and its answer is told.
fn put_returned(session: &mut Session, returned: Returned, out: &mut [u8]) -> usize {
    session.table = returned.table;
    put_line(out, 0, returned.answer)
}

// A new table, a store of 8×N zeros and N records; the rows and entries noted and the places lent stay. Refused, everything is as it was.
pub fn table(session: &mut Session, n: u8, store: &mut [u32], out: &mut [u8]) -> usize {
    let made = engine::make(n);
    if let Answer::Refused(_) = made.answer {
        return put_line(out, 0, made.answer);
    }
    store.fill(0);
    session.table = made.table;
    session.words = 8 * usize::from(n);
    session.records = usize::from(n);
    put_word(out, b"made")
}

// Thread x begins an operation, through the main entry or the spark entry.
pub fn begin(
    session: &mut Session,
    via: EntryPoint,
    x: u8,
    op: Operation,
    store: &mut [u32],
    out: &mut [u8],
) -> usize {
    let words = session.words.min(store.len());
    let lent = &mut store[..words];
    let returned = match via {
        EntryPoint::Main => engine::begin(session.table, x, op, lent),
        EntryPoint::Spark => engine::spark_begin(session.table, x, op, lent),
    };
    put_returned(session, returned, out)
}

// A step of each thread that is named, in this order.
pub fn step(session: &mut Session, named: &[u32], store: &mut [u32], out: &mut [u8]) -> usize {
    let words = session.words.min(store.len());
    let mut end = 0;
    for i in 0..named.len() {
        let returned = engine::step(session.table, byte_at(named, i), &mut store[..words]);
        session.table = returned.table;
        end = put_line(out, end, returned.answer);
    }
    end
}

// A cancel of thread x.
pub fn cancel(session: &mut Session, x: u8, out: &mut [u8]) -> usize {
    let returned = engine::cancel(session.table, x);
    put_returned(session, returned, out)
}

// As many ticks as a line asks for, or one; the answer is that of the last, as they are all accepted or all refused.
pub fn tick(session: &mut Session, named: &[u32], out: &mut [u8]) -> usize {
    let most = named.first().copied().unwrap_or(1);
    let mut returned = engine::tick(session.table);
    for _more in 1..most {
        returned = engine::tick(returned.table);
    }
    put_returned(session, returned, out)
}

// Loads the rows noted since the last loading, and forgets them, refused or not.
pub fn rules(session: &mut Session, out: &mut [u8]) -> usize {
    let loaded = engine::load(session.table, session.noted);
    session.table = loaded.table;
    session.noted.len = 0;
    put_loaded(out, loaded.answer, loaded.misfit)
}
