// The commands on two logs, of sends and of receives: an entry more in one, and a comparison of both. The entries stand in numbers that the caller lends, since a session that held them would be copied with them at every line.
use crate::sessions::Session;
use commands::{RECEIVED_ROW, Reason, SENT_ROW};
use forcing::{byte_at, number_at};
use logs::{Log, LogEntry};
use telling::{put_compared, put_word};

// The most entries that are noted in a log. Room is only for the first 512: those behind them are counted, and not kept.
const MOST_NOTED: u16 = 520;

const MOST_KEPT: u16 = 512;

// The numbers of an entry: sender, target, how many words, and the first eight words.
const NUMBERS: usize = 11;

const FIRST_WORD: usize = 3;

const WORDS: usize = 8;

// How many numbers the entries of a log take, and those of both, the log of sends first.
const ONE_LOG: usize = MOST_KEPT as usize * NUMBERS;

const BOTH_LOGS: usize = 2 * ONE_LOG;

// Room for the entries of both logs.
pub fn no_entries() -> [u32; BOTH_LOGS] {
    [0; BOTH_LOGS]
}

// How many words a line has behind its two threads; 255 stands for more too.
fn words_named(named: &[u32]) -> u32 {
    named.len().saturating_sub(2).min(255) as u32
}

// A number of the entry that a line notes. On the line the words stand right behind the two threads.
fn entry_number(sender: u32, target: u32, named: &[u32], i: usize) -> u32 {
    match i {
        0 => sender,
        1 => target,
        2 => words_named(named),
        _ => number_at(named, i - 1),
    }
}

// The numbers of the entry at a place of a log, as far as there is room for them.
fn put_entry(log: &mut [u32], place: u16, sender: u32, target: u32, named: &[u32]) {
    let start = NUMBERS * usize::from(place);
    for (i, number) in log.iter_mut().skip(start).take(NUMBERS).enumerate() {
        *number = entry_number(sender, target, named, i);
    }
}

// An entry more in a log of so many; or that it takes no more.
fn note(
    log: &mut [u32],
    len: &mut u16,
    number: u64,
    sender: u32,
    target: u32,
    named: &[u32],
    out: &mut [u8],
) -> usize {
    if MOST_NOTED <= *len {
        return replies::put_error(out, 0, number, Reason::LogFull.into(), b"");
    }
    put_entry(log, *len, sender, target, named);
    *len += 1;
    put_word(out, b"noted")
}

// The words of the entry at a place of a log.
fn words_at(log: &[u32], place: u16) -> [u32; WORDS] {
    let start = NUMBERS * usize::from(place) + FIRST_WORD;
    let mut words = [0; WORDS];
    for (i, word) in words.iter_mut().enumerate() {
        *word = number_at(log, start + i);
    }
    words
}

// The entry at a place of a log.
fn entry_at(log: &[u32], place: u16) -> LogEntry {
    let start = NUMBERS * usize::from(place);
    LogEntry {
        sender: byte_at(log, start),
        target: byte_at(log, start + 1),
        count: byte_at(log, start + 2),
        words: words_at(log, place),
    }
}

// A log of so many entries.
fn log_of(log: &[u32], len: u16) -> Log {
    let mut entries = [entry_at(log, 0); MOST_KEPT as usize];
    for place in 0..MOST_KEPT {
        entries[usize::from(place)] = entry_at(log, place);
    }
    Log { entries, len }
}

// Compares both logs, and forgets them, refused or not.
fn compare(session: &mut Session, entries: &[u32], out: &mut [u8]) -> usize {
    let half = ONE_LOG.min(entries.len());
    let sends = log_of(&entries[..half], session.sends);
    let receives = log_of(&entries[half..], session.receives);
    session.sends = 0;
    session.receives = 0;
    put_compared(out, comparison::compare(sends, receives))
}

// The commands on the logs, whose entries stand in these numbers. A line of a receive names the target first.
pub fn recorded(
    session: &mut Session,
    row: u8,
    number: u64,
    named: &[u32],
    entries: &mut [u32],
    out: &mut [u8],
) -> usize {
    let half = ONE_LOG.min(entries.len());
    let first = number_at(named, 0);
    let second = number_at(named, 1);
    match row {
        SENT_ROW => {
            let log = &mut entries[..half];
            note(log, &mut session.sends, number, first, second, named, out)
        }
        RECEIVED_ROW => {
            let log = &mut entries[half..];
            note(
                log,
                &mut session.receives,
                number,
                second,
                first,
                named,
                out,
            )
        }
        _ => compare(session, entries, out),
    }
}
