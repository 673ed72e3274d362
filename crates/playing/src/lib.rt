// A schedule is played on: its records, as their bytes come in, from a table that needs no check.

#![tactic(auto)]

ghost use Rattle.std.specs.Prelude.{◌≡◌, length};
ghost use Rattle.model.specs.Promise.{state};
ghost use Rattle.pieces.specs.Playing.{whole_record};
ghost use Rattle.playing.specs.Playback.{Playable, PlayPromise, Carries};
ghost use Rattle.playing.specs.Record.{Ready, Plays};

use model::{EntryPoint, Table};
use opening::Playback;

// How far playing came, and whether an unlawful record stands there.
// Kept, a flag beside the playback: `PlayPromise` settles the playback in both cases.
#[derive(Clone, Copy)]
pub struct Played {
    pub playback: Playback,
    pub bad: bool,
}

// The bytes of a whole record have come in.
fn is_whole(bytes: &[u8]) -> bool
    ensures { result ≡ whole_record bytes.now }
{
    bytes.len() >= reading::HEAD_BYTES
        && bytes.len() >= reading::record_length(bytes[reading::KIND])
}

// Makes the call of the lawful record at the front of the bytes, and tells whether it was accepted.
fn play_record(table: &mut Table, store: &mut [u32], bytes: &[u8]) -> bool
    requires { Ready (state table.old store.old) bytes.now }
    ensures { Plays bytes.now (state table.old store.old) result (state table.new store.new) }
{
    let kind = bytes[reading::KIND];
    let x = bytes[reading::THREAD];
    if kind == reading::TICK {
        unchecked::tick_in(table);
        return true;
    }
    if table.n <= x {
        return false;
    }
    if kind == reading::STEP {
        unchecked::step_in(table, x, store);
        return true;
    }
    let i = x as usize;
    if kind == reading::CANCEL {
        if table.threads[i].owner != threads::NOBODY {
            return false;
        }
        unchecked::cancel_in(table, x);
        return true;
    }
    let op = reading::operation_at(bytes);
    if refusals::begin_refusal(EntryPoint::Main, table.n, x, table.threads[i], op).is_err() {
        return false;
    }
    unchecked::begin_in(table, x, op, store);
    true
}

// Plays the lawful records at the front of the bytes, one after the other.
pub fn play(from: Playback, store: &mut [u32], bytes: &[u8]) -> Played
    requires { Playable from store.old (length bytes.now) }
    ensures played { PlayPromise from store.old bytes.now result.playback store.new result.bad }
    ensures carries { Carries from (length bytes.now) result.playback store.new }
{
    let mut now = from;
    let mut at: usize = 0;
    // Kept: no `for` counts it, for each turn goes on by a record's length.
    while reading::is_lawful(false, &bytes[at..]) {
        let record = &bytes[at..];
        if !play_record(&mut now.table, store, record) {
            now.refused += 1;
        }
        now.records += 1;
        at += reading::record_length(record[reading::KIND]);
    }
    now.place += at as u64;
    Played {
        playback: now,
        bad: is_whole(&bytes[at..]),
    }
}
