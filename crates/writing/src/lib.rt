// One record of a schedule, written as bytes: document 01, "Schedule bytes".

#![tactic(auto)]

ghost use Rattle.std.specs.Prelude.{◌≡◌, ◌++◌, map, ◌+◌, ◌≤◌, length, take, drop};
ghost use Rattle.model.specs.Lists.{concat};
ghost use Rattle.model.specs.Encoding.{partner_of, word_bytes, set_of, parts_of, all_zero, EncodePromise};
ghost use Rattle.writing.specs.Spelled.{spelled, fits_kind};

use model::{Answer, Operation, Receive, Record};
use reading::{
    BAD_RECORD, COUNT, FIRST_MARK, FIRST_WORD, HEAD_BYTES, KIND, LONGEST, PARTNER, PARTS,
    RECEIVE_TIME, SECOND_MARK, SEND_TIME, SET, SET_WORD, TARGET, THREAD,
};

// The partner that a receive part holds; 0 without one.
fn partner_of(receive: Receive) -> u8
    ensures { result ≡ partner_of receive }
{
    match receive {
        Receive::Absent => 0,
        Receive::Open(w) => w.partner,
        Receive::Closed(w) => w.partner,
        Receive::OneOf(_, _) => 0,
    }
}

// The set that a receive part names; 0 without one.
fn set_of(receive: Receive) -> u32
    ensures { result ≡ set_of receive }
{
    match receive {
        Receive::Absent => 0,
        Receive::Open(_) => 0,
        Receive::Closed(_) => 0,
        Receive::OneOf(_, set) => set,
    }
}

// The parts byte of an operation.
fn parts_of(op: Operation) -> u8
    ensures { result ≡ parts_of op }
{
    u8::from(op.send.present)
        + 2 * u8::from(threads::has_receive(op.receive))
        + 4 * u8::from(threads::is_open(op.receive))
}

// A word from a place on, low byte first.
fn put_word(bytes: &mut [u8], start: usize, word: u32)
    requires { start + 4 ≤ length bytes.old }
    ensures { bytes.new ≡ take start bytes.old ++ word_bytes word ++ drop (start + 4) bytes.old }
{
    bytes[start..start + 4].copy_from_slice(&word.to_le_bytes());
}

// The eight words of a begin.
fn put_words(bytes: &mut [u8], words: [u32; 8])
    requires { 42 ≤ length bytes.old }
    ensures { bytes.new ≡ take 10 bytes.old ++ concat (map word_bytes words) ++ drop 42 bytes.old }
{
    for i in 0..8 {
        put_word(bytes, FIRST_WORD + 4 * i, words[i]);
    }
}

// A record as if it were a begin with a set: its head, and the bytes of its operation.
fn spell(item: Record) -> [u8; LONGEST]
    ensures { result ≡ spelled item }
{
    let op = item.op;
    let send = op.send;
    let receive = op.receive;
    let words = send.words;
    let set = set_of(receive);
    let mut bytes = [0u8; LONGEST];
    bytes[0] = FIRST_MARK;
    bytes[1] = SECOND_MARK;
    bytes[KIND] = item.kind;
    bytes[THREAD] = item.thread;
    bytes[PARTS] = parts_of(op);
    bytes[TARGET] = send.target;
    bytes[PARTNER] = partner_of(receive);
    bytes[COUNT] = send.count;
    bytes[SEND_TIME] = send.time;
    bytes[RECEIVE_TIME] = threads::receive_time(receive);
    put_words(&mut bytes, words);
    put_word(&mut bytes, SET_WORD, set);
    bytes
}

// Every byte is 0.
fn all_zero(bytes: &[u8]) -> bool
    ensures { result ≡ all_zero bytes.now }
{
    bytes.iter().all(|b| *b == 0)
}

// The operation of a record is one of its kind: that of a begin names a set exactly if the kind has one, the bytes of any other are 0.
fn fits_kind(kind: u8, receive: Receive, bytes: &[u8]) -> bool
    requires { 4 ≤ length bytes.now }
    ensures { result ≡ fits_kind kind receive bytes.now }
{
    if reading::is_begin(kind) {
        return (kind == SET) == threads::names_set(receive);
    }
    all_zero(&bytes[HEAD_BYTES..])
}

// Bytes over the first of others.
fn copy_front(from: &[u8], to: &mut [u8])
    requires { length from.now ≤ length to.old }
    ensures { to.new ≡ from.now ++ drop (length from.now) to.old }
{
    to[..from.len()].copy_from_slice(from);
}

// The record over the first bytes, which is the first of its schedule or a later one; refused, the bytes are as they were.
pub fn write(first: bool, item: Record, bytes: &mut [u8]) -> Answer
    ensures { EncodePromise first item bytes.old result bytes.new }
{
    let space = spell(item);
    let op = item.op;
    let receive = op.receive;
    if !fits_kind(item.kind, receive, &space) {
        return Answer::Refused(BAD_RECORD);
    }
    if !reading::is_lawful(first, &space) {
        return Answer::Refused(BAD_RECORD);
    }
    let n = reading::record_length(item.kind);
    if bytes.len() < n {
        return Answer::Refused(BAD_RECORD);
    }
    copy_front(&space[..n], bytes);
    Answer::Accepted
}
