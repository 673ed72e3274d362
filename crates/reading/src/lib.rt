// One record of a schedule, read from bytes: document 01, "Schedule bytes".

#![tactic(auto)]

mod begin_bytes;

ghost use Rattle.std.specs.Prelude.{◌≡◌, true, ◌≤◌, length, take};
ghost use Rattle.model.specs.Threads.{no_operation};
ghost use Rattle.model.specs.RecordBytes.{is_begin, record_length, kind_byte, lawful};
ghost use Rattle.model.specs.Decoding.{operation_by, front, DecodePromise};
ghost use Rattle.reading.specs.Heads.{lawful_head};

use model::{Answer, Decoded, Operation, Record};

// Kept, numbers for the kinds and no enum: a record's kind is any byte, for which `record_length` and `is_begin` answer, and of which `writing::write` says whether it is lawful.

// The kind of the record that makes a table, the first of a schedule.
pub const TABLE: u8 = 0;

// The kind of a begin.
pub const BEGIN: u8 = 1;

// The kind of a step.
pub const STEP: u8 = 2;

// The kind of a cancel.
pub const CANCEL: u8 = 3;

// The kind of a tick.
pub const TICK: u8 = 4;

// The kind of a begin with a set, the last kind there is.
pub const SET: u8 = 5;

// How many bytes a begin has.
pub const BEGIN_BYTES: usize = 42;

// How many bytes a begin with a set has.
pub const SET_BYTES: usize = 46;

// How many bytes any other record has, and every record starts with.
pub const HEAD_BYTES: usize = 4;

// How many bytes the longest record has.
pub const LONGEST: usize = SET_BYTES;

// The first byte of every record.
pub const FIRST_MARK: u8 = 0x4C;

// The second byte of every record.
pub const SECOND_MARK: u8 = 0x34;

// The place of the kind in a record's bytes.
pub const KIND: usize = 2;

// The place of the thread.
pub const THREAD: usize = 3;

// The place of a begin's parts byte.
pub const PARTS: usize = 4;

// The place of the thread a begin sends to.
pub const TARGET: usize = 5;

// The place of the thread a begin receives from.
pub const PARTNER: usize = 6;

// The place of the number of words a begin sends.
pub const COUNT: usize = 7;

// The place of a begin's time code for sending.
pub const SEND_TIME: usize = 8;

// The place of a begin's time code for receiving.
pub const RECEIVE_TIME: usize = 9;

// The place of the first of a begin's eight words.
pub const FIRST_WORD: usize = 10;

// The place of a begin's set, behind its words.
pub const SET_WORD: usize = 42;

// The refusal of a record that is unlawful, cut short, or longer than the bytes it is to be written to.
pub const BAD_RECORD: u8 = 12;

// How many bytes a record of a kind has.
#[tactic(auto, unfolding(model::specs::RecordBytes::record_length))]
pub fn record_length(kind: u8) -> usize
    ensures { result ≡ record_length kind }
{
    match kind {
        BEGIN => BEGIN_BYTES,
        SET => SET_BYTES,
        _ => HEAD_BYTES,
    }
}

// A record of this kind is a begin, with a set or without.
#[tactic(auto, unfolding(model::specs::RecordBytes::is_begin))]
pub fn is_begin(kind: u8) -> bool
    ensures { result ≡ is_begin kind }
{
    (kind == BEGIN) | (kind == SET)
}

// The first N bytes, of which there are as many.
fn first_of<const N: usize>(bytes: &[u8]) -> &[u8; N]
    requires { N ≤ length bytes.now }
    ensures { result.now ≡ take N bytes.now }
{
    bytes.first_chunk().unwrap()
}

// The rules of every record that its first four bytes decide.
fn lawful_head(first: bool, bytes: &[u8]) -> bool
    requires { 4 ≤ length bytes.now }
    ensures { result ≡ lawful_head first bytes.now }
{
    let kind = bytes[KIND];
    (bytes[0] == FIRST_MARK)
        & (bytes[1] == SECOND_MARK)
        & (kind <= SET)
        & (first == (kind == TABLE))
        & (!(kind == TICK) | (bytes[THREAD] == 0))
}

// The bytes start with a lawful record, which is the first of its schedule or a later one.
pub fn is_lawful(first: bool, bytes: &[u8]) -> bool
    ensures { result ≡ lawful first (front bytes.now) }
{
    if bytes.len() < HEAD_BYTES {
        return false;
    }
    if !lawful_head(first, bytes) {
        return false;
    }
    let kind = bytes[KIND];
    if !is_begin(kind) {
        return true;
    }
    if bytes.len() < record_length(kind) {
        return false;
    }
    let begin = first_of(bytes);
    begin_bytes::lawful_begin(begin) & ((kind == BEGIN) | begin_bytes::lawful_set(begin))
}

// The operation of a begin, by its kind.
pub fn operation_at(bytes: &[u8]) -> Operation
    requires bytes_value { is_begin (kind_byte bytes.now) ≡ true }
    requires bytes_in_bounds { record_length (kind_byte bytes.now) ≤ length bytes.now }
    ensures { result ≡ operation_by (kind_byte bytes.now) bytes.now }
{
    let begin = first_of(bytes);
    let send = begin_bytes::send_at(begin);
    if bytes[KIND] == BEGIN {
        let receive = begin_bytes::receive_at(begin);
        return Operation { send, receive };
    }
    let receive = begin_bytes::set_at(first_of(bytes));
    Operation { send, receive }
}

// A record without an operation.
fn bare_record(kind: u8, thread: u8) -> Record
    ensures { result ≡ record { kind = kind; thread = thread; op = no_operation } }
{
    Record {
        kind: kind,
        thread: thread,
        op: threads::no_operation(),
    }
}

// The record at the front of the bytes, which is the first of its schedule or a later one; refused, one that is all zero.
pub fn read(first: bool, bytes: &[u8]) -> Decoded
    ensures { DecodePromise first bytes.now result.answer result.item }
{
    if !is_lawful(first, bytes) {
        let nothing = bare_record(0, 0);
        return Decoded {
            answer: Answer::Refused(BAD_RECORD),
            item: nothing,
        };
    }
    let kind = bytes[KIND];
    let thread = bytes[THREAD];
    if !is_begin(kind) {
        let item = bare_record(kind, thread);
        return Decoded {
            answer: Answer::Accepted,
            item: item,
        };
    }
    let op = operation_at(bytes);
    let item = Record {
        kind: kind,
        thread: thread,
        op: op,
    };
    Decoded {
        answer: Answer::Accepted,
        item: item,
    }
}
