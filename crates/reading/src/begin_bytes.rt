// The bytes of a begin past its head: which parts its operation has, their fields, eight words, and a set where its kind has one.
ghost use Rattle.std.specs.Prelude.{◌≡◌, ◌||◌, ◌+◌, ◌*◌, ◌≤◌, ◌<◌, length, eqb, ltb};
ghost use Rattle.model.specs.Lists.{all_below, up_to};
ghost use Rattle.model.specs.RecordBytes.{word_at, send_bit, receive_bit, open_bit, lawful_begin, lawful_set};
ghost use Rattle.model.specs.Decoding.{receive_of, operation_of, set_operation_of};

use crate::{
    BEGIN_BYTES, COUNT, FIRST_WORD, PARTNER, PARTS, RECEIVE_TIME, SEND_TIME, SET_BYTES, TARGET,
};
use model::{Receive, SendPart, Wait};

// The parts byte of an operation with every part.
const ALL_PARTS: u8 = 7;

// The parts byte has a send part.
#[tactic(auto, unfolding(model::specs::RecordBytes::send_bit))]
fn send_bit(parts: u8) -> bool
    ensures { result ≡ send_bit parts }
{
    parts % 2 == 1
}

// The parts byte has a receive part.
#[tactic(auto, unfolding(model::specs::RecordBytes::receive_bit))]
fn receive_bit(parts: u8) -> bool
    ensures { result ≡ receive_bit parts }
{
    parts / 2 % 2 == 1
}

// The parts byte says that the receive part is open.
#[tactic(auto, unfolding(model::specs::RecordBytes::open_bit))]
fn open_bit(parts: u8) -> bool
    ensures { result ≡ open_bit parts }
{
    parts / 4 % 2 == 1
}

// Word i of a begin, low byte first.
fn word_at(bytes: &[u8], i: usize) -> u32
    requires { 10 + 4 * i + 4 ≤ length bytes.now }
    ensures { result ≡ word_at bytes.now i }
{
    let at = FIRST_WORD + 4 * i;
    u32::from_le_bytes([bytes[at], bytes[at + 1], bytes[at + 2], bytes[at + 3]])
}

// The words past the count are 0.
fn no_word_past(bytes: &[u8; BEGIN_BYTES], count: u8) -> bool
    ensures { result ≡ all_below 8 (λ i. ltb i count || eqb (word_at bytes.now i) 0) }
{
    for i in usize::from(count)..8 {
        if word_at(bytes, i) != 0 {
            return false;
        }
    }
    true
}

// The rules of a begin.
pub fn lawful_begin(bytes: &[u8; BEGIN_BYTES]) -> bool
    ensures { result ≡ lawful_begin bytes.now }
{
    let parts = bytes[PARTS];
    let sends = send_bit(parts);
    let receives = receive_bit(parts);
    let open = open_bit(parts);
    (parts <= ALL_PARTS)
        & (!open | receives)
        & (sends | ((bytes[TARGET] == 0) & (bytes[COUNT] == 0) & (bytes[SEND_TIME] == 0)))
        & (receives | (bytes[RECEIVE_TIME] == 0))
        & ((receives & !open) | (bytes[PARTNER] == 0))
        & no_word_past(bytes, bytes[COUNT])
}

// The rules of a begin with a set.
pub fn lawful_set(bytes: &[u8; BEGIN_BYTES]) -> bool
    ensures { result ≡ lawful_set bytes.now }
{
    let parts = bytes[PARTS];
    receive_bit(parts) & !open_bit(parts) & (bytes[PARTNER] == 0)
}

// The eight words of a begin.
fn words_at(bytes: &[u8; BEGIN_BYTES]) -> [u32; 8]
    ensures { result ≡ up_to 8 (word_at bytes.now) }
{
    let mut words = [0u32; 8];
    for i in 0..8 {
        words[i] = word_at(bytes, i);
    }
    words
}

// The send part of a begin.
#[tactic(auto, unfolding(model::specs::Decoding::operation_of))]
pub fn send_at(bytes: &[u8; BEGIN_BYTES]) -> SendPart
    ensures { result ≡ (operation_of bytes.now).send }
{
    let words = words_at(bytes);
    SendPart {
        present: send_bit(bytes[PARTS]),
        target: bytes[TARGET],
        count: bytes[COUNT],
        time: bytes[SEND_TIME],
        words: words,
    }
}

// The receive part of a begin.
pub fn receive_at(bytes: &[u8; BEGIN_BYTES]) -> Receive
    ensures { result ≡ receive_of bytes.now }
{
    let parts = bytes[PARTS];
    if !receive_bit(parts) {
        return Receive::Absent;
    }
    let wait = Wait {
        time: bytes[RECEIVE_TIME],
        partner: bytes[PARTNER],
    };
    if open_bit(parts) {
        return Receive::Open(wait);
    }
    Receive::Closed(wait)
}

// The receive part of a begin with a set, which is its ninth word.
#[tactic(auto, unfolding(model::specs::Decoding::set_operation_of))]
pub fn set_at(bytes: &[u8; SET_BYTES]) -> Receive
    ensures { result ≡ (set_operation_of bytes.now).receive }
{
    let time = bytes[RECEIVE_TIME];
    let set = word_at(bytes, 8);
    Receive::OneOf(time, set)
}
