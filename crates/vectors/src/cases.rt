// The cases: ten numbers each. The first two say of a record to be written whether it is the first, 1, or its operation names a set, 2, and how many bytes are lent, of a begin whether
// thread 0 copies; the others stand where a begin record has them, from its kind on.
ghost use Rattle.std.specs.Prelude.{◌≡◌, true};
ghost use Rattle.model.specs.RecordBytes.{is_begin};

use model::Operation;
use reading::{BEGIN, COUNT, FIRST_WORD, KIND, LONGEST, SET, SET_WORD};

// What the first number says of an operation that names a set.
const NAMES_SET: u8 = 2;

// A number of a case.
pub fn number(case: &[u8], i: usize) -> u8 {
    case.get(i).copied().unwrap_or(0)
}

// A byte of the begin record: a number of the case, or one of its words' bytes, which are 1, 2, 3 and so on, up to its set's.
fn spelled(case: &[u8], i: u8) -> u8 {
    let at = usize::from(i);
    if at < FIRST_WORD {
        return number(case, at);
    }
    let words_end = FIRST_WORD + 4 * usize::from(number(case, COUNT));
    if (at < words_end) | (SET_WORD <= at) {
        return i - 9;
    }
    0
}

// The kind of the begin from which the operation of a case is read.
#[tactic(auto, unfolding(model::specs::RecordBytes::is_begin))]
fn operation_kind(case: &[u8]) -> u8
    ensures { is_begin result ≡ true }
{
    if number(case, 0) == NAMES_SET {
        return SET;
    }
    BEGIN
}

// The operation of a case, lawful or not.
#[tactic(auto, using(laws::proofs::Schedule::record_longest))]
pub fn operation(case: &[u8]) -> Operation {
    let mut bytes = [0u8; LONGEST];
    for i in 0..LONGEST {
        bytes[i] = spelled(case, i as u8);
    }
    bytes[KIND] = operation_kind(case);
    reading::operation_at(&bytes)
}

// Begins without a send part: on a new table, and where the thread copies.
pub fn without_send() -> [[u8; 10]; 4] {
    [
        // no part, to 1, code 15
        [0, 0, 1, 0, 0, 1, 0, 0, 15, 0],
        // open receive, to itself, nine words, code 16
        [0, 0, 1, 0, 6, 0, 0, 9, 16, 15],
        // no part, to itself, nine words, code 16; copying
        [1, 0, 1, 0, 0, 0, 0, 9, 16, 0],
        // the same, idle
        [0, 0, 1, 0, 0, 0, 0, 9, 16, 0],
    ]
}

// Records to be written.
pub fn records() -> [[u8; 10]; 27] {
    [
        // table, first
        [1, 44, 0, 2, 0, 0, 0, 0, 0, 0],
        // table, later
        [0, 44, 0, 2, 0, 0, 0, 0, 0, 0],
        // table into 3 bytes
        [1, 3, 0, 2, 0, 0, 0, 0, 0, 0],
        // table into 4 bytes
        [1, 4, 0, 2, 0, 0, 0, 0, 0, 0],
        // send of nine words, code 99
        [0, 44, 1, 200, 1, 255, 0, 9, 99, 0],
        // send of two words
        [0, 44, 1, 2, 1, 1, 0, 2, 15, 0],
        // call, closed on 3
        [0, 44, 1, 2, 3, 1, 3, 0, 4, 5],
        // open receive
        [0, 42, 1, 2, 6, 0, 0, 0, 0, 15],
        // begin into 41 bytes
        [0, 41, 1, 2, 6, 0, 0, 0, 0, 15],
        // begin, first
        [1, 44, 1, 2, 6, 0, 0, 0, 0, 15],
        // begin of no part
        [0, 44, 1, 2, 0, 0, 0, 0, 0, 0],
        // begin with a target and no send part
        [0, 44, 1, 2, 2, 1, 3, 0, 0, 5],
        // step
        [0, 44, 2, 31, 0, 0, 0, 0, 0, 0],
        // step with an operation
        [0, 44, 2, 31, 6, 0, 0, 0, 0, 15],
        // cancel
        [0, 5, 3, 255, 0, 0, 0, 0, 0, 0],
        // tick
        [0, 44, 4, 0, 0, 0, 0, 0, 0, 0],
        // tick of thread 1
        [0, 44, 4, 1, 0, 0, 0, 0, 0, 0],
        // kind 5 of no operation
        [0, 48, 5, 0, 0, 0, 0, 0, 0, 0],
        // kind 5, closed on 3
        [0, 48, 5, 2, 2, 0, 3, 0, 0, 15],
        // receive closed on a set
        [2, 48, 5, 2, 2, 0, 0, 0, 0, 15],
        // call, two words, then closed on a set
        [2, 48, 5, 2, 3, 1, 0, 2, 4, 15],
        // the same into 46 bytes
        [2, 46, 5, 2, 3, 1, 0, 2, 4, 15],
        // the same into 45 bytes
        [2, 45, 5, 2, 3, 1, 0, 2, 4, 15],
        // two words without a send part, then closed on a set
        [2, 48, 5, 2, 2, 0, 0, 2, 0, 15],
        // kind 1 with a set
        [2, 48, 1, 2, 2, 0, 0, 0, 0, 15],
        // step with a set
        [2, 48, 2, 31, 2, 0, 0, 0, 0, 15],
        // kind 6
        [0, 48, 6, 0, 0, 0, 0, 0, 0, 0],
    ]
}
