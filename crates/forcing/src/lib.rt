// A field of a thread set by force, as no call would, by the numbers and the operation of a line.

#![tactic(auto)]

use commands::{
    Asked, COPIED_ROW, FLAGS_ROW, OPERATION_ROW, OUTCOME_FIELD_ROW, OWNER_ROW, PHASE_ROW,
    PRESENT_ROW, QUEUE_ROW, QUEUELENGTH_ROW, TARGET_ROW, WAKING_ROW,
};
use model::{Flags, Outcome, Queue, Thread};

// The number at a place of a list; 0 past its end.
pub fn number_at(numbers: &[u32], i: usize) -> u32 {
    numbers.get(i).copied().unwrap_or(0)
}

// The lesser of a number and 255.
fn byte_of(number: u32) -> u8 {
    number.min(255) as u8
}

// The byte at a place of a list.
pub fn byte_at(numbers: &[u32], i: usize) -> u8 {
    byte_of(number_at(numbers, i))
}

// Flags by five numbers, behind the thread's.
fn flags_of(named: &[u32]) -> Flags {
    Flags {
        ipc: byte_at(named, 1) != 0,
        send: byte_at(named, 2) != 0,
        receiving: byte_at(named, 3) != 0,
        poll: byte_at(named, 4) != 0,
        mark: byte_at(named, 5) != 0,
    }
}

// A code by its sign and its number.
fn code_of(negative: bool, number: u32) -> i32 {
    if 65535 < number {
        return 0;
    }
    let code = number as i32;
    if negative { -code } else { code }
}

// An outcome by its numbers, behind the thread's.
fn outcome_of(named: &[u32]) -> Outcome {
    Outcome {
        code: code_of(byte_at(named, 1) != 0, number_at(named, 2)),
        source: byte_at(named, 3),
        count: byte_at(named, 4),
    }
}

// A queue of the senders that stand behind the thread's number.
fn queue_of(named: &[u32]) -> Queue {
    let mut items = [0; 32];
    for (i, item) in items.iter_mut().enumerate() {
        *item = byte_at(named, i + 1);
    }
    let waiting = named.len().saturating_sub(1).min(32);
    Queue {
        items,
        len: waiting as u8,
    }
}

// The lesser of a number and 65535.
fn ticks_of(number: u32) -> u16 {
    number.min(65535) as u16
}

// A thread with the field set that a row names.
pub fn changed(thread: Thread, command: Asked, named: &[u32]) -> Thread {
    let value = byte_at(named, 1);
    let mut next = thread;
    match command.row {
        FLAGS_ROW => next.flags = flags_of(named),
        PHASE_ROW => next.phase = value,
        OWNER_ROW => next.owner = value,
        OUTCOME_FIELD_ROW => next.outcome = outcome_of(named),
        COPIED_ROW => next.copied = value,
        WAKING_ROW => next.waking = value,
        QUEUE_ROW => next.queue = queue_of(named),
        QUEUELENGTH_ROW => next.queue.len = value,
        OPERATION_ROW => next.op = command.op,
        TARGET_ROW => next.op.send.target = value,
        PRESENT_ROW => next.op.send.present = value != 0,
        _ => next.left = ticks_of(number_at(named, 1)),
    }
    next
}
