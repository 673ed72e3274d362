// Functions on one thread: each returns what a definition of the model says.

#![tactic(auto)]

ghost use Rattle.std.specs.Prelude.{◌≡◌, cond, ◌^◌, leb};
ghost use Rattle.model.specs.Codes.{is_failure, code_only};
ghost use Rattle.model.specs.Times.{tick_count, fall};
ghost use Rattle.model.specs.Operations.{has_receive, receive_time, open_part, names_set, member, closed_on, accepts, closed_beyond, empty_set};
ghost use Rattle.model.specs.Threads.{no_flags, no_operation, ended, marked, without_receive};
ghost use Rattle.model.specs.Queues.{ready};
ghost use Rattle.model.specs.Calls.{ticked};

use model::{Flags, Operation, Outcome, Receive, SendPart, Thread};

// The codes of document 01; every failure is below zero.
// Kept: numbers and no enum, since an `Outcome` of the definitions holds one (`codes` of model/specs/Codes).
pub const DONE: i32 = 0;

pub const RUNNING: i32 = 1;

pub const NEVER_BEGUN: i32 = 2;

pub const NO_RECEIVER: i32 = -2;

pub const RECEIVE_TIME_OVER: i32 = -3;

pub const SEND_TIME_OVER: i32 = -4;

pub const RECEIVE_CANCELLED: i32 = -5;

pub const SEND_CANCELLED: i32 = -6;

// The phases by their numbers.
// Kept: numbers and no enum, since a `Thread` of the definitions holds one (`phase_number` of model/specs/Phases).
pub const IDLE: u8 = 0;

pub const LOCK: u8 = 1;

pub const CHECK: u8 = 2;

pub const COPY: u8 = 3;

pub const RELEASE: u8 = 4;

pub const SLEEP: u8 = 5;

pub const LOOK: u8 = 6;

pub const WAKE: u8 = 7;

pub const UNLOCK: u8 = 8;

// The most words of a message.
pub const WORD_LIMIT: u8 = 8;

// The most words of a message that begins through the spark entry.
pub const SPARK_LIMIT: u8 = 3;

// The largest time code.
pub const LAST_TIME_CODE: u8 = 15;

// Source 255 means none; a lock's owner 255 is none too.
// Kept: a number and no Option, since an `Outcome` and a `Thread` of the definitions hold it (`nobody` of model/specs/Codes).
pub const NOBODY: u8 = 255;

// left of a thread whose time never runs out.
// Kept: a number and no Option, since a `Thread` of the definitions holds it (`never` of model/specs/Times).
pub const NEVER: u16 = 65535;

// The tick counts of the time codes 0 to 15.
const TICK_COUNTS: [u16; 16] = [
    0, 1, 2, 5, 10, 20, 50, 100, 200, 500, 1000, 2000, 5000, 10000, 20000, NEVER,
];

// A code that stands for a failure.
#[tactic(auto, unfolding(model::specs::Codes::is_failure))]
pub fn is_failure(code: i32) -> bool
    ensures { result ≡ is_failure code }
{
    code < 0
}

// An outcome that is not a completed receive: its code, source 255 and count 0.
pub fn code_only(code: i32) -> Outcome
    ensures { result ≡ code_only code }
{
    Outcome {
        code,
        source: NOBODY,
        count: 0,
    }
}

// The ticks that a time code stands for.
#[tactic(auto, unfolding(model::specs::Times::tick_count))]
pub fn tick_count(code: u8) -> u16
    ensures { result ≡ tick_count code }
{
    TICK_COUNTS.get(code as usize).copied().unwrap_or(0)
}

// left after a tick.
#[tactic(auto, unfolding(model::specs::Times::fall))]
fn fall_by_one(left: u16) -> u16
    ensures { result ≡ fall left }
{
    if left == NEVER {
        return left;
    }
    left.saturating_sub(1)
}

// A receive part is there.
pub fn has_receive(receive: Receive) -> bool
    ensures { result ≡ has_receive receive }
{
    !matches!(receive, Receive::Absent)
}

// The time code of a receive part.
pub fn receive_time(receive: Receive) -> u8
    ensures { result ≡ receive_time receive }
{
    match receive {
        Receive::Absent => 0,
        Receive::Open(w) | Receive::Closed(w) => w.time,
        Receive::OneOf(time, _) => time,
    }
}

// How many threads a set can have, one bit each.
const SET_BITS: u8 = 32;

// Thread s is a member of a set.
#[tactic(auto, using(crate::proofs::Sets::sets), unfolding(model::specs::Operations::member))]
pub fn is_member(set: u32, s: u8) -> bool
    ensures { result ≡ member set s }
{
    if SET_BITS <= s {
        return false;
    }
    (set >> s) % 2 == 1
}

// A set has a member from n on.
#[tactic(auto, using(crate::proofs::Sets::sets))]
fn has_beyond(set: u32, n: u8) -> bool
    ensures { result ≡ leb (2 ^ n) set }
{
    if SET_BITS <= n {
        return false;
    }
    0 < (set >> n)
}

// A receive part that is open, or closed on s.
pub fn accepts_from(receive: Receive, s: u8) -> bool
    ensures { result ≡ accepts receive s }
{
    is_open(receive) | closed_on(receive, s)
}

// A receive part that is open.
pub fn is_open(receive: Receive) -> bool
    ensures { result ≡ open_part receive }
{
    matches!(receive, Receive::Open(_))
}

// A receive part that is closed on s.
#[tactic(auto, using(crate::proofs::Sets::sets), unfolding(model::specs::Operations::closed_on))]
pub fn closed_on(receive: Receive, s: u8) -> bool
    ensures { result ≡ closed_on receive s }
{
    match receive {
        Receive::Absent | Receive::Open(_) => false,
        Receive::Closed(w) => w.partner == s,
        Receive::OneOf(_, set) => is_member(set, s),
    }
}

// A receive part that is closed on a thread that a table of n has not.
#[tactic(auto, using(crate::proofs::Sets::sets), unfolding(model::specs::Operations::closed_beyond))]
pub fn closed_beyond(n: u8, receive: Receive) -> bool
    ensures { result ≡ closed_beyond n receive }
{
    match receive {
        Receive::Absent | Receive::Open(_) => false,
        Receive::Closed(w) => n <= w.partner,
        Receive::OneOf(_, set) => has_beyond(set, n),
    }
}

// A receive part that names a set.
pub fn names_set(receive: Receive) -> bool
    ensures { result ≡ names_set receive }
{
    matches!(receive, Receive::OneOf(_, _))
}

// A receive part that is closed on nobody.
pub fn is_empty(receive: Receive) -> bool
    ensures { result ≡ empty_set receive }
{
    matches!(receive, Receive::OneOf(_, 0))
}

// Document 01's "ready" for s.
#[tactic(auto, unfolding(model::specs::Queues::ready, model::specs::Lists::all_of))]
pub fn is_ready(h: Thread, s: u8) -> bool
    ensures { result ≡ ready h s }
{
    let flags = h.flags;
    flags.ipc & flags.receiving & !flags.send & !flags.mark & accepts_from(h.op.receive, s)
}

// No flag.
pub fn no_flags() -> Flags
    ensures { result ≡ no_flags }
{
    Flags {
        ipc: false,
        send: false,
        receiving: false,
        poll: false,
        mark: false,
    }
}

// An ending: all flags clear, and the outcome.
pub fn end_with(h: Thread, outcome: Outcome) -> Thread
    ensures { result ≡ ended outcome h }
{
    let mut next = h;
    next.flags = no_flags();
    next.outcome = outcome;
    next
}

// An ending that is not a completed receive: all flags clear, the code, source 255 and count 0.
pub fn end_with_code(h: Thread, code: i32) -> Thread
    ensures { result ≡ ended (code_only code) h }
{
    end_with(h, code_only(code))
}

// No operation.
#[tactic(auto, unfolding(model::specs::Threads::no_operation))]
pub fn no_operation() -> Operation
    ensures { result ≡ no_operation }
{
    let send = SendPart {
        present: false,
        target: 0,
        count: 0,
        time: 0,
        words: [0; 8],
    };
    Operation {
        send,
        receive: Receive::Absent,
    }
}

// The receive part dropped.
pub fn drop_receive(h: Thread) -> Thread
    ensures { result ≡ without_receive h }
{
    let mut next = h;
    next.op.receive = Receive::Absent;
    next
}

// The mark set.
pub fn set_mark(h: Thread) -> Thread
    ensures { result ≡ marked h }
{
    let mut next = h;
    next.flags.mark = true;
    next
}

// A cancel of one thread: the mark set if an operation runs.
pub fn mark_running(h: Thread) -> Thread
    ensures { result ≡ cond h.flags.ipc (marked h) h }
{
    if h.flags.ipc { set_mark(h) } else { h }
}

// A tick of one thread.
#[tactic(auto, unfolding(model::specs::Calls::ticked))]
pub fn tick_thread(h: Thread) -> Thread
    ensures { result ≡ ticked h }
{
    if !h.flags.ipc {
        return h;
    }
    let mut next = h;
    next.left = fall_by_one(h.left);
    next
}
