// Tests of one thread by itself, and whom it sends to, copies to and locks: each returns what a definition says.

#![tactic(auto, unfolding(crate::specs::Alone::own_fits, crate::specs::Alone::target_of, formed::specs::Groups::flags_fit, formed::specs::Groups::outcome_fits, formed::specs::Groups::operation_fits, formed::specs::Groups::phase_fits, formed::specs::Groups::queue_fits, formed::specs::Groups::copies_to, model::specs::Lists::implies, model::specs::Lists::all_of, model::specs::Phases::is_one_of, model::specs::Times::is_time_code, model::specs::Times::is_left, model::specs::Times::tick_count, model::specs::WellFormed::nobody_or_below, model::specs::WellFormed::send_in_range, model::specs::WellFormed::receive_in_range))]

ghost use Rattle.std.specs.Prelude.{◌≡◌, [], ◌∷◌, unwrap_or};
ghost use Rattle.model.specs.Codes.{codes, nobody};
ghost use Rattle.model.specs.Locks.{lock_held};
ghost use Rattle.model.specs.Phases.{lock, check, copy, sleep, look, wake, unlock, is_one_of};
ghost use Rattle.model.specs.WellFormed.{is_code, nobody_or_below, send_in_range, receive_in_range};
ghost use Rattle.formed.specs.Groups.{flags_fit, outcome_fits, operation_fits, phase_fits, queue_fits, copies_to};
ghost use Rattle.clauses.specs.Alone.{own_fits, target_of};

use model::{Flags, Operation, Outcome, Queue, Receive, SendPart, Thread};
use threads::{
    CHECK, COPY, DONE, IDLE, LAST_TIME_CODE, LOCK, LOOK, NEVER, NEVER_BEGUN, NO_RECEIVER, NOBODY,
    RELEASE, RUNNING, SEND_CANCELLED, SLEEP, UNLOCK, WAKE, WORD_LIMIT,
};

// The most ticks that left can hold, never apart.
const MOST_TICKS: u16 = 20000;

// A code of document 01: 0 to 2, or a failure, -6 to -2.
#[tactic(auto, using(crate::proofs::Codes::code_bounds))]
fn is_code(code: i32) -> bool
    ensures { result ≡ is_code codes code }
{
    let failure = threads::is_failure(code);
    (!failure & (code <= NEVER_BEGUN))
        | (failure & (SEND_CANCELLED <= code) & (code <= NO_RECEIVER))
}

// A number of a thread of the table, or nobody's.
fn nobody_or_below(n: u8, x: u8) -> bool
    ensures { result ≡ nobody_or_below n x }
{
    (x == NOBODY) | (x < n)
}

// The outcome's numbers are in range; its code is 1 exactly with ipc; source and count are bare unless it is 0.
fn outcome_fits(n: u8, ipc: bool, outcome: Outcome) -> bool
    ensures { result ≡ outcome_fits n ipc outcome }
{
    let code = outcome.code;
    is_code(code)
        & nobody_or_below(n, outcome.source)
        & (outcome.count <= WORD_LIMIT)
        & (ipc == (code == RUNNING))
        & ((code == DONE) | ((outcome.source == NOBODY) & (outcome.count == 0)))
}

// The numbers of a send part that is there are in range.
fn send_in_range(n: u8, send: SendPart) -> bool
    ensures { result ≡ send_in_range n send }
{
    !send.present | ((send.target < n) & (send.count <= WORD_LIMIT) & (send.time <= LAST_TIME_CODE))
}

// The numbers of a receive part that is there are in range, and it is not closed on nobody.
fn receive_in_range(n: u8, receive: Receive) -> bool
    ensures { result ≡ receive_in_range n receive }
{
    let timed = !threads::has_receive(receive) | (threads::receive_time(receive) <= LAST_TIME_CODE);
    timed & !threads::closed_beyond(n, receive) & !threads::is_empty(receive)
}

// The numbers of an operation that runs, and left, are in range; thread x is neither its target nor its partner.
fn operation_fits(n: u8, x: u8, ipc: bool, op: Operation, left: u16) -> bool
    ensures { result ≡ operation_fits n x ipc op left }
{
    if !ipc {
        return true;
    }
    send_in_range(n, op.send)
        & receive_in_range(n, op.receive)
        & ((left <= MOST_TICKS) | (left == NEVER))
        & (!op.send.present | (op.send.target != x))
        & !threads::closed_on(op.receive, x)
}

// The numbers that thread x uses in its phase are in range: the target that release frees, the words copied, the sender being woken.
fn phase_fits(n: u8, x: u8, phase: u8, send: SendPart, copied: u8, waking: u8) -> bool
    ensures { result ≡ phase_fits n x phase send copied waking }
{
    ((phase != RELEASE) | (send.target < n))
        & ((phase != RELEASE) | (send.target != x))
        & ((phase != COPY) | (copied <= send.count))
        & (!matches!(phase, WAKE | UNLOCK) | (waking < n))
}

// A phase in which a thread still sends: lock, check, copy or sleep.
fn sends_in(phase: u8) -> bool
    ensures { result ≡ is_one_of (lock ∷ check ∷ copy ∷ sleep ∷ []) phase }
{
    matches!(phase, LOCK | CHECK | COPY | SLEEP)
}

// A phase in which a thread looks for a sender: look, wake or unlock.
fn looks_in(phase: u8) -> bool
    ensures { result ≡ is_one_of (look ∷ wake ∷ unlock ∷ []) phase }
{
    matches!(phase, LOOK | WAKE | UNLOCK)
}

// The phase and the flags go together, in an operation with a receive part and a send part or without.
fn flags_fit(phase: u8, flags: Flags, receives: bool, sends: bool) -> bool
    ensures { result ≡ flags_fit phase flags receives sends }
{
    (phase <= UNLOCK)
        & (!(flags.send | flags.mark) | flags.ipc)
        & (!flags.poll | flags.send)
        & (flags.receiving == (flags.ipc & receives))
        & (!(flags.ipc & !flags.send) | receives)
        & ((phase != IDLE) | !(flags.ipc | flags.send | flags.receiving | flags.poll | flags.mark))
        & (!looks_in(phase) | !flags.send)
        & (!sends_in(phase) | flags.send)
        & (!flags.send | sends)
        & ((phase != RELEASE) | sends)
}

// The queue is short enough, and the owner of the lock is a thread of the table or nobody.
fn queue_fits(n: u8, queue: Queue, owner: u8) -> bool
    ensures { result ≡ queue_fits n queue owner }
{
    (queue.len <= 32) & nobody_or_below(n, owner)
}

// Thread x, which is h, is well-formed by itself.
pub fn thread_alone(n: u8, x: u8, h: Thread) -> bool
    ensures { result ≡ own_fits n x h }
{
    let flags = h.flags;
    let op = h.op;
    flags_fit(
        h.phase,
        flags,
        threads::has_receive(op.receive),
        op.send.present,
    ) & outcome_fits(n, flags.ipc, h.outcome)
        & operation_fits(n, x, flags.ipc, op, h.left)
        & phase_fits(n, x, h.phase, op.send, h.copied, h.waking)
        & queue_fits(n, h.queue, h.owner)
}

// The thread to which a thread sends, if it sends.
pub fn target_of(h: Thread) -> Option<u8>
    ensures { unwrap_or result nobody ≡ target_of h }
{
    h.flags.send.then_some(h.op.send.target)
}

// The thread to which a thread copies, if it copies.
pub fn copies_to(h: Thread) -> Option<u8>
    ensures { unwrap_or result nobody ≡ copies_to h }
{
    (h.phase == COPY).then_some(h.op.send.target)
}

// The thread whose lock a thread holds, if it holds one.
pub fn lock_held(h: Thread) -> Option<u8>
    ensures { unwrap_or result nobody ≡ lock_held h }
{
    match h.phase {
        CHECK | COPY | RELEASE => Some(h.op.send.target),
        WAKE | UNLOCK => Some(h.waking),
        _ => None,
    }
}
