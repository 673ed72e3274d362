// A begin on the thread that begins and on the one whose queue it joins.

#![tactic(auto)]

ghost use Rattle.std.specs.Prelude.{◌≡◌, true, ◌<◌};
ghost use Rattle.model.specs.Operations.{first_time};
ghost use Rattle.model.specs.Phases.{Phase, phase_number};
ghost use Rattle.model.specs.Calls.{begun_flags, begun};
ghost use Rattle.begins.specs.Begun.{joined_thread, queue_joined, own_begun, joins as Begun·joins};

use model::{Flags, Operation, Thread};

// The time code of an operation's first part.
fn first_time(op: Operation) -> u8
    ensures { result ≡ first_time op }
{
    if op.send.present {
        return op.send.time;
    }
    threads::receive_time(op.receive)
}

// The flags of a thread that begins an operation.
#[tactic(auto, unfolding(model::specs::Calls::begun_flags))]
fn begun_flags(op: Operation) -> Flags
    ensures { result ≡ begun_flags op }
{
    Flags {
        ipc: true,
        send: op.send.present,
        receiving: threads::has_receive(op.receive),
        ..threads::no_flags()
    }
}

// A thread that begins an operation in a phase.
#[tactic(auto, unfolding(model::specs::Calls::begun))]
fn begun_with(h: Thread, op: Operation, phase: u8) -> Thread
    ensures { (p : Phase) → phase ≡ phase_number p → result ≡ begun op p h }
{
    let mut next = h;
    next.flags = begun_flags(op);
    next.phase = phase;
    next.op = op;
    next.left = threads::tick_count(first_time(op));
    next.outcome = threads::code_only(threads::RUNNING);
    next
}

// A begin joins a queue: it has a send part, and its target is one of the n threads.
#[tactic(auto, unfolding(crate::specs::Begun::joins))]
fn joins(n: u8, op: Operation) -> bool
    ensures { result ≡ Begun·joins n op }
{
    op.send.present & (op.send.target < n)
}

// The thread whose queue a begin of x joins, or x itself where it joins none.
// Kept: x's own number and no Option, since whoever calls reads and writes that thread in any case: an Option would be `unwrap_or(x)` at each call.
#[tactic(auto, unfolding(crate::specs::Begun::joined_thread))]
pub fn joined_thread(n: u8, x: u8, op: Operation) -> u8
    ensures { result ≡ joined_thread n x op }
{
    if joins(n, op) { op.send.target } else { x }
}

// That thread afterwards.
#[tactic(auto, unfolding(crate::specs::Begun::queue_joined))]
pub fn join_queue(n: u8, x: u8, op: Operation, other: Thread) -> Thread
    requires { Begun·joins n op ≡ true → other.queue.len < 32 }
    ensures { result ≡ queue_joined n x op other }
{
    if joins(n, op) {
        return queues::join(other, x);
    }
    other
}

// The thread that begins, afterwards.
#[tactic(auto, unfolding(crate::specs::Begun::own_begun))]
pub fn begin_own(n: u8, op: Operation, own: Thread) -> Thread
    ensures { result ≡ own_begun n op own }
{
    if !op.send.present {
        return begun_with(own, op, threads::LOOK);
    }
    if op.send.target < n {
        return begun_with(own, op, threads::LOCK);
    }
    threads::end_with_code(own, threads::NO_RECEIVER)
}
