// The endings of a step: each takes the stepped thread and the other one, and returns both as the ending leaves them.

#![tactic(auto, unfolding(model::specs::Step::own_after, model::specs::Step::other_after, model::specs::Step::received))]

ghost use Rattle.std.specs.Prelude.{◌≡◌, true, ℕ, IfSome, MatchOption};
ghost use Rattle.model.specs.declared.Thread.{Thread};
ghost use Rattle.model.specs.Step.{received, abort_send, finish_call, finish_send, abort_receive};
ghost use Rattle.actions.specs.Acted.{action_of};
ghost use Rattle.endings.specs.Ended.{Ended, Waits, ends_send};

use actions::Ending;
use model::{Outcome, Thread};

// The two threads of a step that has ended something.
#[derive(Clone, Copy)]
pub struct Pair {
    pub own: Thread,
    pub other: Thread,
}

// Check: abort with a code, leave the target's queue, drop the receive part, go to release.
fn abort_send(x: u8, code: i32, own: Thread, other: Thread) -> Pair
    requires { Waits x other }
    ensures { Ended (abort_send code) x own other result }
{
    let ended = threads::end_with_code(own, code);
    let mut mine = threads::drop_receive(ended);
    mine.phase = threads::RELEASE;
    let theirs = queues::depart(other, x);
    Pair {
        own: mine,
        other: theirs,
    }
}

// The receiver of a message of count words from x: the sender gone from its queue, and its receive completed.
fn complete_receive(x: u8, count: u8, other: Thread) -> Thread
    requires { Waits x other }
    ensures { (h : Thread) → h.op.send.count ≡ count → result ≡ received x h other }
{
    let outcome = Outcome {
        code: threads::DONE,
        source: x,
        count: count,
    };
    let theirs = queues::depart(other, x);
    threads::end_with(theirs, outcome)
}

// Copy: no word remains, and the receive part of the operation follows.
fn finish_call(x: u8, own: Thread, other: Thread) -> Pair
    requires { Waits x other }
    ensures { Ended finish_call x own other result }
{
    let op = own.op;
    let send = op.send;
    let receive = op.receive;
    let mut mine = own;
    mine.flags.send = false;
    mine.flags.poll = false;
    mine.left = threads::tick_count(threads::receive_time(receive));
    mine.phase = threads::RELEASE;
    let theirs = complete_receive(x, send.count, other);
    Pair {
        own: mine,
        other: theirs,
    }
}

// Copy: no word remains, and the operation ends.
fn finish_send(x: u8, own: Thread, other: Thread) -> Pair
    requires { Waits x other }
    ensures { Ended finish_send x own other result }
{
    let op = own.op;
    let send = op.send;
    let mut mine = threads::end_with_code(own, threads::DONE);
    mine.phase = threads::RELEASE;
    let theirs = complete_receive(x, send.count, other);
    Pair {
        own: mine,
        other: theirs,
    }
}

// Look: end with a code, idle.
fn abort_receive(code: i32, own: Thread, other: Thread) -> Pair
    ensures { (x : ℕ) → Ended (abort_receive code) x own other result }
{
    let mut mine = threads::end_with_code(own, code);
    mine.phase = threads::IDLE;
    Pair {
        own: mine,
        other: other,
    }
}

// Both threads after an ending.
fn end_both(x: u8, ending: Ending, own: Thread, other: Thread) -> Pair
    requires { ends_send ending ≡ true → Waits x other }
    ensures { Ended (action_of ending) x own other result }
{
    match ending {
        Ending::SendCancelled => abort_send(x, threads::SEND_CANCELLED, own, other),
        Ending::SendTimeOver => abort_send(x, threads::SEND_TIME_OVER, own, other),
        Ending::CallFinished => finish_call(x, own, other),
        Ending::SendFinished => finish_send(x, own, other),
        Ending::ReceiveCancelled => abort_receive(threads::RECEIVE_CANCELLED, own, other),
        Ending::ReceiveTimeOver => abort_receive(threads::RECEIVE_TIME_OVER, own, other),
    }
}

// Both threads after what a step ends; where it ends nothing, as they were.
pub fn end_threads(x: u8, ending: Option<Ending>, own: Thread, other: Thread) -> Pair
    requires { IfSome ending (λ e. ends_send e ≡ true → Waits x other) }
    ensures { MatchOption ending ((result.own ≡ own) × (result.other ≡ other)) (λ e. Ended (action_of e) x own other result) }
{
    match ending {
        None => Pair { own, other },
        Some(ending) => end_both(x, ending, own, other),
    }
}
