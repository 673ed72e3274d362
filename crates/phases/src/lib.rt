// A step by its phase: each phase tests in the order of document 01 and takes the action that the tests settle on.

#![tactic(auto)]

ghost use Rattle.std.specs.Prelude.{◌≡◌, ◌≤◌, length, unwrap_or};
ghost use Rattle.std.proofs.Math.Option.{none, some};
ghost use Rattle.model.specs.Codes.{nobody};
ghost use Rattle.model.specs.Operations.{word_limit};
ghost use Rattle.model.specs.Phases.{idle, lock, check, copy, release, sleep, look, wake, unlock, phase_of};
ghost use Rattle.model.specs.Queues.{find_sender};
ghost use Rattle.model.specs.Step.{other, overdue, decide_in};
ghost use Rattle.actions.specs.Acted.{Acted};
ghost use Rattle.queues.specs.Options.{as_option};
ghost use Rattle.phases.specs.Fit.{partner, LooksOn, Fit, word_added, words_after};

use actions::{Change, Ending};
use model::{Answer, Thread};

// The first time code of a receive that is a limit.
const FIRST_HARD: u8 = 1;

// The last one: the next waits for ever.
const LAST_HARD: u8 = 14;

// Idle: answer idle.
fn in_idle(x: u8, own: Thread, other: Thread) -> Change
    ensures { Acted (decide_in idle x own other) x own other result }
{
    actions::stay_with(Answer::Idle, own, other)
}

// Lock: take the target's lock if it is free.
fn in_lock(x: u8, own: Thread, other: Thread) -> Change
    ensures { Acted (decide_in lock x own other) x own other result }
{
    if other.owner == threads::NOBODY {
        return actions::take_lock(x, own, other);
    }
    actions::stay_with(Answer::Wants, own, other)
}

// Check: abort if marked, copy if the target is ready, abort if no time is left, else release.
fn in_check(x: u8, own: Thread, other: Thread) -> Change
    ensures { Acted (decide_in check x own other) x own other result }
{
    // what is tested is read first, so that below stands the order of the tests and nothing else
    let ready = threads::is_ready(other, x);
    let late = own.left == 0;
    if own.flags.mark {
        return actions::end_by(Some(Ending::SendCancelled), own, other);
    }
    if ready {
        return actions::start_copy(own, other);
    }
    if late {
        return actions::end_by(Some(Ending::SendTimeOver), own, other);
    }
    actions::go_to_release(own, other)
}

// Copy: one word into the receiver's eight; when none remains, finish.
fn in_copy(x: u8, own: Thread, other: Thread, words: &mut [u32]) -> Change
    requires count_le_word_limit { own.op.send.count ≤ word_limit }
    requires words_len { length words.old ≡ 8 }
    ensures acted { Acted (decide_in copy x own other) x own other result }
    ensures words { words.new ≡ word_added own words.old }
{
    if own.copied < own.op.send.count {
        return actions::copy_word(own, other, words);
    }
    if threads::has_receive(own.op.receive) {
        return actions::end_by(Some(Ending::CallFinished), own, other);
    }
    actions::end_by(Some(Ending::SendFinished), own, other)
}

// Release: free the target's lock; then sleep, look or idle.
fn in_release(x: u8, own: Thread, other: Thread) -> Change
    ensures { Acted (decide_in release x own other) x own other result }
{
    if own.flags.send {
        return actions::free_target(threads::SLEEP, own, other);
    }
    if own.flags.ipc {
        return actions::free_target(threads::LOOK, own, other);
    }
    actions::free_target(threads::IDLE, own, other)
}

// Sleep: go to lock if poll is clear, or marked, or no time is left.
fn in_sleep(x: u8, own: Thread, other: Thread) -> Change
    ensures { Acted (decide_in sleep x own other) x own other result }
{
    if !own.flags.poll || own.flags.mark || own.left == 0 {
        return actions::try_again(own, other);
    }
    actions::stay_with(Answer::Asleep, own, other)
}

// Look: with o for the first acceptable sender, if there is one.
fn in_look(x: u8, o: Option<u8>, own: Thread, other: Thread) -> Change
    requires { o ≡ as_option (find_sender own) }
    ensures { Acted (decide_in look x own other) x own other result }
{
    if !own.flags.ipc {
        return actions::go_idle(own, other);
    }
    if own.flags.mark {
        return actions::end_by(Some(Ending::ReceiveCancelled), own, other);
    }
    match o {
        None => look_alone(x, own, other),
        Some(s) => look_at_sender(x, s, own, other),
    }
}

// Look, and no sender is acceptable.
fn look_alone(x: u8, own: Thread, other: Thread) -> Change
    requires { LooksOn own none }
    ensures { Acted (decide_in look x own other) x own other result }
{
    if own.left == 0 {
        return actions::end_by(Some(Ending::ReceiveTimeOver), own, other);
    }
    actions::stay_with(Answer::Asleep, own, other)
}

// Whether a receive's time is a limit and is over.
#[tactic(auto, unfolding(model::specs::Step::overdue, model::specs::Times::is_hard))]
fn is_overdue(own: Thread) -> bool
    ensures { result ≡ overdue own }
{
    let code = threads::receive_time(own.op.receive);
    (FIRST_HARD..=LAST_HARD).contains(&code) & (own.left == 0)
}

// Look, and the first acceptable sender is s: it does not count once a limit is over.
fn look_at_sender(x: u8, s: u8, own: Thread, other: Thread) -> Change
    requires { LooksOn own (some s) }
    ensures { Acted (decide_in look x own other) x own other result }
{
    if is_overdue(own) {
        return actions::end_by(Some(Ending::ReceiveTimeOver), own, other);
    }
    if !other.flags.poll {
        return actions::stay_with(Answer::Asleep, own, other);
    }
    if other.owner != threads::NOBODY {
        return actions::stay_with(Answer::Wants, own, other);
    }
    actions::take_sender(x, s, own, other)
}

// Wake: clear the sender's poll.
fn in_wake(x: u8, own: Thread, other: Thread) -> Change
    ensures { Acted (decide_in wake x own other) x own other result }
{
    actions::clear_poll(own, other)
}

// Unlock: free the sender's lock.
fn in_unlock(x: u8, own: Thread, other: Thread) -> Change
    ensures { Acted (decide_in unlock x own other) x own other result }
{
    actions::free_sender(own, other)
}

// The number of the one other thread that a step reads or changes, if there is one.
// Kept, the phases by their numbers: a table that a caller gives can have any in `phase` (`phase_of`). With one that is no phase, as with idle and sleep, there is no other thread.
pub fn other_number(own: Thread) -> Option<u8>
    requires { own.queue.len ≤ 32 }
    ensures partner { result ≡ partner own }
    ensures number { unwrap_or result nobody ≡ other own }
{
    match own.phase {
        threads::LOCK => Some(own.op.send.target),
        threads::CHECK => Some(own.op.send.target),
        threads::COPY => Some(own.op.send.target),
        threads::RELEASE => Some(own.op.send.target),
        threads::LOOK => queues::first_acceptable(own).sender,
        threads::WAKE => Some(own.waking),
        threads::UNLOCK => Some(own.waking),
        _ => None,
    }
}

// A step of thread x, whose lock is free, with the other thread o, if there is one, and its eight words.
pub fn step_threads(x: u8, o: Option<u8>, own: Thread, other: Thread, words: &mut [u32]) -> Change
    requires fit { Fit o own }
    requires words_len { length words.old ≡ 8 }
    ensures acted { Acted (decide_in (phase_of own.phase) x own other) x own other result }
    ensures words { words.new ≡ words_after own words.old }
{
    // Kept: document 01 names the form, a match on a copy of the phase number with a named function for each.
    let phase = own.phase;
    match phase {
        threads::IDLE => in_idle(x, own, other),
        threads::LOCK => in_lock(x, own, other),
        threads::CHECK => in_check(x, own, other),
        threads::COPY => in_copy(x, own, other, words),
        threads::RELEASE => in_release(x, own, other),
        threads::SLEEP => in_sleep(x, own, other),
        threads::LOOK => in_look(x, o, own, other),
        threads::WAKE => in_wake(x, own, other),
        threads::UNLOCK => in_unlock(x, own, other),
        _ => in_idle(x, own, other),
    }
}
