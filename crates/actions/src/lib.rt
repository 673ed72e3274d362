// The actions of a step: each takes the stepped thread and the other one, and tells what it sets of them or what it ends.

#![tactic(auto, unfolding(model::specs::Step::reply_of, model::specs::Step::own_after, model::specs::Step::other_after, crate::specs::Acted::keeping, crate::specs::Acted::own_changed, crate::specs::Acted::other_changed))]

ghost use Rattle.std.specs.Prelude.{◌≡◌, ℕ, ◌<◌, length, get_or, set, IfSome};
ghost use Rattle.model.specs.Answers.{Reply, said, replied};
ghost use Rattle.model.specs.Phases.{Phase, phase_number};
ghost use Rattle.model.specs.Step.{stay, take_lock, start_copy, to_release, copy_word, free_target, retry, to_idle, take_sender, clear_poll, free_sender};
ghost use Rattle.actions.specs.Acted.{keeping as Acted·keeping, own_changed, other_changed, action_of, Acted};

use model::{Answer, Thread};

// What a step ends: a send part or a receive part, with its reason.
#[derive(Clone, Copy)]
pub enum Ending {
    SendCancelled,
    SendTimeOver,
    CallFinished,
    SendFinished,
    ReceiveCancelled,
    ReceiveTimeOver,
}

// The answer of a step, what it ends, if anything, and what it sets: poll, phase, copied and waking of its own thread, owner and poll of the other one.
// A step that ends something sets more than that, and end_threads does it.
// Kept, a phase by its number: `own_changed` puts it into a `Thread`, whose phase is one.
#[derive(Clone, Copy)]
pub struct Change {
    pub answer: Answer,
    pub ending: Option<Ending>,
    pub poll: bool,
    pub phase: u8,
    pub copied: u8,
    pub waking: u8,
    pub otherowner: u8,
    pub otherpoll: bool,
}

// No field of the two threads is set.
fn keeping(answer: Answer, ending: Option<Ending>, own: Thread, other: Thread) -> Change
    ensures { result ≡ Acted·keeping answer ending own other }
{
    Change {
        answer,
        ending,
        poll: own.flags.poll,
        phase: own.phase,
        copied: own.copied,
        waking: own.waking,
        otherowner: other.owner,
        otherpoll: other.flags.poll,
    }
}

// Nothing changes.
pub fn stay_with(answer: Answer, own: Thread, other: Thread) -> Change
    ensures { (x : ℕ) (a : Reply) → said answer ≡ replied a → Acted (stay a) x own other result }
{
    keeping(answer, None, own, other)
}

// The step moves; what it sets is said where this is called.
fn moving(own: Thread, other: Thread) -> Change
    ensures { result ≡ Acted·keeping Answer.Moved None own other }
{
    keeping(Answer::Moved, None, own, other)
}

// Lock: take the target's lock, set poll, go to check.
pub fn take_lock(x: u8, own: Thread, other: Thread) -> Change
    ensures { Acted take_lock x own other result }
{
    Change {
        poll: true,
        phase: threads::CHECK,
        otherowner: x,
        ..moving(own, other)
    }
}

// Check: start to copy.
pub fn start_copy(own: Thread, other: Thread) -> Change
    ensures { (x : ℕ) → Acted start_copy x own other result }
{
    Change {
        copied: 0,
        phase: threads::COPY,
        ..moving(own, other)
    }
}

// Check: the target is not ready, go to release.
pub fn go_to_release(own: Thread, other: Thread) -> Change
    ensures { (x : ℕ) → Acted to_release x own other result }
{
    Change {
        phase: threads::RELEASE,
        ..moving(own, other)
    }
}

// Copy: one word into the receiver's eight.
pub fn copy_word(own: Thread, other: Thread, words: &mut [u32]) -> Change
    requires copied_bound { own.copied < 8 }
    requires words_len { length words.old ≡ 8 }
    ensures acted { (x : ℕ) → Acted copy_word x own other result }
    ensures words { words.new ≡ set words.old own.copied (get_or own.op.send.words own.copied 0) }
{
    let k = own.copied as usize;
    words[k] = own.op.send.words[k];
    Change {
        copied: own.copied + 1,
        ..moving(own, other)
    }
}

// Release: free the target's lock and go to a phase.
pub fn free_target(phase: u8, own: Thread, other: Thread) -> Change
    ensures { (x : ℕ) (p : Phase) → phase ≡ phase_number p → Acted (free_target p) x own other result }
{
    Change {
        phase,
        otherowner: threads::NOBODY,
        ..moving(own, other)
    }
}

// Sleep: go to lock.
pub fn try_again(own: Thread, other: Thread) -> Change
    ensures { (x : ℕ) → Acted retry x own other result }
{
    Change {
        phase: threads::LOCK,
        ..moving(own, other)
    }
}

// Look: the operation has ended, go idle.
pub fn go_idle(own: Thread, other: Thread) -> Change
    ensures { (x : ℕ) → Acted to_idle x own other result }
{
    Change {
        phase: threads::IDLE,
        ..moving(own, other)
    }
}

// Look: take the lock of sender s and go to wake.
pub fn take_sender(x: u8, s: u8, own: Thread, other: Thread) -> Change
    ensures { Acted (take_sender s) x own other result }
{
    Change {
        waking: s,
        phase: threads::WAKE,
        otherowner: x,
        ..moving(own, other)
    }
}

// Wake: clear the sender's poll, go to unlock.
pub fn clear_poll(own: Thread, other: Thread) -> Change
    ensures { (x : ℕ) → Acted clear_poll x own other result }
{
    Change {
        phase: threads::UNLOCK,
        otherpoll: false,
        ..moving(own, other)
    }
}

// Unlock: free the sender's lock, go to look.
pub fn free_sender(own: Thread, other: Thread) -> Change
    ensures { (x : ℕ) → Acted free_sender x own other result }
{
    Change {
        phase: threads::LOOK,
        otherowner: threads::NOBODY,
        ..moving(own, other)
    }
}

// The step ends something, or moves and ends nothing.
pub fn end_by(ending: Option<Ending>, own: Thread, other: Thread) -> Change
    ensures { (x : ℕ) → IfSome ending (λ e. Acted (action_of e) x own other result) }
{
    keeping(Answer::Moved, ending, own, other)
}

// The own thread with what a step sets of it.
pub fn change_own(c: Change, own: Thread) -> Thread
    ensures { result ≡ own_changed c own }
{
    let mut next = own;
    next.flags.poll = c.poll;
    next.phase = c.phase;
    next.copied = c.copied;
    next.waking = c.waking;
    next
}

// The other thread with what a step sets of it.
pub fn change_other(c: Change, other: Thread) -> Thread
    ensures { result ≡ other_changed c other }
{
    let mut next = other;
    next.owner = c.otherowner;
    next.flags.poll = c.otherpoll;
    next
}
