// The line of one thread, written into a caller's bytes as far as they reach.

#![tactic(auto, using(text::proofs::Writing::writing), unfolding(crate::specs::Shown::flags_text, crate::specs::Shown::used_text, crate::specs::Shown::left_text, crate::specs::Shown::state_text, crate::specs::Shown::ties_text, crate::specs::Shown::outcome_text, crate::specs::Shown::words_text, crate::specs::Shown::queue_text, crate::specs::Shown::thread_text, model::specs::Bondtrace::ascii, model::specs::Lists::up_to))]

ghost use Rattle.std.specs.Prelude.{◌≡◌, ◌-◌, take};
ghost use Rattle.model.specs.Bondtrace.{spaced};
ghost use Rattle.text.specs.Writing.{written};
ghost use Rattle.showing.specs.Shown.{flags_text, used_text, left_text, state_text, ties_text, outcome_text, dashes, words_text, queue_text, thread_text};

use model::{Flags, Outcome, Queue, Thread};
use text::{NEWLINE, SPACE, Text};
use threads::{COPY, NEVER, UNLOCK, WAKE};

// How many words a thread has.
const WORDS: usize = 8;

// The five flags in a row.
fn put_flags(out: &mut Text, flags: Flags)
    ensures { out.new ≡ written (flags_text flags) out.old }
{
    out.number(u64::from(flags.ipc));
    out.number(u64::from(flags.send));
    out.number(u64::from(flags.receiving));
    out.number(u64::from(flags.poll));
    out.number(u64::from(flags.mark));
}

// A name, and the number behind it if it is in use.
fn put_used(out: &mut Text, name: &[u8], used: bool, n: u8)
    ensures { out.new ≡ written (used_text name.now used n) out.old }
{
    out.bytes(name);
    if used {
        out.number(u64::from(n));
    } else {
        out.byte(b'-');
    }
}

// The ticks that are left; they are in use while an operation runs.
fn put_left(out: &mut Text, used: bool, left: u16)
    ensures { out.new ≡ written (left_text used left) out.old }
{
    if !used {
        return out.bytes(b" left -");
    }
    if left == NEVER {
        return out.bytes(b" left never");
    }
    out.bytes(b" left ");
    out.number(u64::from(left));
}

// Code, source and count.
fn put_outcome(out: &mut Text, outcome: Outcome)
    ensures { out.new ≡ written (outcome_text outcome) out.old }
{
    out.bytes(b" outcome ");
    out.signed(outcome.code);
    out.byte(SPACE);
    out.number(u64::from(outcome.source));
    out.byte(SPACE);
    out.number(u64::from(outcome.count));
}

// A `-` for each of the eight words that is not there.
fn put_dashes(out: &mut Text, there: usize)
    ensures { out.new ≡ written (dashes (8 - there)) out.old }
{
    for _word in 0..WORDS.saturating_sub(there) {
        out.bytes(b" -");
    }
}

// Eight words, as far as there are some.
fn put_store(out: &mut Text, words: &[u32])
    ensures { out.new ≡ written (words_text words.now) out.old }
{
    out.bytes(b" words");
    out.words(words);
    put_dashes(out, words.len());
}

// The first senders of a queue's places, as many as wait, each behind a space.
pub fn put_senders(out: &mut Text, items: &[u8], len: u8)
    ensures { out.new ≡ written (spaced (take len items.now)) out.old }
{
    let most = items.len().min(usize::from(len));
    for sender in &items[..most] {
        out.byte(SPACE);
        out.number(u64::from(*sender));
    }
}

// The senders that wait, the earliest first.
fn put_queue(out: &mut Text, queue: Queue)
    ensures { out.new ≡ written (queue_text queue) out.old }
{
    out.bytes(b" queue");
    put_senders(out, &queue.items, queue.len);
}

// How far the thread is: phase, flags and ticks.
fn put_state(out: &mut Text, thread: Thread)
    ensures { out.new ≡ written (state_text thread) out.old }
{
    out.bytes(b" phase ");
    out.number(u64::from(thread.phase));
    out.bytes(b" flags ");
    put_flags(out, thread.flags);
    put_left(out, thread.flags.ipc, thread.left);
}

// Who is tied to it: the owner of its lock; in copy the words copied; in wake and unlock the sender being woken.
fn put_ties(out: &mut Text, thread: Thread)
    ensures { out.new ≡ written (ties_text thread) out.old }
{
    let phase = thread.phase;
    let wakes = (phase == WAKE) | (phase == UNLOCK);
    out.bytes(b" owner ");
    out.number(u64::from(thread.owner));
    put_used(out, b" copied ", phase == COPY, thread.copied);
    put_used(out, b" waking ", wakes, thread.waking);
}

// The line of thread x, whose words of the store are given, as far as it has some.
pub fn put_thread(out: &mut Text, x: u8, thread: Thread, words: &[u32])
    ensures { out.new ≡ written (thread_text x thread words.now) out.old }
{
    out.byte(SPACE);
    out.number(u64::from(x));
    put_state(out, thread);
    put_ties(out, thread);
    put_outcome(out, thread.outcome);
    put_store(out, words);
    put_queue(out, thread.queue);
    out.byte(NEWLINE);
}
