// What changed of one thread, a few words for each change: phase, mark, lock, queue, ticks left, outcome, words.
use crate::names::{put_code_name, put_phase_name};
use model::{Outcome, Queue, Thread};
use text::{SPACE, Text};
use threads::{NEVER, NOBODY};

// How many words a thread has.
const WORDS: usize = 8;

// The changes of thread x, told behind what a line says already.
#[derive(Drop)]
struct Changes<'l, 'b> {
    line: &'l mut Text<'b>,
    x: u8,
    told: bool,
}

impl<'l, 'b> Changes<'l, 'b> {
    // What stands before a change: the thread's number before its first, a comma before the others.
    fn lead(&mut self) {
        if self.told {
            self.line.bytes(b", ");
            return;
        }
        self.told = true;
        self.line.bytes(b"   ");
        self.line.number(u64::from(self.x));
        self.line.byte(SPACE);
    }

    // From which phase to which.
    fn phase(&mut self, before: u8, after: u8) {
        if before != after {
            self.lead();
            put_phase_name(self.line, before);
            self.line.bytes(b" to ");
            put_phase_name(self.line, after);
        }
    }

    // That a cancel was asked for.
    fn mark(&mut self, before: bool, after: bool) {
        if after && !before {
            self.lead();
            self.line.bytes(b"marked");
        }
    }

    // Who owns its lock now.
    fn lock(&mut self, before: u8, after: u8) {
        if before == after {
            return;
        }
        self.lead();
        if after == NOBODY {
            self.line.bytes(b"unlocked");
        } else {
            self.line.bytes(b"locked by ");
            self.line.number(u64::from(after));
        }
    }

    // Who waits now. A call that changes a queue changes its length too, so that places past the end tell nothing more.
    fn queue(&mut self, before: Queue, after: Queue) {
        if before == after {
            return;
        }
        self.lead();
        if after.len == 0 {
            self.line.bytes(b"queue empty");
        } else {
            self.line.bytes(b"queue");
            showing::put_senders(self.line, &after.items, after.len);
        }
    }

    // How many ticks are left now, where an operation runs that does not wait for ever.
    fn left(&mut self, before: u16, after: u16, running: bool) {
        if before != after && running && after != NEVER {
            self.lead();
            self.line.bytes(b"ticks left ");
            self.line.number(u64::from(after));
        }
    }

    // A word that changed.
    fn word(&mut self, i: usize, before: u32, after: u32) {
        if before != after {
            self.lead();
            self.line.bytes(b"word ");
            self.line.number(i as u64);
            self.line.bytes(b" is ");
            self.line.number(u64::from(after));
        }
    }

    // The words that changed.
    fn words(&mut self, before: &[u32], after: &[u32]) {
        for i in 0..WORDS {
            self.word(i, word_at(before, i), word_at(after, i));
        }
    }

    // How the latest operation stands now.
    fn outcome(&mut self, before: Outcome, after: Outcome, words: &[u32]) {
        if before != after {
            self.lead();
            put_outcome(self.line, after, words);
        }
    }
}

// The outcome, and from whom the words are.
fn put_outcome(out: &mut Text, outcome: Outcome, words: &[u32]) {
    put_code_name(out, outcome.code);
    if outcome.source == NOBODY {
        return;
    }
    out.bytes(b", from ");
    out.number(u64::from(outcome.source));
    if !words.is_empty() {
        out.bytes(b":");
        out.words(words);
    }
}

// The word at a place; 0 past the end.
fn word_at(words: &[u32], i: usize) -> u32 {
    words.get(i).copied().unwrap_or(0)
}

// What changed of thread x, behind what is written already; its words before and after the call are given.
pub fn put_changes(out: &mut Text, x: u8, before: Thread, after: Thread, old: &[u32], new: &[u32]) {
    let mut changes = Changes {
        line: out,
        x,
        told: false,
    };
    changes.phase(before.phase, after.phase);
    changes.mark(before.flags.mark, after.flags.mark);
    changes.lock(before.owner, after.owner);
    changes.queue(before.queue, after.queue);
    changes.left(before.left, after.left, after.flags.ipc);
    changes.words(old, new);
    let count = new.len().min(usize::from(after.outcome.count));
    changes.outcome(before.outcome, after.outcome, &new[..count]);
}
