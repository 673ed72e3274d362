// A schedule followed through the public calls: after each record the call's answer and every field in use of every thread; or, in words, what it changed; or, of the rendezvous alone, what two recorders note.

#![tactic(auto)]

mod answers;
mod entries;
mod lines;
mod records;
mod spoken;
mod taken;

pub use records::{Mode, follow};
