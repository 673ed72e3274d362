// A step in words: which call a record was, what it answered, and what it changed of each thread.

#![tactic(auto)]

mod changes;
mod names;

pub use changes::put_changes;
pub use names::put_call;
