// What the console does with one line: a public call, or a change by force. What it answers is text in a caller's bytes.

#![tactic(auto)]

mod calls;
mod fields;
mod logged;
mod sessions;

pub use logged::no_entries;
pub use sessions::{Reply, Session, new_session, respond};
