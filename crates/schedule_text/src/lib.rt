// Schedules as text: what programs `totext` and `tobytes` do with any reader as their input and any writer for their output, in constant memory.

#![tactic(auto)]

mod asked;
mod bytes;
mod respelling;
mod texts;

pub use bytes::print_bytes;
pub use respelling::respelled;
pub use texts::print_text;
