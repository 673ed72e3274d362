// What the call of a record came to.
use model::{Answer, Record, Table};

// A record and its place in the schedule, the answer to its call, and the table and the words of the store before it and after it.
#[derive(Clone, Copy)]
pub struct Taken<'a> {
    pub place: u64,
    pub item: Record,
    pub answer: Answer,
    pub before: Table,
    pub after: Table,
    pub old: &'a [u32],
    pub new: &'a [u32],
}
