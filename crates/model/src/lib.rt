// The types of the message engine, in the order of document 01's "The table". The definitions over them are in specs/.

#![tactic(auto)]

// The five flags of a thread; mark: a cancel was asked for.
#[derive(Clone, Copy, PartialEq, Eq)]
pub struct Flags {
    pub ipc: bool,
    pub send: bool,
    pub receiving: bool,
    pub poll: bool,
    pub mark: bool,
}

// A send part: to whom, how many of the eight words, and a time code. Where it is not present the rest is unused.
// Kept, no Option: a part that is not present has fields too, which `operation_bytes` writes and `lawful_record` refuses.
#[derive(Clone, Copy, PartialEq, Eq)]
pub struct SendPart {
    pub present: bool,
    pub target: u8,
    pub count: u8,
    pub time: u8,
    pub words: [u32; 8],
}

// How long a receive waits, by its time code, and for whom; an open receive does not use the partner.
// Kept for an open receive too: `operation_bytes` writes its partner, and `lawful_record` refuses one that is not 0.
#[derive(Clone, Copy, PartialEq, Eq)]
pub struct Wait {
    pub time: u8,
    pub partner: u8,
}

// A receive part: none, open, closed on one partner, or closed on a set of threads: a time code, and one bit for each thread, thread 0 the lowest.
#[derive(Clone, Copy, PartialEq, Eq)]
pub enum Receive {
    Absent,
    Open(Wait),
    Closed(Wait),
    OneOf(u8, u32),
}

// An operation: a send part or none, and a receive part or none.
#[derive(Clone, Copy, PartialEq, Eq)]
pub struct Operation {
    pub send: SendPart,
    pub receive: Receive,
}

// The entry through which an operation begins: the main one, or the spark entry, which takes at most three words.
#[derive(Clone, Copy, PartialEq, Eq)]
pub enum EntryPoint {
    Main,
    Spark,
}

// The senders that wait at a thread: the first len of items, the earliest first.
// Kept, no Vec: memory is fixed, and a table whose len is above 32 is one that `not_well_formed` refuses.
#[derive(Clone, Copy, PartialEq, Eq)]
pub struct Queue {
    pub items: [u8; 32],
    pub len: u8,
}

// How a thread's latest operation stands; also one record of a report.
// Kept, a code by its number: a table with any other is one that `not_well_formed` refuses (`is_code`).
#[derive(Clone, Copy, PartialEq, Eq)]
pub struct Outcome {
    pub code: i32,
    pub source: u8,
    pub count: u8,
}

// A thread. left is 65535 for never, owner 255 for none. Two fields are not in document 01's list:
// copied, how many words the running copy has delivered, and waking, the sender whose lock wake and unlock hold.
// Kept, a phase by its number, and 65535 and 255 for none: `not_well_formed` refuses a table with any other phase or owner.
#[derive(Clone, Copy, PartialEq, Eq)]
pub struct Thread {
    pub flags: Flags,
    pub phase: u8,
    pub op: Operation,
    pub left: u16,
    pub queue: Queue,
    pub owner: u8,
    pub outcome: Outcome,
    pub copied: u8,
    pub waking: u8,
}

// Thread numbers from one to another, both included; none where the first is above the second.
#[derive(Clone, Copy, PartialEq, Eq)]
pub struct Range {
    pub from: u8,
    pub to: u8,
}

// A row of rules: whether these senders may send to these targets.
#[derive(Clone, Copy, PartialEq, Eq)]
pub struct Rule {
    pub senders: Range,
    pub targets: Range,
    pub permits: bool,
}

// Who may send to whom: the first len of rows; every pair may where there are none. A len above 64 stands for more rows than there is room for.
// Kept, no Vec: memory is fixed, and `misfit` answers TooMany of such a len.
#[derive(Clone, Copy, PartialEq, Eq)]
pub struct Rules {
    pub rows: [Rule; 64],
    pub len: u8,
}

// The table: its first n threads are in use.
#[derive(Clone, Copy, PartialEq, Eq)]
pub struct Table {
    pub n: u8,
    pub threads: [Thread; 32],
    pub rules: Rules,
}

// A sender and its target.
#[derive(Clone, Copy, PartialEq, Eq)]
pub struct Pair {
    pub sender: u8,
    pub target: u8,
}

// How rules fit a table: each pair falls in one row exactly; or there are too many rows, or a pair falls in none, or in several.
// Kept, no Result: `misfit` answers it whole, and `load_misfit` tells it of a loading that is accepted too.
#[derive(Clone, Copy, PartialEq, Eq)]
pub enum Misfit {
    Fits,
    TooMany,
    Gap(Pair),
    Overlap(Pair),
}

// What every call but outcome answers: making a table, begin, step, cancel, tick, report, reading and writing a record.
// Kept, a refusal by its number: `refusal` gives the numbers of the papers, and `said` tells them.
#[derive(Clone, Copy, PartialEq, Eq)]
pub enum Answer {
    Refused(u8),
    Accepted,
    Marked,
    NothingToCancel,
    Moved,
    Idle,
    Held,
    Wants,
    Asleep,
}

// An answer and the table after the call.
// Kept, no Result: `Promise` settles the table of a refused call too, which is handed back.
#[derive(Clone, Copy, PartialEq, Eq)]
pub struct Returned {
    pub answer: Answer,
    pub table: Table,
}

// What loading rules returns: an answer, the pair by which they do not fit, and the table after the call.
// Kept, no Result: `Promise` settles the table of a refused call too, and `load_misfit` the pair of an accepted one.
#[derive(Clone, Copy, PartialEq, Eq)]
pub struct Loaded {
    pub answer: Answer,
    pub misfit: Misfit,
    pub table: Table,
}

// One record of a schedule: kind 0 table, 1 begin, 2 step, 3 cancel, 4 tick, 5 begin with a set. Only a begin uses op; thread is N for a table and 0 for a tick.
// Kept, a kind by its number: a record of any other is one that `unwritable` refuses.
#[derive(Clone, Copy, PartialEq, Eq)]
pub struct Record {
    pub kind: u8,
    pub thread: u8,
    pub op: Operation,
}

// What reading one record answers; refused, the item is all zero.
// Kept, no Result: `DecodePromise` settles the item of a refused record too.
#[derive(Clone, Copy, PartialEq, Eq)]
pub struct Decoded {
    pub answer: Answer,
    pub item: Record,
}
