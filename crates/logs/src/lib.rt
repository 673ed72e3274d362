// The types of two recorders' logs. The definitions over them are in specs/.

#![tactic(auto)]

// An entry of a log: who sent to whom, and how many of the eight words. In a log of receives the sender is the source.
#[derive(Clone, Copy, PartialEq, Eq)]
pub struct LogEntry {
    pub sender: u8,
    pub target: u8,
    pub count: u8,
    pub words: [u32; 8],
}

// A log: the first len of entries. A len above 512 stands for more entries than there is room for.
// Kept, no Vec: memory is fixed, and `bad_log` refuses such a len.
#[derive(Clone, Copy, PartialEq, Eq)]
pub struct Log {
    pub entries: [LogEntry; 512],
    pub len: u16,
}

// What comparing a log of sends with a log of receives answers: they agree, or where they first differ.
// Kept, a refusal by its number: `compare_answer` gives that of the paper, and `said_comparison` tells it.
#[derive(Clone, Copy, PartialEq, Eq)]
pub enum Compared {
    Refused(u8),
    Agree,
    Send(u16),
    Receive(u16),
}
