// The public call that compares a log of sends with a log of receives. The entry of the other log with the same sender, target and rank is looked for in a column of senders and targets, which is read from each log once.

#![tactic(auto)]

ghost use Rattle.std.specs.Prelude.{◌≡◌, not, ◌≤◌, length, map};
ghost use Rattle.model.specs.Operations.{word_limit};
ghost use Rattle.model.specs.Lists.{first_below};
ghost use Rattle.logs.specs.Comparison.{logged, entries_of, same_message, send_differs, receive_unsent, said_comparison, compare, bad_log, compare_answer};
ghost use Rattle.columns.specs.Ranks.{senders_of, targets_of, place_within};
ghost use Rattle.comparison.specs.Entries.{Columns, Good, pair_of};

use columns::find_mate;
use logs::{Compared, Log, LogEntry};
use model::Pair;
use threads::WORD_LIMIT;

// The most entries of a log.
const LOG_ROOM: u16 = 512;

// The number by which a log is refused.
// Kept: a number, since the answer `Compared` of the definitions holds one: `compare_answer` tells that of the paper.
const BAD_LOG: u8 = 22;

// A log has at most 512 entries, of at most 8 words each.
fn is_good(log: &Log) -> bool
    ensures { result ≡ not (bad_log log.now).when }
{
    if LOG_ROOM < log.len {
        return false;
    }
    let entries = &log.entries[..log.len as usize];
    entries.iter().all(|entry| entry.count <= WORD_LIMIT)
}

// The sender and the target of each entry.
// Kept: a loop and no `map` of the array, which took up to twice the time for short logs (bench/compare.sh).
fn pairs_of(entries: &[LogEntry; 512]) -> [Pair; 512]
    ensures { result ≡ map pair_of entries.now }
{
    let none = Pair {
        sender: 0,
        target: 0,
    };
    let mut pairs = [none; 512];
    for (i, entry) in entries.iter().enumerate() {
        pairs[i] = Pair {
            sender: entry.sender,
            target: entry.target,
        };
    }
    pairs
}

// Two entries have the same count and words.
fn same_message(a: &LogEntry, b: &LogEntry) -> bool
    requires { (a.now.count ≤ word_limit) × (b.now.count ≤ word_limit) }
    ensures { result ≡ same_message (logged a.now) (logged b.now) }
{
    let count = a.count as usize;
    (a.count == b.count) && (a.words[..count] == b.words[..count])
}

// A log that is not refused, and its column: the sender and the target of each entry.
#[derive(Clone, Copy)]
struct Side<'a> {
    log: &'a Log,
    pairs: &'a [Pair],
    ghost good: { Good log.now },
    ghost column: { Columns (entries_of log.now) (senders_of pairs.now) (targets_of pairs.now) },
}

// The first send that differs from the receive of its rank, or has none.
fn first_send(sends: Side, receives: Side) -> Option<usize>
    ensures { result ≡ place_within (length sends.entry.pairs.now) (first_below (length (entries_of sends.entry.log.now)) (send_differs (entries_of sends.entry.log.now) (entries_of receives.entry.log.now))) }
{
    for i in 0..sends.pairs.len() {
        let Some(j) = find_mate(sends.pairs, i, receives.pairs) else {
            return Some(i);
        };
        if !same_message(&sends.log.entries[i], &receives.log.entries[j]) {
            return Some(i);
        }
    }
    None
}

// The first receive whose rank has no send.
fn first_receive(sends: Side, receives: Side) -> Option<usize>
    ensures { result ≡ place_within (length receives.entry.pairs.now) (first_below (length (entries_of receives.entry.log.now)) (receive_unsent (entries_of sends.entry.log.now) (entries_of receives.entry.log.now))) }
{
    for j in 0..receives.pairs.len() {
        if find_mate(receives.pairs, j, sends.pairs).is_none() {
            return Some(j);
        }
    }
    None
}

// Compares the two sides.
fn compare_sides(sends: Side, receives: Side) -> Compared
    ensures { said_comparison result ≡ compare (entries_of sends.entry.log.now) (entries_of receives.entry.log.now) }
{
    if let Some(i) = first_send(sends, receives) {
        return Compared::Send(i as u16);
    }
    if let Some(j) = first_receive(sends, receives) {
        return Compared::Receive(j as u16);
    }
    Compared::Agree
}

// Compares two logs that are not refused.
fn compare_good(sends: &Log, receives: &Log) -> Compared
    requires good { Good sends.now }
    requires good_2 { Good receives.now }
    ensures { said_comparison result ≡ compare (entries_of sends.now) (entries_of receives.now) }
{
    let sent = pairs_of(&sends.entries);
    let received = pairs_of(&receives.entries);
    let ours = Side {
        log: sends,
        pairs: &sent[..sends.len as usize],
    };
    let theirs = Side {
        log: receives,
        pairs: &received[..receives.len as usize],
    };
    compare_sides(ours, theirs)
}

// Compares a log of sends with a log of receives: whether they agree, else the first send that differs, else the first receive that was not sent.
pub fn compare(sends: Log, receives: Log) -> Compared
    ensures { said_comparison result ≡ compare_answer sends receives }
{
    if !is_good(&sends) {
        return Compared::Refused(BAD_LOG);
    }
    if !is_good(&receives) {
        return Compared::Refused(BAD_LOG);
    }
    compare_good(&sends, &receives)
}
