// The senders and the targets of a log's entries, a pair for each: which entry of the other log has the sender, the target and the rank of one.

#![tactic(auto)]

ghost use Rattle.std.specs.Prelude.{◌≡◌, ◌==◌, ◌&&◌, ◌≤◌, ◌<◌, length};
ghost use Rattle.columns.specs.Ranks.{senders_of, targets_of, earlier, place_of_rank, mate_of, place_within};

use model::Pair;

// Two pairs are the same.
// Kept, no derived `==`: that tests the targets behind a branch, and comparing logs takes a sixth more instructions, which the old form did not.
fn same_pair(a: Pair, b: Pair) -> bool
    ensures { result ≡ (a.sender == b.sender) && (a.target == b.target) }
{
    (a.sender == b.sender) & (a.target == b.target)
}

// How many entries before a place are of a sender and a target.
fn count_earlier(pairs: &[Pair], pair: Pair, end: usize) -> usize
    requires { end ≤ length pairs.now }
    ensures { result ≡ earlier (senders_of pairs.now) (targets_of pairs.now) pair.sender pair.target end }
{
    let mut count = 0;
    for before in &pairs[..end] {
        if same_pair(*before, pair) {
            count += 1;
        }
    }
    count
}

// The place of the entry of a sender, a target and a rank, if there is one.
fn find_rank(pairs: &[Pair], pair: Pair, rank: usize) -> Option<usize>
    ensures { result ≡ place_within (length pairs.now) (place_of_rank (senders_of pairs.now) (targets_of pairs.now) pair.sender pair.target rank) }
{
    let mut seen = 0;
    for (k, other) in pairs.iter().enumerate() {
        if same_pair(*other, pair) {
            if seen == rank {
                return Some(k);
            }
            seen += 1;
        }
    }
    None
}

// The place of the entry of the other log that has the sender, the target and the rank of entry i, if there is one.
pub fn find_mate(pairs: &[Pair], i: usize, others: &[Pair]) -> Option<usize>
    requires { i < length pairs.now }
    ensures { result ≡ place_within (length others.now) (mate_of (senders_of pairs.now) (targets_of pairs.now) i (senders_of others.now) (targets_of others.now)) }
{
    let pair = pairs[i];
    let rank = count_earlier(pairs, pair, i);
    find_rank(others, pair, rank)
}
