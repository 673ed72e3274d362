// A thread's queue of waiting senders: searching it, joining it and leaving it.

#![tactic(auto)]

ghost use Rattle.std.specs.Prelude.{◌≡◌, ◌<◌, ◌≤◌, take};
ghost use Rattle.model.specs.Lists.{occurs};
ghost use Rattle.model.specs.Queues.{senders, joined, departed, search_place, find_sender, places_read};
ghost use Rattle.queues.specs.Options.{as_option};
ghost use Rattle.queues.specs.Places.{place_of, gap_closed};

use model::{Queue, Thread};

// The waiting senders of a queue, the earliest first.
// Kept, a requires here and below: a `Queue` is a type of `model`, and a table that a caller gives may hold a longer one, which `queue_fits` refuses.
fn waiting(queue: &Queue) -> &[u8]
    requires { queue.now.len ≤ 32 }
    ensures { result.now ≡ take queue.now.len queue.now.items }
{
    &queue.items[..queue.len as usize]
}

// The place in the queue where the search stops: at the first acceptable sender, or past the last.
fn search(h: Thread) -> usize
    requires { h.queue.len ≤ 32 }
    ensures { result ≡ search_place h }
{
    let senders = waiting(&h.queue);
    let mut i: usize = 0;
    // Kept: document 01 names the form of the search, a loop over the queue that breaks with the place of the acceptable sender.
    let place = loop {
        if senders.len() <= i {
            break i;
        }
        if threads::accepts_from(h.op.receive, senders[i]) {
            break i;
        }
        i += 1;
    };
    place
}

// What a search found: the sender that it settled on, if there is one, and how many queue places it read.
#[derive(Clone, Copy)]
pub struct Found {
    pub sender: Option<u8>,
    pub read: u8,
}

// The first acceptable sender in the queue, if there is one, and how many places were read up to it.
pub fn first_acceptable(h: Thread) -> Found
    requires { h.queue.len ≤ 32 }
    ensures sender { result.sender ≡ as_option (find_sender h) }
    ensures read { result.read ≡ places_read h }
{
    let place = search(h);
    let queue = h.queue;
    let n = queue.len as usize;
    if n <= place {
        return Found {
            sender: None,
            read: queue.len,
        };
    }
    let items = queue.items;
    let places = (place as u8) + 1;
    Found {
        sender: Some(items[place]),
        read: places,
    }
}

// s at the end of the queue.
#[tactic(auto, unfolding(model::specs::Queues::joined))]
pub fn join(h: Thread, s: u8) -> Thread
    requires { h.queue.len < 32 }
    ensures { result ≡ joined s h }
{
    let mut queue = h.queue;
    queue.items[queue.len as usize] = s;
    queue.len += 1;
    let mut next = h;
    next.queue = queue;
    next
}

// The first place of s in a queue, or past the last.
fn place_of(q: Queue, s: u8) -> usize
    requires { q.len ≤ 32 }
    ensures { result ≡ place_of s (take q.len q.items) }
{
    let senders = waiting(&q);
    senders
        .iter()
        .position(|sender| *sender == s)
        .unwrap_or(senders.len())
}

// One place of a queue gone, those after it moved up by one.
#[tactic(auto, using(crate::proofs::Laws::copied_moved), unfolding(crate::specs::Places::gap_closed))]
fn close_gap(q: Queue, place: usize) -> Queue
    requires place_lt_len { place < q.len }
    requires len_bound { q.len ≤ 32 }
    ensures { result ≡ gap_closed place q }
{
    let mut items = q.items;
    items.copy_within(place + 1..q.len as usize, place);
    Queue {
        items,
        len: q.len - 1,
    }
}

// s gone from the queue, those behind it moved up.
pub fn depart(h: Thread, s: u8) -> Thread
    requires len_bound { h.queue.len ≤ 32 }
    requires bound { 1 ≤ occurs s (senders h) }
    ensures { result ≡ departed s h }
{
    let place = place_of(h.queue, s);
    let shorter = close_gap(h.queue, place);
    let mut next = h;
    next.queue = shorter;
    next
}
