// Whether a table is well-formed (document 01's "sound"): each thread by itself, and the threads together.

#![tactic(auto, unfolding(crate::specs::Links::points_back, crate::specs::Links::link_fits, model::specs::Lists::implies, model::specs::Lists::all_of, model::specs::Threads::at))]

ghost use Rattle.std.specs.Prelude.{◌≡◌, ◌≤◌, ◌<◌, length};
ghost use Rattle.model.specs.Lists.{all_below};
ghost use Rattle.model.specs.Queues.{senders};
ghost use Rattle.model.specs.WellFormed.{well_formed};
ghost use Rattle.wellformed.specs.Links.{number_at, target_at, owner_at, held_at, points_back, chain_ends, link_fits, copy_ready};
ghost use Rattle.wellformed.specs.Waiting.{EnteredOrNot};

use model::{Table, Thread};
use threads::NOBODY;

// Enters in waits that the waiting senders of thread r, which is h, wait at r, and tells whether each is a thread of the table that waited nowhere.
fn enter_senders(n: u8, r: u8, h: Thread, waits: &mut [u8; 32]) -> bool
    requires { (n ≤ 32) × (r < n) × (h.queue.len ≤ 32) × (length waits.old ≡ 32) }
    ensures { EnteredOrNot n r (senders h) waits.old waits.new result }
{
    let senders = &h.queue.items[..h.queue.len as usize];
    for s in senders {
        if n <= *s {
            return false;
        }
        if waits[*s as usize] != NOBODY {
            return false;
        }
        waits[*s as usize] = r;
    }
    true
}

// The owner of the lock of thread r, if it is a thread of the table, holds that lock.
fn owner_holds(table: &Table, r: u8) -> bool
    requires { (table.now.n ≤ 32) × (r < table.now.n) }
    ensures { result ≡ points_back table.now.n (held_at table.now) (owner_at table.now r) r }
{
    let owner = table.threads[r as usize].owner;
    if table.n <= owner {
        return true;
    }
    clauses::lock_held(table.threads[owner as usize]).unwrap_or(NOBODY) == r
}

// The lock that thread r holds, if it is of a thread of the table, has r for its owner.
fn owns_held(table: &Table, r: u8) -> bool
    requires { (table.now.n ≤ 32) × (r < table.now.n) }
    ensures { result ≡ points_back table.now.n (owner_at table.now) (held_at table.now r) r }
{
    match clauses::lock_held(table.threads[r as usize]) {
        Some(held) if held < table.n => table.threads[held as usize].owner == r,
        _ => true,
    }
}

// The chain of lock owners from thread r does not come back to it.
fn chain_ends(table: &Table, r: u8) -> bool
    requires { (table.now.n ≤ 32) × (r < table.now.n) }
    ensures { result ≡ chain_ends table.now.n (owner_at table.now) r }
{
    let mut owner = table.threads[r as usize].owner;
    for _ in 0..table.n {
        if table.n <= owner {
            return true;
        }
        if owner == r {
            return false;
        }
        owner = table.threads[owner as usize].owner;
    }
    true
}

// Thread r fits together with the others: where it waits is where it sends to, and locks and their owners agree.
fn link_fits(table: &Table, waits: &[u8; 32], r: u8) -> bool
    requires { (table.now.n ≤ 32) × (r < table.now.n) }
    ensures { result ≡ link_fits table.now.n (number_at waits.now) (target_at table.now) (owner_at table.now) (held_at table.now) r }
{
    let i = r as usize;
    let target = clauses::target_of(table.threads[i]).unwrap_or(NOBODY);
    (waits[i] == target) & owner_holds(table, r) & owns_held(table, r) & chain_ends(table, r)
}

// All threads fit together.
fn links_fit(table: &Table, waits: &[u8; 32]) -> bool
    requires { table.now.n ≤ 32 }
    ensures { result ≡ all_below table.now.n (link_fits table.now.n (number_at waits.now) (target_at table.now) (owner_at table.now) (held_at table.now)) }
{
    for r in 0..table.n {
        if !link_fits(table, waits, r) {
            return false;
        }
    }
    true
}

// The thread of the table to which thread x, which is h, copies, if there is one, is ready for x.
fn copy_fits(table: &Table, x: u8, h: Thread) -> bool
    requires { table.now.n ≤ 32 }
    ensures { result ≡ copy_ready table.now x h }
{
    match clauses::copies_to(h) {
        Some(to) if to < table.n => threads::is_ready(table.threads[to as usize], x),
        _ => true,
    }
}

// The table is well-formed (document 01's "sound").
pub fn well_formed(table: Table) -> bool
    ensures { result ≡ well_formed table }
{
    let n = table.n;
    if n < 1 || 32 < n || !rules::rules_fit(n, table.rules) {
        return false;
    }
    // where each thread waits
    // Kept: numbers and no Options, since the definitions give nobody's number to a thread that waits nowhere (`Free` of specs/Waiting).
    let mut waits = [NOBODY; 32];
    for x in 0..n {
        let h = table.threads[x as usize];
        if !clauses::thread_alone(n, x, h) || !copy_fits(&table, x, h) {
            return false;
        }
        if !enter_senders(n, x, h, &mut waits) {
            return false;
        }
    }
    links_fit(&table, &waits)
}
