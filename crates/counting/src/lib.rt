// Every list of steps is tried, each step from a copy of the same state, and counted at the place of the codes that it leads to.

#![tactic(auto)]

ghost use Rattle.std.specs.Prelude.{◌<◌};
ghost use Rattle.counting.specs.Trying.{Trying, Counted, Countable, CountedAll};

use few::Few;

// The lists that start with a step of a later thread than x, and then those that start with one of x. A step that ends nothing leads to the same place, and one that changes
// nothing goes on from the same table: it is a choice like any other.
#[cycle(try_next_try_step)]
fn try_step(table: Few, x: u8, left: u8, counts: &mut [u32])
    requires trying { Trying table x left counts.old }
    requires x_lt_n { x < table.n }
    ensures { Counted table x left counts.old counts.new }
{
    try_next(table, x + 1, left, counts);
    let i = x as usize;
    let own = table.threads[i];
    let o = phases::other_number(own);
    let j = o.unwrap_or(x) as usize;
    let other = table.threads[j];
    let change = few::change_of(x, o, own, other);
    if let Some(ending) = change.ending {
        let both = endings::end_threads(x, Some(ending), own, other);
        let p = few::place_with(table, i, both.own, j, both.other);
        if left == 1 {
            counts[p] += 1;
            return;
        }
        let mut next = table;
        next.threads[j] = both.other;
        next.threads[i] = both.own;
        next.place = p as u16;
        try_next(next, 0, left - 1, counts);
        return;
    }
    if left == 1 {
        counts[table.place as usize] += 1;
        return;
    }
    if few::changes_nothing(change.answer) {
        try_next(table, 0, left - 1, counts);
        return;
    }
    let mut next = table;
    next.threads[j] = actions::change_other(change, other);
    next.threads[i] = actions::change_own(change, own);
    try_next(next, 0, left - 1, counts);
}

// The lists that start with a step of thread x or of a later one.
#[cycle(try_next_try_step)]
fn try_next(table: Few, x: u8, left: u8, counts: &mut [u32])
    requires { Trying table x left counts.old }
    ensures { Counted table x left counts.old counts.new }
{
    if x < table.n {
        try_step(table, x, left, counts);
    }
}

// All lists of so many steps, into counts that are all 0.
pub fn count_lists(table: Few, length: u8, counts: &mut [u32])
    requires { Countable table length counts.old }
    ensures { CountedAll table length counts.new }
{
    if length == 0 {
        counts[table.place as usize] = 1;
        return;
    }
    try_next(table, 0, length, counts);
}
