// Four threads for a table of at most four, few enough to be copied before each choice of thread; and what a step of one of them changes, without a store.

#![tactic(auto)]

ghost use Rattle.std.specs.Prelude.{◌≡◌, ◌<◌, ◌≤◌};
ghost use Rattle.model.specs.Counting.{counted_threads, count_places, place_from};
ghost use Rattle.actions.specs.Acted.{Acted};
ghost use Rattle.phases.specs.Fit.{Fit};
ghost use Rattle.digits.specs.Coded.{code_at, Coded};
ghost use Rattle.unchecked.specs.Runnable.{Checked};
ghost use Rattle.few.specs.Front.{Whole, outcomes_in, outcomes_with, changes_nothing, decide_here};

use actions::Change;
use model::{Answer, Outcome, Table, Thread};

// The first n of four threads are in use; place is that of their codes.
#[derive(Clone, Copy)]
pub struct Few {
    pub n: u8,
    pub threads: [Thread; 4],
    pub place: u16,
}

// The first four threads of a table.
pub fn few_of(table: Table) -> Few
    requires checked { Checked table }
    requires n_le_counted_threads { table.n ≤ counted_threads }
    ensures { Whole result table }
{
    let [first, second, third, fourth, ..] = table.threads;
    let mut few = Few {
        n: table.n,
        threads: [first, second, third, fourth],
        place: 0,
    };
    few.place = digits::place(table.n, outcomes_of(few)) as u16;
    few
}

// Their outcomes.
fn outcomes_of(few: Few) -> [Outcome; 4]
    ensures { result ≡ outcomes_in few }
{
    let [first, second, third, fourth] = few.threads;
    [first.outcome, second.outcome, third.outcome, fourth.outcome]
}

// The place of their codes with own for thread i and other for thread j.
pub fn place_with(few: Few, i: usize, own: Thread, j: usize, other: Thread) -> usize
    requires i_lt_counted_threads { (i < counted_threads) × (j < counted_threads) }
    requires coded { Coded few.n (outcomes_with few i own j other) }
    ensures place { result ≡ place_from (code_at (outcomes_with few i own j other)) few.n 0 }
    ensures small { result < count_places }
{
    let mut outcomes = outcomes_of(few);
    outcomes[j] = other.outcome;
    outcomes[i] = own.outcome;
    digits::place(few.n, outcomes)
}

// What a step of thread x changes, with the other thread o, if there is one; its words go nowhere.
pub fn change_of(x: u8, o: Option<u8>, own: Thread, other: Thread) -> Change
    requires { Fit o own }
    ensures { Acted (decide_here x own other) x own other result }
{
    if own.owner != threads::NOBODY {
        return actions::stay_with(Answer::Held, own, other);
    }
    let mut words = [0u32; 8];
    phases::step_threads(x, o, own, other, &mut words)
}

// A step with this answer changes nothing.
pub fn changes_nothing(answer: Answer) -> bool
    ensures { result ≡ changes_nothing answer }
{
    answer != Answer::Moved
}
