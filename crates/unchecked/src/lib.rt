// The calls where they are not refused: each runs from a table that has passed the check, and leaves one that would.

#![tactic(auto)]

ghost use Rattle.std.specs.Prelude.{◌≡◌, ℕ, List, []};
ghost use Rattle.model.specs.declared.EntryPoint.TheVariants.{Main};
ghost use Rattle.model.specs.Threads.{new_thread, new_table};
ghost use Rattle.model.specs.WellFormed.{Shaped};
ghost use Rattle.model.specs.Calls.{Call};
ghost use Rattle.model.specs.Refusals.{refusal};
ghost use Rattle.model.specs.Promise.{state, Promise};

use model::{Answer, Operation, Queue, Returned, Rules, Table, Thread};

// A thread of a new table.
#[tactic(auto, unfolding(model::specs::Threads::new_thread))]
fn new_thread() -> Thread
    ensures { result ≡ new_thread }
{
    Thread {
        flags: threads::no_flags(),
        phase: threads::IDLE,
        op: threads::no_operation(),
        left: 0,
        queue: Queue {
            items: [0; 32],
            len: 0,
        },
        owner: threads::NOBODY,
        outcome: threads::code_only(threads::NEVER_BEGUN),
        copied: 0,
        waking: 0,
    }
}

// A new table of n threads.
#[tactic(auto, unfolding(model::specs::Threads::new_table))]
pub fn new_table(n: u8) -> Table
    ensures { result ≡ new_table n }
{
    Table {
        n,
        threads: [new_thread(); 32],
        rules: rules::no_rules(),
    }
}

// Thread x begins an operation, in its table. What the spark entry takes, the main entry takes, and does the same.
pub fn begin_in(table: &mut Table, x: u8, op: Operation, store: &mut [u32])
    requires accepted { refusal (Call.begin_via Main x op) (state table.old store.old) ≡ 0 }
    requires shaped { Shaped table.old }
    ensures { Promise (Call.begin_via Main x op) (state table.old store.old) Answer.Accepted (state table.new store.new) }
{
    words::zero_thread(store, x);
    let n = table.n;
    let j = begins::joined_thread(n, x, op) as usize;
    table.threads[j] = begins::join_queue(n, x, op, table.threads[j]);
    let i = x as usize;
    table.threads[i] = begins::begin_own(n, op, table.threads[i]);
}

// Thread x makes one step, in its table.
pub fn step_in(table: &mut Table, x: u8, store: &mut [u32]) -> Answer
    requires accepted { refusal (Call.step x) (state table.old store.old) ≡ 0 }
    requires shaped { Shaped table.old }
    ensures { Promise (Call.step x) (state table.old store.old) result (state table.new store.new) }
{
    let i = x as usize;
    let own = table.threads[i];
    if own.owner != threads::NOBODY {
        return Answer::Held;
    }
    let o = phases::other_number(own);
    let j = o.unwrap_or(x) as usize;
    let other = table.threads[j];
    let start = 8 * j;
    let end = start + 8;
    let change = phases::step_threads(x, o, own, other, &mut store[start..end]);
    if let Some(ending) = change.ending {
        // both are read again here, so that a step that ends nothing need not keep them
        let both = endings::end_threads(x, Some(ending), table.threads[i], table.threads[j]);
        table.threads[j] = both.other;
        table.threads[i] = both.own;
        return change.answer;
    }
    table.threads[j] = actions::change_other(change, other);
    table.threads[i] = actions::change_own(change, own);
    change.answer
}

// Thread x's operation is to be cancelled, in its table.
pub fn cancel_in(table: &mut Table, x: u8) -> Answer
    requires { refusal (Call.cancel x) (state table.old []) ≡ 0 }
    ensures { (store : List ℕ) → Promise (Call.cancel x) (state table.old store) result (state table.new store) }
{
    let i = x as usize;
    let h = table.threads[i];
    if !h.flags.ipc {
        return Answer::NothingToCancel;
    }
    table.threads[i] = threads::set_mark(h);
    Answer::Marked
}

// Time passes for every running operation of a table.
pub fn tick_in(table: &mut Table)
    requires { refusal Call.tick (state table.old []) ≡ 0 }
    ensures { (store : List ℕ) → Promise Call.tick (state table.old store) Answer.Accepted (state table.new store) }
{
    let n = table.n as usize;
    for i in 0..n {
        table.threads[i] = threads::tick_thread(table.threads[i]);
    }
}

// Thread x begins an operation.
pub fn begin(table: Table, x: u8, op: Operation, store: &mut [u32]) -> Returned
    requires { refusal (Call.begin_via Main x op) (state table store.old) ≡ 0 }
    ensures { Promise (Call.begin_via Main x op) (state table store.old) result.answer (state result.table store.new) }
{
    let mut next = table;
    begin_in(&mut next, x, op, store);
    Returned {
        answer: Answer::Accepted,
        table: next,
    }
}

// Thread x makes one step.
pub fn step(table: Table, x: u8, store: &mut [u32]) -> Returned
    requires { refusal (Call.step x) (state table store.old) ≡ 0 }
    ensures { Promise (Call.step x) (state table store.old) result.answer (state result.table store.new) }
{
    let mut next = table;
    let answer = step_in(&mut next, x, store);
    Returned {
        answer,
        table: next,
    }
}

// Thread x's operation is to be cancelled.
pub fn cancel(table: Table, x: u8) -> Returned
    requires { refusal (Call.cancel x) (state table []) ≡ 0 }
    ensures { (store : List ℕ) → Promise (Call.cancel x) (state table store) result.answer (state result.table store) }
{
    let mut next = table;
    let answer = cancel_in(&mut next, x);
    Returned {
        answer,
        table: next,
    }
}

// Time passes for every running operation.
pub fn tick(table: Table) -> Returned
    requires { refusal Call.tick (state table []) ≡ 0 }
    ensures { (store : List ℕ) → Promise Call.tick (state table store) result.answer (state result.table store) }
{
    let mut next = table;
    tick_in(&mut next);
    Returned {
        answer: Answer::Accepted,
        table: next,
    }
}

// Rules are loaded.
pub fn load(table: Table, rules: Rules) -> Returned
    requires { refusal (Call.load rules) (state table []) ≡ 0 }
    ensures { (store : List ℕ) → Promise (Call.load rules) (state table store) result.answer (state result.table store) }
{
    Returned {
        answer: Answer::Accepted,
        table: Table { rules, ..table },
    }
}
