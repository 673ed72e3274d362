// The public calls: each tests its arguments in the order of document 01's rows of refusal, and then runs the core.

#![tactic(auto, unfolding(model::specs::Refusals::refusal, model::specs::Refusals::rows_of, model::specs::Refusals::later_rows, model::specs::Refusals::table_rows))]

ghost use Rattle.std.specs.Prelude.{◌≡◌, ℕ, List, length};
ghost use Rattle.model.specs.declared.Answer.TheVariants.{Refused};
ghost use Rattle.model.specs.declared.EntryPoint.TheVariants.{Main, Spark};
ghost use Rattle.model.specs.Calls.{Call};
ghost use Rattle.model.specs.Refusals.{refusal};
ghost use Rattle.model.specs.Promise.{state, Promise, MakePromise, load_misfit};
ghost use Rattle.refusals.specs.Numbers.{number, number_of};

use model::{Answer, EntryPoint, Loaded, Misfit, Operation, Returned, Rules, Table};
use refusals::Refusal;

// A call that is refused: its number, and the table as it was.
fn refuse(by: Refusal, table: Table) -> Returned
    ensures returned { result ≡ record { answer = Refused (number by); table = table } }
    ensures promised { (c : Call) (store : List ℕ) → number by ≡ refusal c (state table store) → Promise c (state table store) result.answer (state result.table store) }
{
    Returned {
        answer: Answer::Refused(by.into()),
        table: table,
    }
}

// A new table of n threads.
pub fn make(n: u8) -> Returned
    ensures { MakePromise n result.answer result.table }
{
    match refusals::size_refusal(n) {
        Err(refusal) => refuse(refusal, unchecked::new_table(0)),
        Ok(()) => Returned {
            answer: Answer::Accepted,
            table: unchecked::new_table(n),
        },
    }
}

// The rows of a begin through an entry.
#[tactic(auto, using(crate::proofs::Beginning::begin_rules))]
fn begin_refusal(
    via: EntryPoint,
    table: Table,
    thread: u8,
    op: Operation,
    words: usize,
) -> Result<(), Refusal>
    ensures { (store : List ℕ) → length store ≡ words → number_of result ≡ refusal (Call.begin_via via thread op) (state table store) }
{
    refusals::stored_call_refusal(table, thread, words)?;
    let own = table.threads[thread as usize];
    refusals::begin_refusal(via, table.n, thread, own, op)?;
    refusals::permit_refusal(table.n, table.rules, thread, op)
}

// A thread begins an operation through an entry.
fn begin_via(
    via: EntryPoint,
    table: Table,
    thread: u8,
    op: Operation,
    store: &mut [u32],
) -> Returned
    ensures { Promise (Call.begin_via via thread op) (state table store.old) result.answer (state result.table store.new) }
{
    match begin_refusal(via, table, thread, op, store.len()) {
        Err(refusal) => refuse(refusal, table),
        Ok(()) => unchecked::begin(table, thread, op, store),
    }
}

// A thread begins an operation, through the main entry.
pub fn begin(table: Table, thread: u8, op: Operation, store: &mut [u32]) -> Returned
    ensures { Promise (Call.begin_via Main thread op) (state table store.old) result.answer (state result.table store.new) }
{
    begin_via(EntryPoint::Main, table, thread, op, store)
}

// A thread begins an operation of at most three words, through the spark entry.
pub fn spark_begin(table: Table, thread: u8, op: Operation, store: &mut [u32]) -> Returned
    ensures { Promise (Call.begin_via Spark thread op) (state table store.old) result.answer (state result.table store.new) }
{
    begin_via(EntryPoint::Spark, table, thread, op, store)
}

// A thread makes one step.
pub fn step(table: Table, thread: u8, store: &mut [u32]) -> Returned
    ensures { Promise (Call.step thread) (state table store.old) result.answer (state result.table store.new) }
{
    match refusals::stored_call_refusal(table, thread, store.len()) {
        Err(refusal) => refuse(refusal, table),
        Ok(()) => unchecked::step(table, thread, store),
    }
}

// The rows of a cancel.
#[tactic(auto, using(crate::proofs::Cancelling::cancel_rules), unfolding(model::specs::Threads::at))]
fn cancel_refusal(table: Table, thread: u8) -> Result<(), Refusal>
    ensures { (store : List ℕ) → number_of result ≡ refusal (Call.cancel thread) (state table store) }
{
    refusals::numbered_call_refusal(table, thread)?;
    refusals::lock_refusal(table.threads[thread as usize])
}

// A thread's operation is to be cancelled; the store is not touched.
pub fn cancel(table: Table, thread: u8) -> Returned
    ensures { (store : List ℕ) → Promise (Call.cancel thread) (state table store) result.answer (state result.table store) }
{
    match cancel_refusal(table, thread) {
        Err(refusal) => refuse(refusal, table),
        Ok(()) => unchecked::cancel(table, thread),
    }
}

// Time passes for every running operation; the store is not touched.
pub fn tick(table: Table) -> Returned
    ensures { (store : List ℕ) → Promise Call.tick (state table store) result.answer (state result.table store) }
{
    match refusals::table_refusal(table) {
        Err(refusal) => refuse(refusal, table),
        Ok(()) => unchecked::tick(table),
    }
}

// What a loading returned, with the pair that is told.
fn told(misfit: Misfit, returned: Returned) -> Loaded
    ensures { result ≡ record { answer = returned.answer; misfit = misfit; table = returned.table } }
{
    Loaded {
        answer: returned.answer,
        misfit: misfit,
        table: returned.table,
    }
}

// Rules are loaded: who may send to whom from now on. Refused with 14, it is told which pair does not fit; the store is not touched.
#[tactic(auto, using(crate::proofs::Loading::load_rules))]
pub fn load(table: Table, rules: Rules) -> Loaded
    ensures kept { (store : List ℕ) → Promise (Call.load rules) (state table store) result.answer (state result.table store) }
    ensures misfit { result.misfit ≡ load_misfit table rules }
{
    if let Err(refusal) = refusals::table_refusal(table) {
        return told(Misfit::Fits, refuse(refusal, table));
    }
    let found = rules::misfit_of(table.n, rules);
    match refusals::load_refusal(found) {
        Err(refusal) => told(found, refuse(refusal, table)),
        Ok(()) => told(found, unchecked::load(table, rules)),
    }
}
