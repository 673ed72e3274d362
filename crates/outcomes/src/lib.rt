// What users see of a thread: its outcome and its words, each by a function of its own, and both by the outcome call.

#![tactic(auto)]

ghost use Rattle.std.specs.Prelude.{◌≡◌, ◌+◌, ◌*◌};
ghost use Rattle.model.specs.Answers.{said_outcome};
ghost use Rattle.model.specs.declared.Table.{Table};
ghost use Rattle.model.specs.Promise.{state, outcome_answer, outcome_words, outcome_place};

use model::{Outcome, Table};

// What the outcome call returns: its answer, and the words, as a slice of the caller's store.
#[derive(Clone, Copy)]
pub struct OutcomeReturned<'a> {
    pub answer: Result<Outcome, u8>,
    pub words: &'a [u32],
}

// What the outcome call answers: code, source and count of a thread.
pub fn outcome_answer(table: Table, thread: u8, store: &[u32]) -> Result<Outcome, u8>
    ensures { said_outcome result ≡ outcome_answer (state table store.now) thread }
{
    refusals::stored_call_refusal(table, thread, store.len())?;
    Ok(table.threads[thread as usize].outcome)
}

// The words that go with an answer, as a slice of the caller's store; refused, an empty one at its front.
fn answered_words<'a>(answer: Result<Outcome, u8>, thread: u8, store: &'a [u32]) -> &'a [u32]
    ensures words { (t : Table) → said_outcome answer ≡ outcome_answer (state t store.now) thread → result.now ≡ outcome_words (state t store.now) thread }
    ensures place { (t : Table) → said_outcome answer ≡ outcome_answer (state t store.now) thread → (result.ref_ptr.0 ≡ store.entry.ref_ptr.0) × (result.ref_ptr.1 ≡ store.entry.ref_ptr.1 + 4 * outcome_place (state t store.now) thread) }
{
    match answer {
        Err(_) => words::first_words(store, 0, 0),
        Ok(outcome) => words::first_words(store, thread, outcome.count),
    }
}

// The words that a thread has received, as a slice of the caller's store; refused, an empty one. It does not tell refused from no words: `outcome` does.
pub fn outcome_words<'a>(table: Table, thread: u8, store: &'a [u32]) -> &'a [u32]
    ensures words { result.now ≡ outcome_words (state table store.now) thread }
    ensures place { (result.ref_ptr.0 ≡ store.entry.ref_ptr.0) × (result.ref_ptr.1 ≡ store.entry.ref_ptr.1 + 4 * outcome_place (state table store.now) thread) }
{
    let answer = outcome_answer(table, thread, store);
    answered_words(answer, thread, store)
}

// The outcome call: its answer and the words that go with it.
pub fn outcome<'a>(table: Table, thread: u8, store: &'a [u32]) -> OutcomeReturned<'a>
    ensures answer { said_outcome result.answer ≡ outcome_answer (state table store.now) thread }
    ensures words { result.words.now ≡ outcome_words (state table store.now) thread }
    ensures place { (result.words.ref_ptr.0 ≡ store.entry.ref_ptr.0) × (result.words.ref_ptr.1 ≡ store.entry.ref_ptr.1 + 4 * outcome_place (state table store.now) thread) }
{
    let answer = outcome_answer(table, thread, store);
    let words = answered_words(answer, thread, store);
    OutcomeReturned {
        answer: answer,
        words: words,
    }
}
