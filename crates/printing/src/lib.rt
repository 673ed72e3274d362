// What program `bondtrace` prints, written into a caller's bytes as far as they reach.

#![tactic(auto, using(text::proofs::Writing::writing, crate::proofs::Texts::lines), unfolding(crate::specs::Texts::outcome_text, model::specs::Bondtrace::ascii, model::specs::Lists::up_to))]

ghost use Rattle.std.specs.Prelude.{◌≡◌, ◌*◌, ◌≤◌, length};
ghost use Rattle.model.specs.Threads.{at};
ghost use Rattle.model.specs.Promise.{state};
ghost use Rattle.model.specs.Bondtrace.{tally, thread_line, final_text, bad_line};
ghost use Rattle.text.specs.Writing.{written, Printed};
ghost use Rattle.printing.specs.Texts.{outcome_text, threads_text, longest_outcome, longest_line, longest_text, longest_bad_line};

use model::{Outcome, Table};
use text::{NEWLINE, SPACE, Text};

// A thread's number, and its code, source and count.
pub fn put_outcome(out: &mut Text, x: u8, shown: Outcome)
    ensures written { out.new ≡ written (outcome_text x shown) out.old }
    ensures shown_len_bound { length (outcome_text x shown) ≤ longest_outcome }
{
    out.number(u64::from(x));
    out.byte(SPACE);
    out.signed(shown.code);
    out.byte(SPACE);
    out.number(u64::from(shown.source));
    out.byte(SPACE);
    out.number(u64::from(shown.count));
}

// A thread's line: that, and as many of its words as the count.
fn put_thread(out: &mut Text, x: u8, shown: Outcome, store: &[u32])
    ensures written { (t : Table) → (at t x).outcome ≡ shown → out.new ≡ written (thread_line (state t store.now) x) out.old }
    ensures x_len_bound { (t : Table) → (at t x).outcome ≡ shown → length (thread_line (state t store.now) x) ≤ longest_line }
{
    let words = words::first_words(store, x, shown.count);
    put_outcome(out, x, shown);
    out.words(words);
    out.byte(NEWLINE);
}

// The outcome of thread x. Past the table's 32 threads everything is zero.
fn outcome_at(table: Table, x: u8) -> Outcome
    ensures { result ≡ (at table x).outcome }
{
    match table.threads.get(usize::from(x)) {
        Some(thread) => thread.outcome,
        None => Outcome {
            code: 0,
            source: 0,
            count: 0,
        },
    }
}

// The lines of all threads.
fn put_threads(out: &mut Text, table: Table, store: &[u32])
    ensures written { out.new ≡ written (threads_text (state table store.now) table.n) out.old }
    ensures n_len_bound { length (threads_text (state table store.now) table.n) ≤ longest_line * table.n }
{
    for x in 0..table.n {
        put_thread(out, x, outcome_at(table, x), store);
    }
}

// What is printed of a schedule that is not refused: how many records were read and calls refused, and a line for each thread.
pub fn final_text(table: Table, store: &[u32], records: u64, refused: u64, out: &mut [u8]) -> usize
    ensures { Printed (final_text (tally table store.now records refused)) (longest_text table.n) out.old out.new result }
{
    let mut text = Text::new(out);
    text.numbers(b"records ", records, b" refused ", refused);
    put_threads(&mut text, table, store);
    text.len()
}

// The line for a schedule that is refused: the refusal's number, and the byte where the refused record starts.
pub fn bad_line(number: u8, place: u64, out: &mut [u8]) -> usize
    ensures { Printed (bad_line number place) longest_bad_line out.old out.new result }
{
    let mut text = Text::new(out);
    text.numbers(b"bad ", u64::from(number), b" at ", place);
    text.len()
}
