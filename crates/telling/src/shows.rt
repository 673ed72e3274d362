// The commands that print a thread: its outcome, everything in use, or what its search finds.
ghost use Rattle.std.specs.Prelude.{◌≡◌};
ghost use Rattle.model.specs.Answers.{searched};
ghost use Rattle.model.specs.Promise.{search_answer};
ghost use Rattle.text.specs.Writing.{written, Written};
ghost use Rattle.telling.specs.Texts.{sender_text, search_text};

use crate::lines::{tell_answer, tell_word};
use model::{Answer, Table};
use searches::Found;
use text::{NEWLINE, SPACE, Text};
use threads::{NOBODY, WORD_LIMIT};

// The outcome of thread x and its words, by the public calls.
pub fn outcome(table: Table, x: u8, store: &[u32], out: &mut [u8]) -> usize {
    let mut text = Text::new(out);
    match outcomes::outcome_answer(table, x, store) {
        Err(number) => tell_answer(&mut text, Answer::Refused(number)),
        Ok(shown) => {
            printing::put_outcome(&mut text, x, shown);
            text.words(outcomes::outcome_words(table, x, store));
            text.byte(NEWLINE);
        }
    }
    text.len()
}

// A line for each thread, 32 at most, with those of its words that the store has.
pub fn show(table: Table, store: &[u32], out: &mut [u8]) -> usize {
    let mut text = Text::new(out);
    for x in 0..table.n.min(32) {
        let words = words::first_words(store, x, WORD_LIMIT);
        showing::put_thread(&mut text, x, table.threads[usize::from(x)], words);
    }
    text.len()
}

// A sender, or `none`.
fn tell_sender(out: &mut Text, sender: u8)
    ensures { out.new ≡ written (sender_text sender) out.old }
{
    if sender == NOBODY {
        out.bytes(b"none");
    } else {
        out.number(u64::from(sender));
    }
}

// What a search found, and how many places it read.
fn tell_found(out: &mut Text, found: Found)
    ensures { out.new ≡ written (search_text (searched found.sender found.read)) out.old }
{
    tell_sender(out, found.sender);
    out.byte(SPACE);
    out.number(u64::from(found.read));
    out.byte(NEWLINE);
}

// What the search of thread x finds, as a line.
fn tell_search(out: &mut Text, table: Table, x: u8)
    ensures { out.new ≡ written (search_text (search_answer table x)) out.old }
{
    match searches::search(table, x) {
        Err(number) => tell_answer(out, Answer::Refused(number)),
        Ok(None) => tell_word(out, b"not receiving"),
        Ok(Some(found)) => tell_found(out, found),
    }
}

// The same as a line at the front.
pub fn search(table: Table, x: u8, out: &mut [u8]) -> usize
    ensures { Written 0 (search_text (search_answer table x)) out.old out.new result }
{
    let mut text = Text::new(out);
    tell_search(&mut text, table, x);
    text.len()
}
