// The logs of two recorders of one run, as lines of the console: at each rendezvous an entry of the sends, as it was begun, and one of the receives, as its outcome tells.
use crate::lines::print_line;
use crate::taken::Taken;
use model::{Answer, SendPart, Table};
use std::io;
use std::io::Write;
use text::{SPACE, Text};
use words::first_words;

// Prints an entry: its command, the two threads and the words.
fn print_entry<W: Write>(
    output: &mut W,
    command: &[u8],
    first: u8,
    second: u8,
    words: &[u32],
) -> io::Result<()> {
    let mut space = [0u8; 4096];
    let mut line = Text::new(&mut space);
    line.bytes(command);
    line.number(u64::from(first));
    line.byte(SPACE);
    line.number(u64::from(second));
    line.words(words);
    print_line(output, &mut line)
}

// Prints what thread x began to send. The words of a send part lie as those of the first thread of a store.
fn print_sent<W: Write>(output: &mut W, x: u8, send: SendPart) -> io::Result<()> {
    let words = send.words;
    let message = first_words(&words, 0, send.count);
    print_entry(output, b"sent ", x, send.target, message)
}

// Prints what a thread received.
fn print_received<W: Write>(output: &mut W, table: Table, x: u8, store: &[u32]) -> io::Result<()> {
    if let Ok(outcome) = outcomes::outcome_answer(table, x, store) {
        let words = outcomes::outcome_words(table, x, store);
        return print_entry(output, b"received ", x, outcome.source, words);
    }
    Ok(())
}

// Prints both entries of a record that is a rendezvous: a step, not refused, that finishes a copy.
pub fn print_rendezvous<W: Write>(output: &mut W, taken: Taken) -> io::Result<()> {
    if taken.item.kind != reading::STEP {
        return Ok(());
    }
    if let Answer::Refused(_) = taken.answer {
        return Ok(());
    }
    let x = taken.item.thread;
    // Never none, for a step of such a thread is refused: no contract here says that.
    let Some(own) = taken.before.threads.get(usize::from(x)) else {
        return Ok(());
    };
    if recording::is_rendezvous(*own) {
        let send = own.op.send;
        print_sent(output, x, send)?;
        return print_received(output, taken.after, send.target, taken.new);
    }
    Ok(())
}

// Prints the command that compares both logs.
pub fn print_compare<W: Write>(output: &mut W) -> io::Result<()> {
    output.write_all(b"compare\n")
}
