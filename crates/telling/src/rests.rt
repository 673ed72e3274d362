// Whether a table is at rest.
ghost use Rattle.std.specs.Prelude.{◌≡◌};
ghost use Rattle.model.specs.Answers.{would_move};
ghost use Rattle.model.specs.Rest.{rest_answer};
ghost use Rattle.text.specs.Writing.{written, Written};
ghost use Rattle.telling.specs.Texts.{rest_text};

use crate::lines::{tell_answer, tell_word};
use model::{Answer, Table};
use text::{NEWLINE, Text};

// That a thread would move.
fn tell_mover(out: &mut Text, x: u8)
    ensures { out.new ≡ written (rest_text (would_move x)) out.old }
{
    out.number(u64::from(x));
    out.bytes(b" would move");
    out.byte(NEWLINE);
}

// Whether every thread's step would stay, or the lowest whose would not, as a line.
fn tell_rest(out: &mut Text, table: Table)
    ensures { out.new ≡ written (rest_text (rest_answer table)) out.old }
{
    match resting::rest(table) {
        Err(number) => tell_answer(out, Answer::Refused(number)),
        Ok(None) => tell_word(out, b"at rest"),
        Ok(Some(x)) => tell_mover(out, x),
    }
}

// The same as a line at the front.
pub fn rest(table: Table, out: &mut [u8]) -> usize
    ensures { Written 0 (rest_text (rest_answer table)) out.old out.new result }
{
    let mut text = Text::new(out);
    tell_rest(&mut text, table);
    text.len()
}
