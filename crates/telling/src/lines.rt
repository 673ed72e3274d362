// An answer, or a word, as a line.
ghost use Rattle.std.specs.Prelude.{◌≡◌, ◌++◌};
ghost use Rattle.model.specs.Bondtrace.{ascii};
ghost use Rattle.text.specs.Texts.{answer_text};
ghost use Rattle.text.specs.Writing.{written, Written};

use model::Answer;
use text::{NEWLINE, Text};

// An answer as a line.
pub fn tell_answer(out: &mut Text, answer: Answer)
    ensures { out.new ≡ written (answer_text answer ++ ascii "\n") out.old }
{
    out.answer(answer);
    out.byte(NEWLINE);
}

// A word as a line.
pub fn tell_word(out: &mut Text, word: &[u8])
    ensures { out.new ≡ written (word.now ++ ascii "\n") out.old }
{
    out.bytes(word);
    out.byte(NEWLINE);
}

// An answer as a line from a place on.
pub fn put_line(out: &mut [u8], start: usize, answer: Answer) -> usize
    ensures { Written start (answer_text answer ++ ascii "\n") out.old out.new result }
{
    let mut text = Text::at(out, start);
    tell_answer(&mut text, answer);
    text.len()
}

// A word as a line at the front.
pub fn put_word(out: &mut [u8], word: &[u8]) -> usize
    ensures { Written 0 (word.now ++ ascii "\n") out.old out.new result }
{
    let mut text = Text::new(out);
    tell_word(&mut text, word);
    text.len()
}
