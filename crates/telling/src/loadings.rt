// What a loading of rules answers: a refusal tells the pair that does not fit.
ghost use Rattle.std.specs.Prelude.{◌≡◌};
ghost use Rattle.text.specs.Writing.{written, Written};
ghost use Rattle.telling.specs.Texts.{pair_text, misfit_text, loaded_text};

use model::{Answer, Misfit, Pair};
use text::{NEWLINE, SPACE, Text};

// A pair, each number behind a space.
fn tell_pair(out: &mut Text, pair: Pair)
    ensures { out.new ≡ written (pair_text pair) out.old }
{
    out.byte(SPACE);
    out.number(u64::from(pair.sender));
    out.byte(SPACE);
    out.number(u64::from(pair.target));
}

// What does not fit, and its pair.
fn tell_misfit(out: &mut Text, misfit: Misfit)
    ensures { out.new ≡ written (misfit_text misfit) out.old }
{
    let pair = rules::pair_of(misfit);
    match misfit {
        Misfit::Fits => {}
        Misfit::TooMany => {
            out.bytes(b" rows");
            tell_pair(out, pair);
        }
        Misfit::Gap(_) => {
            out.bytes(b" gap");
            tell_pair(out, pair);
        }
        Misfit::Overlap(_) => {
            out.bytes(b" overlap");
            tell_pair(out, pair);
        }
    }
}

// What a loading answered, as a line.
fn tell_loaded(out: &mut Text, answer: Answer, misfit: Misfit)
    ensures { out.new ≡ written (loaded_text answer misfit) out.old }
{
    out.answer(answer);
    tell_misfit(out, misfit);
    out.byte(NEWLINE);
}

// The same as a line at the front.
pub fn put_loaded(out: &mut [u8], answer: Answer, misfit: Misfit) -> usize
    ensures { Written 0 (loaded_text answer misfit) out.old out.new result }
{
    let mut text = Text::new(out);
    tell_loaded(&mut text, answer, misfit);
    text.len()
}
