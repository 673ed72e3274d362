// What comparing two logs answers.
ghost use Rattle.std.specs.Prelude.{◌≡◌};
ghost use Rattle.text.specs.Writing.{written, Written};
ghost use Rattle.telling.specs.Texts.{named_number, compared_text};

use crate::lines::tell_word;
use logs::Compared;
use text::{NEWLINE, Text};

// A number behind its name, as a line.
fn tell_number(out: &mut Text, name: &[u8], number: u64)
    ensures { out.new ≡ written (named_number name.now number) out.old }
{
    out.bytes(name);
    out.number(number);
    out.byte(NEWLINE);
}

// That two logs agree, where they first differ, or a refusal, as a line.
fn tell_compared(out: &mut Text, compared: Compared)
    ensures { out.new ≡ written (compared_text compared) out.old }
{
    match compared {
        Compared::Refused(number) => tell_number(out, b"refused ", u64::from(number)),
        Compared::Agree => tell_word(out, b"agree"),
        Compared::Send(place) => tell_number(out, b"send ", u64::from(place)),
        Compared::Receive(place) => tell_number(out, b"receive ", u64::from(place)),
    }
}

// The same as a line at the front.
pub fn put_compared(out: &mut [u8], compared: Compared) -> usize
    ensures { Written 0 (compared_text compared) out.old out.new result }
{
    let mut text = Text::new(out);
    tell_compared(&mut text, compared);
    text.len()
}
