// The lines that an input delivers, each answered before the next is read, in constant memory.
ghost use Rattle.std.specs.Prelude.{◌≡◌, ◌≤◌, length};
ghost use Rattle.commands.specs.Standing.{line_room};

use crate::watching;
use dialogue::Session;
use line_input::Lines;
use std::io;
use std::io::{Read, Write};

// What is kept from one line to the next: the session, and the words that its store is lent from.
#[derive(Clone, Copy)]
pub struct Standing {
    pub session: Session,
    pub words: [u32; 320],
}

// Nothing is made or lent yet.
fn at_first() -> Standing {
    Standing {
        session: dialogue::new_session(),
        words: [0; 320],
    }
}

// Answers one line; where it is watched, tells too what a refused line changed.
fn answer_line<W: Write>(
    output: &mut W,
    before: Standing,
    line: &[u8],
    number: u64,
    numbers: &mut [u32],
    entries: &mut [u32],
    out: &mut [u8],
    watched: bool,
) -> io::Result<Standing>
    requires { line_room ≤ length numbers.old }
    ensures { length numbers.new ≡ length numbers.old }
{
    let mut words = before.words;
    let session = before.session;
    let reply = dialogue::respond(session, line, number, numbers, &mut words, entries, out);
    let after = Standing {
        session: reply.session,
        words,
    };
    let answer = &out[..reply.end.min(out.len())];
    output.write_all(answer)?;
    if watched {
        watching::watch(output, answer, &before, &after)?;
    }
    Ok(after)
}

// Answers the lines that an input delivers, to its end.
pub fn talk<R: Read, W: Write>(input: &mut R, output: &mut W, watched: bool) -> io::Result<()> {
    let mut space = [0u8; 65536];
    let mut text = [0u8; 65536];
    let out: &mut [u8] = &mut text;
    let mut read = commands::no_numbers();
    let numbers: &mut [u32] = &mut read;
    let mut noted = dialogue::no_entries();
    let entries: &mut [u32] = &mut noted;
    let mut standing = at_first();
    let mut lines = Lines::new(&mut space);
    // As many lines are counted as 64 bits can, which no input comes near.
    for before in 0..u64::MAX {
        let Some(line) = lines.fetch_line(input)? else {
            return Ok(());
        };
        standing = answer_line(
            output,
            standing,
            lines.text(line),
            before + 1,
            numbers,
            entries,
            out,
            watched,
        )?;
    }
    Ok(())
}
