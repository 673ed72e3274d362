// Answers commands from standard input, a line each. With arguments it plays the scripts that they name (`-` is standard input), each behind a line with its name; where a call
// of a script is refused, it tells what that changed, which is nothing.

#![tactic(auto)]

mod missing;
mod talking;
mod watching;

use std::env::FillError;
use std::io::{ErrorKind, Read, Write};
use std::rt::{Env, Files};
use std::{fs, io, str};

// Plays the script with this name that an input delivers.
fn play_from<I: Read, O: Write>(input: &mut I, output: &mut O, name: &[u8]) -> io::Result<()> {
    output.write_all(b"== ")?;
    output.write_all(name)?;
    output.write_all(b"\n")?;
    talking::talk(input, output, true)
}

// Opens the script with this name, which is a path as text.
// Kept beside its twin in `vectors`: no crate below both opens files, and one for these six lines is no plainer.
fn open_script<R: Files>(rt: &R, name: &[u8]) -> io::Result<R::File> {
    match str::from_utf8(name) {
        Ok(path) => fs::open(rt, path),
        Err(_) => Err(io::Error::from(ErrorKind::InvalidFilename)),
    }
}

// Plays the script with this name, or says why it cannot be opened.
fn play<R: Files, I: Read, O: Write, E: Write>(
    rt: &R,
    input: &mut I,
    output: &mut O,
    errors: &mut E,
    name: &[u8],
) -> io::Result<()> {
    if scanning::is_word(name, b"-") {
        return play_from(input, output, name);
    }
    match open_script(rt, name) {
        Ok(mut script) => play_from(&mut script, output, name),
        Err(error) => missing::say_missing(errors, name, error),
    }
}

// Plays the scripts that the arguments name.
fn play_scripts<R: Env + Files, I: Read, O: Write, E: Write>(
    rt: &R,
    input: &mut I,
    output: &mut O,
    errors: &mut E,
) -> io::Result<()> {
    let mut word = [0u8; 4096];
    for i in 1..usize::MAX {
        match rt.arg(i, &mut word) {
            Ok(n) => play(rt, input, output, errors, &word[..n])?,
            // No path is as long, so that it is played as one that no script has.
            Err(FillError::TooLong) => play(rt, input, output, errors, b"")?,
            Err(FillError::NotPresent) => return Ok(()),
        }
    }
    Ok(())
}

// Whether there is an argument.
fn has_arguments<R: Env>(rt: &R) -> bool {
    let mut word = [0u8; 4096];
    !matches!(rt.arg(1, &mut word), Err(FillError::NotPresent))
}

fn main(rt: HostRuntime) -> io::Result<()> {
    let mut input = rt.stdin();
    let mut output = rt.stdout();
    if has_arguments(&rt) {
        return play_scripts(&rt, &mut input, &mut output, &mut rt.stderr());
    }
    talking::talk(&mut input, &mut output, false)
}
