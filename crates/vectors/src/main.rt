// Plays the schedules that its arguments name as bondtrace does, those behind the word `steps` as steptrace does, those behind the word `words` as it does
// in words, those behind the word `logs` as it does for two recorders, and those behind the word `texts` through their text and back. Last it tries what no schedule and no line of the console can say.

#![tactic(auto)]

mod cases;
mod texts;
mod trying;

use scanning::is_word;
use std::env::FillError;
use std::io::{ErrorKind, Read, Write};
use std::rt::{Env, Files};
use std::{fs, io, str};
use step_printing::Mode;

// What is done with a schedule: it is played to its end, followed record by record, in full, in words or as two recorders note it, or read back from its text.
#[derive(Clone, Copy, PartialEq, Eq)]
enum Task {
    Play,
    Follow(Mode),
    Respell,
}

// What a word says is done with the schedules behind it; none where it is the name of a schedule.
fn task_of(word: &[u8]) -> Option<Task> {
    if is_word(word, b"steps") {
        return Some(Task::Follow(Mode::Full));
    }
    if is_word(word, b"words") {
        return Some(Task::Follow(Mode::Words));
    }
    if is_word(word, b"texts") {
        return Some(Task::Respell);
    }
    if is_word(word, b"logs") {
        return Some(Task::Follow(Mode::Logs));
    }
    None
}

// Plays the schedule that an input delivers.
fn play<I: Read, O: Write>(input: &mut I, output: &mut O, task: Task) -> io::Result<()> {
    match task {
        Task::Play => end_printing::run(input, output),
        Task::Follow(mode) => step_printing::follow(input, output, mode),
        Task::Respell => texts::respell(input, output),
    }
}

// Opens the schedule with this name, which is a path as text.
// Kept beside its twin in `console`: no crate below both opens files, and one for these six lines is no plainer.
fn open_schedule<R: Files>(rt: &R, name: &[u8]) -> io::Result<R::File> {
    match str::from_utf8(name) {
        Ok(path) => fs::open(rt, path),
        Err(_) => Err(io::Error::from(ErrorKind::InvalidFilename)),
    }
}

// Prints the schedule's name and plays it; one that cannot be opened is played as an empty one.
fn play_named<R: Files, O: Write>(
    rt: &R,
    output: &mut O,
    name: &[u8],
    task: Task,
) -> io::Result<()> {
    output.write_all(name)?;
    output.write_all(b"\n")?;
    match open_schedule(rt, name) {
        Ok(mut schedule) => play(&mut schedule, output, task),
        Err(_) => play(&mut io::empty(), output, task),
    }
}

// What a word among the arguments does: it says what is done with those behind it, or names a schedule, which is played. The answer is what is done from here on.
fn take_word<R: Files, O: Write>(
    rt: &R,
    output: &mut O,
    word: &[u8],
    task: Task,
) -> io::Result<Task> {
    if let Some(asked) = task_of(word) {
        return Ok(asked);
    }
    play_named(rt, output, word, task)?;
    Ok(task)
}

// Plays the schedules that the arguments name.
fn play_all<R: Env + Files, O: Write>(rt: &R, output: &mut O) -> io::Result<()> {
    let mut word = [0u8; 4096];
    let mut task = Task::Play;
    for i in 1..usize::MAX {
        match rt.arg(i, &mut word) {
            Ok(n) => task = take_word(rt, output, &word[..n], task)?,
            // No path is as long, so that it is played as one that no schedule has.
            Err(FillError::TooLong) => task = take_word(rt, output, b"", task)?,
            Err(FillError::NotPresent) => return Ok(()),
        }
    }
    Ok(())
}

fn main(rt: HostRuntime) -> io::Result<()> {
    let mut output = rt.stdout();
    play_all(&rt, &mut output)?;
    trying::try_all(&mut output)
}
