// Prints, after each record of the schedule on standard input, the call's answer and every field in use of every thread; with the argument `words`, what the record was and what
// it changed, in words; with the argument `logs`, what two recorders note at each rendezvous, as lines of the console.

#![tactic(auto)]

use scanning::is_word;
use std::io;
use std::rt::Env;
use step_printing::Mode;

// What a word asks for, if it is one of the two that do.
fn mode_of(word: &[u8]) -> Option<Mode> {
    if is_word(word, b"words") {
        return Some(Mode::Words);
    }
    if is_word(word, b"logs") {
        return Some(Mode::Logs);
    }
    None
}

// What the first argument asks for; none where it is missing, or too long for any word.
fn mode_asked<R: Env>(rt: &R) -> Option<Mode> {
    let mut argument = [0u8; 4096];
    match rt.arg(1, &mut argument) {
        Ok(n) => mode_of(&argument[..n]),
        Err(_) => None,
    }
}

fn main(rt: HostRuntime) -> io::Result<()> {
    let mode = mode_asked(&rt).unwrap_or(Mode::Full);
    step_printing::follow(&mut rt.stdin(), &mut rt.stdout(), mode)
}
