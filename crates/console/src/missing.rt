// A script that cannot be opened, told on standard error.
use std::io::{Cursor, Error, Write};
use std::{io, str};

// The words of an error, without the number that stands in brackets behind the system's.
fn words_of(text: &str) -> &str {
    match text.split_once(" (os error ") {
        Some((words, _)) => words,
        None => text,
    }
}

// Prints why a script could not be opened: its name, and the words of the error.
pub fn say_missing<E: Write>(errors: &mut E, name: &[u8], error: Error) -> io::Result<()> {
    let mut told = Cursor::new([0u8; 256]);
    // words that do not fit are cut
    let _ = write!(told, "{error}");
    let end = told.position().min(256) as usize;
    let text = told.into_inner();
    let words = str::from_utf8(&text[..end]).unwrap_or("");
    errors.write_all(name)?;
    errors.write_all(b": ")?;
    errors.write_all(words_of(words).as_bytes())?;
    errors.write_all(b"\n")
}
