// Numbers read one after the other from a line, and kept in the caller's slice.
ghost use Rattle.std.specs.Prelude.{◌≡◌, cond, [], ◌∷◌, ◌++◌, ◌+◌, ◌*◌, ◌≤◌, length, take, drop};
ghost use Rattle.model.specs.Lists.{bit};
ghost use Rattle.language.specs.Words.{words};
ghost use Rattle.language.specs.Grammar.{takes_sign};
ghost use Rattle.language.specs.Commands.{read_number, read_numbers};
ghost use Rattle.scanning.specs.Scanned.{between};
ghost use Rattle.commands.specs.Standing.{progress, Placed, Valued, Advanced, one_more, read_on};

use crate::Misread;
use letters::{Reason, amount_of, is_negative, reason_for, takes_sign};
use scanning::{Span, next_word};

// How far a line is read: up to which place, and how many numbers were read.
#[derive(Clone, Copy)]
pub struct Cursor {
    pub at: usize,
    pub count: usize,
}

// One number kept behind those before, with its sign where it may have one: how many there are then.
fn keep(letter: u8, negative: bool, value: u32, count: usize, numbers: &mut [u32]) -> usize
    requires { count + 2 ≤ length numbers.old }
    ensures numbers_after { take result numbers.new ≡ take count numbers.old ++ cond (takes_sign letter) (bit negative ∷ value ∷ []) (value ∷ []) }
    ensures upper_bound { result ≤ count + 2 }
{
    if !takes_sign(letter) {
        numbers[count] = value;
        return count + 1;
    }
    numbers[count] = u32::from(negative);
    numbers[count + 1] = value;
    count + 2
}

// The number that a word is.
pub fn value_of(line: &[u8], letter: u8, word: Span) -> Result<u32, Misread>
    requires { Placed line.now word.start word.end }
    ensures { Valued letter line.now word result }
{
    match amount_of(letter, &line[word.start..word.end]) {
        Ok(value) => Ok(value),
        Err(reason) => Err(Misread { reason, word }),
    }
}

// A word kept as a number.
fn read_word(
    line: &[u8],
    letter: u8,
    word: Span,
    count: usize,
    numbers: &mut [u32],
) -> Result<Cursor, Misread>
    requires placed { Placed line.now word.start word.end }
    requires count_in_bounds { count + 2 ≤ length numbers.old }
    ensures { Advanced line.now numbers.new (one_more letter (take count numbers.old) (between word.start word.end line.now) (words (drop word.end line.now))) (count + 2) result }
{
    let value = value_of(line, letter, word)?;
    let negative = is_negative(letter, &line[word.start..word.end]);
    let count = keep(letter, negative, value, count, numbers);
    Ok(Cursor {
        at: word.end,
        count,
    })
}

// One number more.
fn read_number(
    line: &[u8],
    letter: u8,
    cursor: Cursor,
    numbers: &mut [u32],
) -> Result<Cursor, Misread>
    requires at_in_bounds { cursor.at ≤ length line.now }
    requires count_in_bounds { cursor.count + 2 ≤ length numbers.old }
    ensures { Advanced line.now numbers.new (read_number letter (progress line.now numbers.old cursor)) (cursor.count + 2) result }
{
    let word = next_word(line, cursor.at);
    if word.start == word.end {
        let reason = reason_for(letter, Reason::Missing);
        return Err(Misread { reason, word });
    }
    read_word(line, letter, word, cursor.count, numbers)
}

// A number for each letter.
pub fn read_numbers(
    line: &[u8],
    letters: &[u8],
    cursor: Cursor,
    numbers: &mut [u32],
) -> Result<Cursor, Misread>
    requires at_in_bounds { cursor.at ≤ length line.now }
    requires letters_in_bounds { cursor.count + 2 * length letters.now ≤ length numbers.old }
    ensures { Advanced line.now numbers.new (read_numbers letters.now (progress line.now numbers.old cursor)) (cursor.count + 2 * length letters.now) result }
{
    let mut last = cursor;
    for letter in letters {
        last = read_number(line, *letter, last, numbers)?;
    }
    Ok(last)
}

// The rest of a line: at most so many numbers.
pub fn read_more(
    line: &[u8],
    letter: u8,
    most: usize,
    cursor: Cursor,
    numbers: &mut [u32],
) -> Result<Cursor, Misread>
    requires at_in_bounds { cursor.at ≤ length line.now }
    requires most_in_bounds { cursor.count + 2 * most ≤ length numbers.old }
    ensures { Advanced line.now numbers.new (read_on letter most (progress line.now numbers.old cursor)) (cursor.count + 2 * most) result }
{
    let mut last = cursor;
    for _read in 0..most {
        let word = next_word(line, last.at);
        if word.start == word.end {
            return Ok(last);
        }
        last = read_word(line, letter, word, last.count, numbers)?;
    }
    let word = next_word(line, last.at);
    if word.start == word.end {
        return Ok(last);
    }
    Err(Misread {
        reason: Reason::TooMuch,
        word,
    })
}
