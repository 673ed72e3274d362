// A number by its letter: its largest value, its least, its sign, and how many more may follow.

#![tactic(auto)]

ghost use Rattle.std.specs.Prelude.{◌≡◌};
ghost use Rattle.language.specs.Grammar.{largest, least, takes_sign, most_more};
ghost use Rattle.language.specs.Commands.{is_negative, choice_digits, digits_of, reason_for};
ghost use Rattle.letters.specs.Measured.{Measured, number_of};

use scanning::{is_word, number};

// Why a line is no command, or is refused, by the number that the language gives it.
#[derive(Clone, Copy, PartialEq, Eq)]
pub enum Reason {
    NoCommand = 1,
    NoField = 2,
    NoPart = 3,
    Missing = 4,
    NotNumber = 5,
    TooLarge = 6,
    TooSmall = 7,
    TooMuch = 8,
    TooLong = 9,
    NotRecord = 10,
    TableFirst = 11,
    NoChoice = 12,
    RowsFull = 13,
    LogFull = 14,
}

impl From<Reason> for u8 {
    ghost from_gives = { λ reason result. result ≡ number_of reason };

    fn from(reason: Reason) -> u8 {
        reason as u8
    }
}

// The letters: a flag, a thread, a record, a size of the store, a byte, a place of a queue, a word, ticks, a code with its sign, yes or no, and how many places are lent.
// Kept: bytes, no enum. The table of the grammar holds them, and `largest`, `least` and `most_more` of language/specs/Grammar are told them.
const FLAG: u8 = b'1';

pub const THREAD: u8 = b't';

const RECORDS: u8 = b'r';

const SIZE: u8 = b's';

pub const BYTE: u8 = b'b';

const QUEUED: u8 = b'q';

pub const WORD: u8 = b'w';

const TICKS: u8 = b'k';

const CODE: u8 = b'c';

const CHOICE: u8 = b'y';

const PLACES: u8 = b'l';

// What stands before a number below 0.
const MINUS: u8 = b'-';

// The largest number of a letter.
#[tactic(auto, unfolding(language::specs::Grammar::largest))]
fn largest_of(letter: u8) -> u64
    ensures { result ≡ largest letter }
{
    match letter {
        FLAG => 1,
        THREAD => 31,
        RECORDS => 40,
        SIZE => 320,
        BYTE | QUEUED => 255,
        WORD => 4294967295,
        PLACES => 4200,
        _ => 65535,
    }
}

// The least.
#[tactic(auto, unfolding(language::specs::Grammar::least))]
fn least_of(letter: u8) -> u64
    ensures { result ≡ least letter }
{
    if letter == TICKS { 1 } else { 0 }
}

// Whether it may have a sign.
#[tactic(auto, unfolding(language::specs::Grammar::takes_sign))]
pub fn takes_sign(letter: u8) -> bool
    ensures { result ≡ takes_sign letter }
{
    letter == CODE
}

// How many more numbers may follow.
#[tactic(auto, unfolding(language::specs::Grammar::most_more))]
pub fn most_more(letter: u8) -> usize
    ensures { result ≡ most_more letter }
{
    match letter {
        TICKS => 1,
        QUEUED => 32,
        BYTE | WORD => 2048,
        _ => 0,
    }
}

// Whether a number has a sign where one is allowed.
#[tactic(auto, unfolding(language::specs::Commands::is_negative))]
pub fn is_negative(letter: u8, word: &[u8]) -> bool
    ensures { result ≡ is_negative letter word.now }
{
    takes_sign(letter) && word.first() == Some(&MINUS)
}

// A reason why a number is none; of yes or no that it is neither.
#[tactic(auto, unfolding(language::specs::Commands::reason_for, language::specs::Grammar::takes_choice))]
pub fn reason_for(letter: u8, reason: Reason) -> Reason
    ensures { number_of result ≡ reason_for letter (number_of reason) }
{
    if letter == CHOICE {
        Reason::NoChoice
    } else {
        reason
    }
}

// The number that digits are, where it is one of its letter.
fn measured(letter: u8, digits: &[u8]) -> Result<u32, Reason>
    ensures { Measured letter digits.now result }
{
    let value = number(digits).ok_or(reason_for(letter, Reason::NotNumber))?;
    if largest_of(letter) < value {
        return Err(Reason::TooLarge);
    }
    if value < least_of(letter) {
        return Err(Reason::TooSmall);
    }
    Ok(value as u32)
}

// `yes` as 1 and `no` as 0.
fn chosen(letter: u8, word: &[u8]) -> Result<u32, Reason>
    ensures { Measured letter (choice_digits word.now) result }
{
    if is_word(word, b"yes") {
        return measured(letter, b"1");
    }
    if is_word(word, b"no") {
        return measured(letter, b"0");
    }
    measured(letter, b"")
}

// The number that a word is without its sign.
pub fn amount_of(letter: u8, word: &[u8]) -> Result<u32, Reason>
    ensures { Measured letter (digits_of letter word.now) result }
{
    if letter == CHOICE {
        return chosen(letter, word);
    }
    if is_negative(letter, word) {
        return measured(letter, &word[1..]);
    }
    measured(letter, word)
}
