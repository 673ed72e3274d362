// How many lists of steps end how: a line for each combination of codes that some list ends with.
use crate::lines::tell_answer;
use counts::count_endings;
use digits::code_of;
use model::{Answer, Table};
use text::{NEWLINE, SPACE, Text};

// The most places that are lent.
const PLACES: usize = 4200;

// What every place holds before a count. It is not 0, so that a place which no count was put into shows.
const MARK: u32 = 7;

// The line of a place that has a count: the codes of n threads, thread 0 in the lowest digit to base 8, and the count.
fn tell_ending(out: &mut Text, n: u8, place: usize, count: u32) {
    if count == 0 {
        return;
    }
    let mut digits = place;
    for _x in 0..n {
        out.signed(code_of(digits % 8));
        out.byte(SPACE);
        digits /= 8;
    }
    out.number(u64::from(count));
    out.byte(NEWLINE);
}

// A line for each place that has a count.
fn tell_endings(out: &mut Text, n: u8, counts: &[u32]) {
    for (place, count) in counts.iter().enumerate() {
        tell_ending(out, n, place, *count);
    }
}

// A refusal, and what it changed, which is nothing.
fn tell_refused(out: &mut Text, answer: Answer, counts: &[u32]) {
    tell_answer(out, answer);
    if !counts.iter().all(|count| *count == MARK) {
        out.bytes(b"changed: counts\n");
    }
}

// What a count answered: the length used and how many lines follow, and these; or a refusal.
fn tell_counted(out: &mut Text, n: u8, counted: Result<u8, u8>, counts: &[u32]) {
    let length = match counted {
        Err(number) => return tell_refused(out, Answer::Refused(number), counts),
        Ok(length) => length,
    };
    let lines = counts.iter().filter(|count| **count != 0).count();
    out.numbers(b"length ", u64::from(length), b" lines ", lines as u64);
    tell_endings(out, n, counts);
}

// Counts into the places that are lent.
fn count_into(table: Table, length: u64, counts: &mut [u32], out: &mut [u8]) -> usize {
    let counted = count_endings(table, length, counts);
    let mut text = Text::new(out);
    tell_counted(&mut text, table.n, counted, counts);
    text.len()
}

// Counts into so many places, 4200 at most.
pub fn count(table: Table, length: u64, places: usize, out: &mut [u8]) -> usize {
    let mut counts = [MARK; PLACES];
    count_into(table, length, &mut counts[..places.min(PLACES)], out)
}
