// The records of a schedule of any length, read from an input through one buffer, and the line of a record that is refused.

#![tactic(auto)]

ghost use Rattle.std.specs.Prelude.{◌≡◌, ◌+◌, ◌-◌, ◌≤◌, ◌<◌, length, take, drop, slice_range, IfOk, OnErr, MatchResult};
ghost use Rattle.model.specs.RecordBytes.{longest_record};
ghost use Rattle.model.specs.Answers.{refused};
ghost use Rattle.model.specs.Decoding.{decode, decode_answer};

use model::{Answer, Record};
use reading::LONGEST;
use std::io;
use std::io::{Read, Write};

// No schedule is followed past this byte, so that the count of bytes cannot overflow.
pub const LAST_BYTE: u64 = u64::MAX - LONGEST as u64;

// A record, where its bytes start in the buffer, and how many they are.
#[derive(Clone, Copy, PartialEq, Eq)]
pub struct Found {
    pub item: Record,
    pub start: usize,
    pub length: usize,
}

// What comes next in a schedule: its end, a record, or one that is refused, with the number.
#[derive(Clone, Copy, PartialEq, Eq)]
pub enum Next {
    Over,
    Found(Found),
    Refused(u8),
}

// A schedule that is read through a buffer: the bytes from start to end are read, and not used yet.
#[derive(Drop)]
pub struct Records<'a> {
    pub buffer: &'a mut [u8],
    pub start: usize,
    pub end: usize,
    ghost ordered: { start ≤ end },
    ghost within: { end ≤ length buffer.now },
}

// Reads the record at the front of the bytes, told whether it is the first; answers too how many bytes it has.
fn take_front(first: bool, bytes: &[u8]) -> Result<(Record, usize), u8>
    ensures { MatchResult result
        (λ p. (p.0 ≡ decode first bytes.now) × (0 < p.1) × (p.1 ≤ length bytes.now) × (p.1 ≤ longest_record))
        (λ n. refused n ≡ decode_answer first bytes.now) }
{
    let decoded = reading::read(first, bytes);
    if let Answer::Refused(number) = decoded.answer {
        return Err(number);
    }
    Ok((decoded.item, reading::record_length(decoded.item.kind)))
}

impl<'a> Records<'a> {
    ghost use Rattle.refill.specs.Refilled.{MovedDown};
    ghost use Rattle.record_input.specs.Places.{Comes};

    // Nothing is read yet: of a buffer that is used up, nothing is left.
    pub fn new(buffer: &'a mut [u8]) -> Records<'a>
        ensures same_buffer { result.buffer.ghost_name ≡ buffer.entry.ghost_name }
        ensures same_bytes { result.buffer.now ≡ buffer.old }
    {
        let end = buffer.len();
        Records {
            buffer,
            start: end,
            end,
        }
    }

    // The bytes of a record that was found.
    pub fn bytes(&self, found: Found) -> &[u8]
        requires { found.start + found.length ≤ length self.now.buffer.now }
        ensures { result.now ≡ slice_range self.now.buffer.now found.start (found.start + found.length) }
    {
        &self.buffer[found.start..found.start + found.length]
    }

    // Reads more where the buffer's end may cut a record.
    fn read_on<R: Read>(&mut self, input: &mut R) -> io::Result<()>
        ensures same_buffer { self.new.buffer.ghost_name ≡ self.old.buffer.ghost_name }
        ensures same_length { length self.new.buffer.now ≡ length self.old.buffer.now }
        ensures err { OnErr result (MovedDown self.old.start self.old.end self.old.buffer.now self.new.buffer.now) }
    {
        let start = self.start;
        let end = self.end;
        // Only the input's end leaves room in the buffer.
        if (LONGEST <= end - start) | (end < self.buffer.len()) {
            return Ok(());
        }
        let buffer = &mut *self.buffer;
        let filled = refill::refill(input, buffer, start, end);
        self.start = 0;
        self.end = end - start;
        self.end = filled?;
        Ok(())
    }

    // The record at the front of what is not used yet.
    fn front(&self, first: bool) -> Result<(Record, usize), u8>
        ensures { let bytes = take (self.now.end - self.now.start) (drop self.now.start self.now.buffer.now) in MatchResult result
            (λ p. (p.0 ≡ decode first bytes) × (0 < p.1) × (p.1 ≤ self.now.end - self.now.start) × (p.1 ≤ longest_record))
            (λ n. refused n ≡ decode_answer first bytes) }
    {
        take_front(first, &self.buffer[self.start..self.end])
    }

    // What comes next, told whether it is the first. A schedule has a first record, so it does not end before that.
    pub fn next_record<R: Read>(&mut self, input: &mut R, first: bool) -> io::Result<Next>
        ensures same_buffer { self.new.buffer.ghost_name ≡ self.old.buffer.ghost_name }
        ensures same_length { length self.new.buffer.now ≡ length self.old.buffer.now }
        ensures comes { IfOk result (Comes first self.new.buffer.now self.new.start self.new.end) }
        ensures err { OnErr result (MovedDown self.old.start self.old.end self.old.buffer.now self.new.buffer.now) }
    {
        self.read_on(input)?;
        if !first & (self.start == self.end) {
            return Ok(Next::Over);
        }
        match self.front(first) {
            Ok((item, length)) => {
                let start = self.start;
                self.start = start + length;
                Ok(Next::Found(Found {
                    item,
                    start,
                    length,
                }))
            }
            Err(number) => Ok(Next::Refused(number)),
        }
    }
}

// Prints the line of a schedule that is refused: the number, and the byte where the refused record starts.
pub fn print_bad<W: Write>(output: &mut W, number: u8, byte: u64) -> io::Result<()> {
    let mut line = [0u8; 4096];
    let end = printing::bad_line(number, byte, &mut line);
    output.write_all(&line[..end])
}
