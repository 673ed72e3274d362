// The lines of an input of any length, taken one at a time through one buffer.

#![tactic(auto)]

ghost use Rattle.std.specs.Prelude.{◌≡◌, ◌≤◌, length, slice_range, IfOk, IfSome, IfNone};

use scanning::line_end;
use std::io;
use std::io::Read;

// So many bytes of a line show that it is too long: one more than the longest, and a CR at its end.
const CUT: usize = 4097;

// A line of the buffer: the bytes from start to stop.
#[derive(Clone, Copy, PartialEq, Eq)]
pub struct Line {
    pub start: usize,
    pub stop: usize,
}

// An input that is read through a buffer: the bytes of the buffer from start to end are not used yet; whether the input has ended; and whether a line was
// too long and its rest is still to be dropped. Kept, two flags and no enum: both can be set, and no field is without a meaning where one is.
#[derive(Drop)]
pub struct Lines<'a> {
    pub buffer: &'a mut [u8],
    pub start: usize,
    pub end: usize,
    pub over: bool,
    pub long: bool,
    ghost ordered: { start ≤ end },
    ghost within: { end ≤ length buffer.now },
}

impl<'a> Lines<'a> {
    ghost use Rattle.refill.specs.Refilled.{MovedDown};
    ghost use Rattle.line_input.specs.Lying.{LiesIn};

    // Nothing is read yet.
    pub fn new(buffer: &'a mut [u8]) -> Lines<'a>
        ensures same_buffer { result.buffer.ghost_name ≡ buffer.entry.ghost_name }
        ensures same_bytes { result.buffer.now ≡ buffer.old }
        ensures places { (result.start ≡ 0) × (result.end ≡ 0) }
    {
        Lines {
            buffer,
            start: 0,
            end: 0,
            over: false,
            long: false,
        }
    }

    // The bytes of a line.
    pub fn text(&self, line: Line) -> &[u8]
        requires { LiesIn (length self.now.buffer.now) line }
        ensures { result.now ≡ slice_range self.now.buffer.now line.start line.stop }
    {
        &self.buffer[line.start..line.stop]
    }

    // Where the line ends that starts what is not used yet.
    fn first_stop(&self) -> usize
        ensures { (self.now.start ≤ result) × (result ≤ self.now.end) }
    {
        self.start + line_end(&self.buffer[self.start..self.end], 0)
    }

    // Drops the rest of a line that was too long, as far as it is read.
    fn drop_rest(&mut self)
        ensures same_buffer { self.new.buffer.ghost_name ≡ self.old.buffer.ghost_name }
        ensures same_bytes { self.new.buffer.now ≡ self.old.buffer.now }
    {
        if !self.long {
            return;
        }
        let stop = self.first_stop();
        if stop < self.end {
            self.start = stop + 1;
            self.long = false;
        } else {
            self.start = self.end;
        }
    }

    // Takes the line up to a place; the next one starts at another.
    fn take_to(&mut self, stop: usize, next: usize, long: bool) -> Line
        requires start_le_stop { self.old.start ≤ stop }
        requires stop_le_next { stop ≤ next }
        requires next_le_end { next ≤ self.old.end }
        ensures line { LiesIn (length self.new.buffer.now) result }
        ensures taken { (result.start ≡ self.old.start) × (result.stop ≡ stop) }
        ensures left { (self.new.start ≡ next) × (self.new.end ≡ self.old.end) }
        ensures same_buffer { self.new.buffer.ghost_name ≡ self.old.buffer.ghost_name }
        ensures same_bytes { self.new.buffer.now ≡ self.old.buffer.now }
    {
        let start = self.start;
        self.start = next;
        self.long = long;
        Line { start, stop }
    }

    // The next line, where it is all read, or where enough is read to see that it is too long: then its first bytes.
    fn next_line(&mut self) -> Option<Line>
        ensures line { IfSome result (LiesIn (length self.new.buffer.now)) }
        ensures none { IfNone result ((self.new.start ≡ self.old.start) × (self.new.end ≡ self.old.end)) }
        ensures same_buffer { self.new.buffer.ghost_name ≡ self.old.buffer.ghost_name }
        ensures same_bytes { self.new.buffer.now ≡ self.old.buffer.now }
    {
        let start = self.start;
        let end = self.end;
        let stop = self.first_stop();
        if stop < end {
            return Some(self.take_to(stop, stop + 1, false));
        }
        if CUT <= end - start {
            return Some(self.take_to(start + CUT, start + CUT, true));
        }
        if self.over & (start < end) {
            return Some(self.take_to(end, end, false));
        }
        None
    }

    // The next line of what is read.
    pub fn take_line(&mut self) -> Option<Line>
        ensures line { IfSome result (LiesIn (length self.new.buffer.now)) }
        ensures same_buffer { self.new.buffer.ghost_name ≡ self.old.buffer.ghost_name }
        ensures same_bytes { self.new.buffer.now ≡ self.old.buffer.now }
    {
        self.drop_rest();
        self.next_line()
    }

    // Reads what the input has now, at least a byte unless it ends, behind what is not used yet, which is moved down to the front.
    pub fn read_on<R: Read>(&mut self, input: &mut R) -> io::Result<()>
        ensures same_buffer { self.new.buffer.ghost_name ≡ self.old.buffer.ghost_name }
        ensures moved { MovedDown self.old.start self.old.end self.old.buffer.now self.new.buffer.now }
    {
        let start = self.start;
        let rest = self.end - start;
        let buffer = &mut *self.buffer;
        refill::move_down(buffer, start, rest);
        self.start = 0;
        self.end = rest;
        let more = input.read(&mut buffer[rest..])?;
        self.end = rest + more;
        self.over = more == 0;
        Ok(())
    }

    // The next line of the input, after as many reads as it takes; none where the input has ended.
    pub fn fetch_line<R: Read>(&mut self, input: &mut R) -> io::Result<Option<Line>>
        ensures line { IfOk result (λ line. IfSome line (LiesIn (length self.new.buffer.now))) }
        ensures same_buffer { self.new.buffer.ghost_name ≡ self.old.buffer.ghost_name }
        ensures same_length { length self.new.buffer.now ≡ length self.old.buffer.now }
    {
        for _ in 0..u64::MAX {
            let line = self.take_line();
            if line.is_some() | self.over {
                return Ok(line);
            }
            self.read_on(input)?;
        }
        Ok(self.take_line())
    }
}
