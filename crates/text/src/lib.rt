// Text written into a caller's bytes, as far as they reach.

#![tactic(auto, using(crate::proofs::Writing::storing, crate::proofs::Words::numerals), unfolding(crate::specs::Texts::numbers_line, crate::specs::Texts::answer_text, model::specs::Bondtrace::ascii, model::specs::Lists::up_to))]

ghost use Rattle.std.specs.Prelude.{◌≡◌, [], ◌∷◌, ◌*◌, ◌≤◌, length, min, take};
ghost use Rattle.model.specs.Bondtrace.{decimal, signed, spaced};
ghost use Rattle.text.specs.Texts.{numbers_line, answer_text, longest_word};
ghost use Rattle.text.specs.Writing.{written};

use model::Answer;

// What stands between two words of a line.
pub const SPACE: u8 = b' ';

// What ends a line.
pub const NEWLINE: u8 = b'\n';

// What stands before a number below 0.
const MINUS: u8 = b'-';

// The digit 0: the others follow it in their order.
const ZERO: u8 = b'0';

// A caller's bytes, and how many of them at the front are written. Each method writes behind those, and leaves out what has no room.
// Kept, no Display: an outcome, a thread and a record are each printed in several ways, and theirs could stand in `model` alone; nor does `write!` say where a text is cut off (`Written`).
#[derive(Drop)]
pub struct Text<'a> {
    out: &'a mut [u8],
    len: usize,
}

impl<'a> Text<'a> {
    // From the first byte on.
    pub fn new(out: &'a mut [u8]) -> Text<'a>
        ensures { result ≡ record { out = out.entry; len = 0 } }
    {
        Text { out, len: 0 }
    }

    // From a place on.
    pub fn at(out: &'a mut [u8], len: usize) -> Text<'a>
        ensures { result ≡ record { out = out.entry; len = len } }
    {
        Text { out, len }
    }

    // How many bytes are written.
    pub fn len(&self) -> usize
        ensures { result ≡ self.now.len }
    {
        self.len
    }

    // The bytes that are written.
    pub fn front(&self) -> &[u8]
        ensures { result.now ≡ take self.now.len self.now.out.now }
    {
        &self.out[..self.len.min(self.out.len())]
    }

    // Takes back what is written past a place.
    pub fn truncate(&mut self, len: usize)
        ensures { self.new ≡ record self.old { len = min self.old.len len } }
    {
        self.len = self.len.min(len);
    }

    // One byte.
    pub fn byte(&mut self, byte: u8)
        ensures { self.new ≡ written (byte ∷ []) self.old }
    {
        if self.len < self.out.len() {
            self.out[self.len] = byte;
            self.len += 1;
        }
    }

    // Bytes.
    pub fn bytes(&mut self, text: &[u8])
        ensures { self.new ≡ written text.now self.old }
    {
        for byte in text {
            self.byte(*byte);
        }
    }

    // A number in decimal: all digits but the last, and then that.
    pub fn number(&mut self, n: u64)
        ensures { self.new ≡ written (decimal n) self.old }
    {
        let last = ZERO + (n % 10) as u8;
        if 10 <= n {
            self.number(n / 10);
        }
        self.byte(last);
    }

    // A code with its sign.
    pub fn signed(&mut self, code: i32)
        ensures { self.new ≡ written (signed code) self.old }
    {
        if code < 0 {
            self.byte(MINUS);
        }
        self.number(u64::from(code.unsigned_abs()));
    }

    // Words, each behind a space.
    pub fn words(&mut self, words: &[u32])
        ensures written { self.new ≡ written (spaced words.now) self.old }
        ensures words_len_bound { length (spaced words.now) ≤ longest_word * length words.now }
    {
        for word in words {
            self.byte(SPACE);
            self.number(u64::from(*word));
        }
    }

    // A line of two numbers, each behind its name.
    pub fn numbers(&mut self, name: &[u8], n: u64, next: &[u8], m: u64)
        ensures { self.new ≡ written (numbers_line name.now n next.now m) self.old }
    {
        self.bytes(name);
        self.number(n);
        self.bytes(next);
        self.number(m);
        self.byte(NEWLINE);
    }

    // An answer in words, a refusal with its number.
    pub fn answer(&mut self, answer: Answer)
        ensures { self.new ≡ written (answer_text answer) self.old }
    {
        match answer {
            Answer::Refused(number) => {
                self.bytes(b"refused ");
                self.number(u64::from(number));
            }
            Answer::Accepted => self.bytes(b"accepted"),
            Answer::Marked => self.bytes(b"marked"),
            Answer::NothingToCancel => self.bytes(b"nothing to cancel"),
            Answer::Moved => self.bytes(b"moved"),
            Answer::Idle => self.bytes(b"idle"),
            Answer::Held => self.bytes(b"held"),
            Answer::Wants => self.bytes(b"wants"),
            Answer::Asleep => self.bytes(b"asleep"),
        }
    }
}
