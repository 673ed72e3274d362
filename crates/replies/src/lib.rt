// What the console says of itself: errors, marks and help, written into a caller's bytes as far as they reach.

#![tactic(auto, using(text::proofs::Writing::writing), unfolding(language::specs::Commands::reason_text, language::specs::Commands::reasons, model::specs::Bondtrace::ascii, model::specs::Lists::up_to))]

ghost use Rattle.std.specs.Prelude.{◌≡◌, ◌≤◌, length, drop};
ghost use Rattle.language.specs.Words.{words};
ghost use Rattle.language.specs.Commands.{reason_text};
ghost use Rattle.text.specs.Writing.{written, Written};
ghost use Rattle.replies.specs.Replied.{names_word, named_word, error_text, behind_spaces, joined_words, said_text};

use letters::Reason;
use scanning::next_word;
use text::{NEWLINE, SPACE, Text};

// A reason in plain words, by its number; past the last there are none.
fn text_of(reason: u8) -> &'static [u8]
    ensures { result.now ≡ reason_text reason }
{
    match reason {
        0 => b"no error",
        1 => b"no such command",
        2 => b"no such field",
        3 => b"neither send nor receive",
        4 => b"a number is missing",
        5 => b"not a number",
        6 => b"number too large",
        7 => b"number too small",
        8 => b"too much on the line",
        9 => b"line too long",
        10 => b"no line of a schedule",
        11 => b"table stands first, and only there",
        12 => b"neither yes nor no",
        13 => b"no more than 80 rows are kept",
        14 => b"no more than 520 entries are kept",
        _ => b"",
    }
}

// Whether the word that is wrong is named: an empty one only between commas.
fn names_word(reason: u8, word: &[u8]) -> bool
    ensures { result ≡ names_word reason word.now }
{
    if reason == u8::from(Reason::NotNumber) {
        return true;
    }
    !word.is_empty()
}

// The word that is wrong, behind a colon, where it is named.
fn put_named(out: &mut Text, reason: u8, word: &[u8])
    ensures { out.new ≡ written (named_word reason word.now) out.old }
{
    if names_word(reason, word) {
        out.bytes(b": ");
        out.bytes(word);
    }
}

// The line that says why line n is no command, by the number of a reason.
pub fn put_error(out: &mut [u8], start: usize, n: u64, reason: u8, word: &[u8]) -> usize
    ensures { Written start (error_text n reason word.now) out.old out.new result }
{
    let mut text = Text::at(out, start);
    text.bytes(b"error at line ");
    text.number(n);
    text.bytes(b": ");
    text.bytes(text_of(reason));
    put_named(&mut text, reason, word);
    text.byte(NEWLINE);
    text.len()
}

// Words from a place of a line on, each behind a space.
// Kept: a walk from word to word, as `words` of language/specs/Words has no iterator here: one would have laws longer than this loop.
fn put_behind(out: &mut Text, line: &[u8], from: usize)
    requires { from ≤ length line.now }
    ensures { out.new ≡ written (behind_spaces (words (drop from line.now))) out.old }
{
    let mut at = from;
    while at < line.len() {
        let word = next_word(line, at);
        if word.start == word.end {
            return;
        }
        out.byte(SPACE);
        out.bytes(&line[word.start..word.end]);
        at = word.end;
    }
}

// Words from a place of a line on, one space between them.
fn put_joined(out: &mut Text, line: &[u8], from: usize)
    requires { from ≤ length line.now }
    ensures { out.new ≡ written (joined_words (words (drop from line.now))) out.old }
{
    let word = next_word(line, from);
    if word.start != word.end {
        out.bytes(&line[word.start..word.end]);
        put_behind(out, line, word.end);
    }
}

// The words behind a command, as a line.
fn put_rest(out: &mut Text, line: &[u8])
    ensures { out.new ≡ written (said_text line.now) out.old }
{
    let command = next_word(line, 0);
    if command.start != command.end {
        put_joined(out, line, command.end);
    }
    out.byte(NEWLINE);
}

// The answer to `say`: the words behind it.
pub fn put_said(out: &mut [u8], start: usize, line: &[u8]) -> usize
    ensures { Written start (said_text line.now) out.old out.new result }
{
    let mut text = Text::at(out, start);
    put_rest(&mut text, line);
    text.len()
}

// The commands, a line each.
pub fn put_help(out: &mut [u8], start: usize) -> usize {
    let mut text = Text::at(out, start);
    text.bytes(
        b"\
table N                  a new table of N threads (1 to 32), a store of zeros, records for the report
begin X PARTS            thread X begins; PARTS: [send T CODE WORD ..] [receive any CODE | receive P CODE | receive P,Q,.. CODE | receive set M CODE]
                         M is a set of threads, one bit each, thread 0 the lowest
spark X PARTS            the same through the spark entry, which takes at most three words
rule F T G H yes|no      notes a row for the next loading: may senders F to T send to targets G to H; up to 80 are kept
rules                    loads the rows noted since the last loading: each pair of two threads must be in one of them, at most 64
step X ..                one step of each thread named
cancel X                 cancels what X runs
tick [K]                 one tick, or K
outcome X                X, code, source, count and words
report                   the same without words, for each thread
show                     every field in use of every thread
search X                 which sender the search of X finds, or none, and how many queue places it read
sent S T WORD ..         notes in a log of sends that S sent T these words; up to 520 are kept
received T S WORD ..     notes in a log of receives that T received these words from S; up to 520 are kept
compare                  compares both logs and forgets them: agree, or the first send that differs from its receive, or the first receive that was not sent
count L                  how many lists of L steps (10 at most) end with which codes, thread 0 first, for at most 4 threads
say WORD ..              the words, as a mark
store K V                lends a store of K words, each V
records K                lends K records to the report
places K                 lends K places to the count, which takes 4096
size N                   sets the table's N by force
set X FIELD ..           sets a field of thread X by force: flags, phase, left, owner, outcome, copied, waking, queue, queuelength, operation, target, present
help                     this
",
    );
    text.len()
}
