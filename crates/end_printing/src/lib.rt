// What program bondtrace does, with any reader as its input and any writer for its output: a schedule of any length is played in constant memory, and its end is printed.

#![tactic(auto)]

ghost use Rattle.std.specs.Prelude.{◌≡◌, Bool, List, [], ◌++◌, ℕ, ◌+◌, ◌≤◌, ◌<◌, length, take, IfOk, OnOk};
ghost use Rattle.std.specs.Io.KnownBytes.{Appends};
ghost use Rattle.model.specs.Bondtrace.{bondtrace};
ghost use Rattle.text.specs.Writing.{Counts, Written, Printed};
ghost use Rattle.opening.specs.Opened.{Steady};
ghost use Rattle.played_text.specs.Known.{Reached, Starts, longest_end};
ghost use Rattle.end_printing.specs.Input.{too_long, Told, TellsSome};

use opening::Playback;
use refill::Supply;
use std::io;
use std::io::{Read, Write};

// An input is played up to so many bytes: 2^63. No count comes near its end.
const MOST_BYTES: u64 = 9223372036854775808;

// A text of so many bytes, and how many bytes of input were delivered for it.
#[derive(Clone, Copy)]
struct Ended {
    length: usize,
    delivered: u64,
}

// A text of so many bytes, and how many bytes of input were delivered behind those of the first read.
// Kept: a struct beside `Ended`, since `run` adds the count of its own first read; were the sum handed out, a dropped first read would pass unseen (edit first_buffer_dropped).
#[derive(Clone, Copy)]
struct Text {
    length: usize,
    later: u64,
}

// The text when nothing more is played: each byte that was delivered was played or is left.
fn end_of(playback: Playback, store: &[u32], left: usize, delivered: u64, out: &mut [u8]) -> Ended
    requires steady { Steady playback }
    requires left_value { playback.place + left ≡ delivered }
    ensures counted { result.delivered ≡ delivered }
    ensures text { (head input rest : List ℕ) (bad : Bool) → Reached head input bad playback store.now rest → length rest ≡ left → Printed (bondtrace (head ++ input)) longest_end out.old out.new result.length }
{
    let length = played_text::end_text(playback, store, left, out);
    Ended {
        length: length,
        delivered: delivered,
    }
}

// That more was delivered than is played.
#[tactic(auto, using(text::proofs::Writing::writing), unfolding(crate::specs::Input::too_long, model::specs::Bondtrace::ascii, model::specs::Lists::up_to))]
fn put_too_long(out: &mut [u8]) -> usize
    ensures { Written 0 too_long out.old out.new result }
{
    let mut line = text::Text::new(out);
    line.bytes(b"input too long\n");
    line.len()
}

// Plays what stands in the buffer behind the table record, and the rest of the input; the text of it all.
fn play_on<R: Read>(
    input: &mut R,
    opened: Playback,
    buffer: &mut [u8],
    first: Supply,
    out: &mut [u8],
) -> io::Result<Ended>
    requires steady { Steady opened }
    requires starts { Starts opened (take first.end buffer.old) }
    requires delivered_value { first.delivered ≡ first.end }
    requires end_bound { first.end ≤ 65536 }
    requires buffer_len { length buffer.old ≡ 65536 }
    requires out_len { length out.old ≡ 4096 }
    ensures counts { IfOk result (λ ended. Counts ended.length out.new) }
    ensures told { IfOk result (λ ended. Told (take first.end buffer.old) ended.delivered (take ended.length out.new)) }
{
    let mut words = [0u32; 256];
    let size = 8 * (opened.table.n as usize);
    let mut playback = opened;
    let mut start = reading::HEAD_BYTES;
    let mut supply = first;
    // Kept: no `for` counts it, for each turn goes on by what a read gave.
    while supply.delivered < MOST_BYTES {
        let before = playback.place;
        let end = supply.end;
        let played = playing::play(playback, &mut words[..size], &buffer[start..end]);
        playback = played.playback;
        let next = start + (playback.place - before) as usize;
        let left = end - next;
        if played.bad {
            return Ok(end_of(playback, &words[..size], left, supply.delivered, out));
        }
        supply = refill::supplied(input, buffer, next, supply)?;
        start = 0;
        if supply.end == left {
            return Ok(end_of(playback, &words[..size], left, supply.delivered, out));
        }
    }
    let length = put_too_long(out);
    Ok(Ended {
        length: length,
        delivered: supply.delivered,
    })
}

// The text of the input that starts with the bytes in the buffer.
fn text_of_input<R: Read>(
    input: &mut R,
    buffer: &mut [u8],
    first: Supply,
    out: &mut [u8],
) -> io::Result<Text>
    requires delivered_value { first.delivered ≡ first.end }
    requires end_bound { first.end ≤ 65536 }
    requires buffer_len { length buffer.old ≡ 65536 }
    requires out_len { length out.old ≡ 4096 }
    ensures counts { IfOk result (λ text. Counts text.length out.new) }
    ensures room { IfOk result (λ text. first.delivered + text.later < 18446744073709551616) }
    ensures told { IfOk result (λ text. Told (take first.end buffer.old) (first.delivered + text.later) (take text.length out.new)) }
{
    let end = first.end;
    let playback = match opening::open(&buffer[..end]) {
        Err(refusal) => {
            let length = played_text::refused_text(refusal.into(), &buffer[..end], out);
            return Ok(Text {
                length: length,
                later: 0,
            });
        }
        Ok(playback) => playback,
    };
    let ended = play_on(input, playback, buffer, first, out)?;
    Ok(Text {
        length: ended.length,
        later: ended.delivered - first.delivered,
    })
}

// Prints a text: that of some input of so many bytes. Where it is known what the output holds, it holds that text behind.
fn print_text<W: Write>(output: &mut W, text: &[u8], delivered: u64) -> io::Result<()>
    requires { Told [] delivered text.now }
    ensures { OnOk result (Appends (W.contents output.old) (W.contents output.new) text.now) }
{
    output.write_all(text)
}

// Plays the schedule that an input delivers, and prints how it ends.
pub fn run<R: Read, W: Write>(input: &mut R, output: &mut W) -> io::Result<()>
    ensures { OnOk result (TellsSome (W.contents output.old) (W.contents output.new)) }
{
    let mut space = [0u8; 65536];
    let buffer: &mut [u8] = &mut space;
    let mut out = [0u8; 4096];
    let nothing = Supply {
        end: 0,
        delivered: 0,
    };
    let first = refill::supplied(input, buffer, 0, nothing)?;
    let text = text_of_input(input, buffer, first, &mut out)?;
    let stop = text.length;
    print_text(output, &out[0..stop], first.delivered + text.later)
}
