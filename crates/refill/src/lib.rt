// Reading an input of any length through one buffer.

#![tactic(auto)]

ghost use Rattle.std.specs.Prelude.{◌≡◌, ◌+◌, ◌-◌, ◌≤◌, ◌<◌, length, take, drop, IfOk, OnErr};
ghost use Rattle.refill.specs.Refilled.{IsPrefixLen, MovedDown, Refilled};

use std::io;
use std::io::Read;

// What the reads have given: where the bytes in the buffer end, and how many were delivered in all.
#[derive(Clone, Copy)]
pub struct Supply {
    pub end: usize,
    pub delivered: u64,
}

// Moves n bytes from a place down to the front.
pub fn move_down(buffer: &mut [u8], start: usize, n: usize)
    requires { start + n ≤ length buffer.old }
    ensures buffer_len_unchanged { length buffer.new ≡ length buffer.old }
    ensures buffer_after { take n buffer.new ≡ take n (drop start buffer.old) }
{
    buffer.copy_within(start..start + n, 0);
}

// Reads until the buffer is full or the input ends; answers how many bytes it put at the buffer's front.
fn read_full<R: Read>(input: &mut R, buffer: &mut [u8]) -> io::Result<usize>
    ensures { IfOk result (λ read. IsPrefixLen read buffer.new) }
{
    // Kept: no `for` counts it, for each turn goes on by what a read gave.
    let mut done: usize = 0;
    while done < buffer.len() {
        let n = input.read(&mut buffer[done..])?;
        if n == 0 {
            return Ok(done);
        }
        done += n;
    }
    Ok(done)
}

// Moves the bytes from start to end down to the front and reads the buffer full behind them; answers how many bytes there are now. Where nothing
// was read though there was room (the answer is end - start, and less than the buffer's length), the input has ended.
pub fn refill<R: Read>(
    input: &mut R,
    buffer: &mut [u8],
    start: usize,
    end: usize,
) -> io::Result<usize>
    requires start_le_end { start ≤ end }
    requires end_in_bounds { end ≤ length buffer.old }
    ensures ok { IfOk result (λ filled. Refilled start end buffer.old buffer.new filled) }
    ensures err { OnErr result (MovedDown start end buffer.old buffer.new) }
{
    let rest = end - start;
    move_down(buffer, start, rest);
    let read = read_full(input, &mut buffer[rest..])?;
    Ok(rest + read)
}

// Moves the bytes from start on down to the front and reads behind them. There is room, so that where nothing was read, the input has ended.
pub fn supplied<R: Read>(
    input: &mut R,
    buffer: &mut [u8],
    start: usize,
    before: Supply,
) -> io::Result<Supply>
    requires start_le_end { start ≤ before.end }
    requires end_in_bounds { before.end ≤ length buffer.old }
    requires start_in_bounds { before.end - start < length buffer.old }
    requires buffer_bound { before.delivered + length buffer.old < 18446744073709551616 }
    ensures filled { IfOk result (λ after. Refilled start before.end buffer.old buffer.new after.end) }
    ensures counted { IfOk result (λ after. after.delivered + (before.end - start) ≡ before.delivered + after.end) }
    ensures err { OnErr result (MovedDown start before.end buffer.old buffer.new) }
{
    let rest = before.end - start;
    let end = refill(input, buffer, start, before.end)?;
    Ok(Supply {
        end: end,
        delivered: before.delivered + (end - rest) as u64,
    })
}
