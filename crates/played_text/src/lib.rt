// What program bondtrace prints of a schedule, written into a caller's bytes: of one that stands whole in memory, and at the end of one that came piece by piece.

#![tactic(auto)]

ghost use Rattle.std.specs.Prelude.{◌≡◌, ◌≢◌, Bool, List, ◌++◌, ℕ, length};
ghost use Rattle.model.specs.Bondtrace.{bondtrace};
ghost use Rattle.text.specs.Writing.{Printed};
ghost use Rattle.opening.specs.Opened.{open_refusal, Steady};
ghost use Rattle.played_text.specs.Known.{Reached, Settled, longest_end};

use opening::Playback;

// The text for a playback behind which some bytes are left, or none, when nothing more is played.
pub fn end_text(playback: Playback, store: &[u32], left: usize, out: &mut [u8]) -> usize
    requires { Steady playback }
    ensures { (head input rest : List ℕ) (bad : Bool) → Reached head input bad playback store.now rest → length rest ≡ left → Printed (bondtrace (head ++ input)) longest_end out.old out.new result }
{
    if left != 0 {
        return printing::bad_line(reading::BAD_RECORD, playback.place, out);
    }
    let table = playback.table;
    printing::final_text(table, store, playback.records, playback.refused, out)
}

// The text where the table record at the front of the bytes is refused by this number.
pub fn refused_text(number: u8, bytes: &[u8], out: &mut [u8]) -> usize
    requires number_value { number ≡ open_refusal bytes.now }
    requires number_nonzero { number ≢ 0 }
    ensures { (more : List ℕ) → Settled bytes.now more → Printed (bondtrace (bytes.now ++ more)) longest_end out.old out.new result }
{
    printing::bad_line(number, 0, out)
}

// The text of a whole schedule.
pub fn text_of(bytes: &[u8], out: &mut [u8]) -> usize
    ensures { Printed (bondtrace bytes.now) longest_end out.old out.new result }
{
    let start = match opening::open(bytes) {
        Err(refusal) => return refused_text(refusal.into(), bytes, out),
        Ok(start) => start,
    };
    let mut words = [0u32; 256];
    let size = 8 * (start.table.n as usize);
    let played = playing::play(start, &mut words[..size], &bytes[reading::HEAD_BYTES..]);
    let end = played.playback;
    let left = bytes.len() - end.place as usize;
    end_text(end, &words[..size], left, out)
}
