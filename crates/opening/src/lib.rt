// Where playing a schedule starts: its table record is read, and a new table is made.

#![tactic(auto)]

ghost use Rattle.std.specs.Prelude.{◌≡◌, ◌≤◌, length, IfOk};
ghost use Rattle.model.specs.RecordBytes.{head_length};
ghost use Rattle.refusals.specs.Numbers.{number_of};
ghost use Rattle.opening.specs.Opened.{open_size, open_refusal, opened, Steady};

use model::Table;
use refusals::Refusal;

// How far a schedule is played: the table, how many records were read and calls refused, and the byte at which the next record starts.
#[derive(Clone, Copy)]
pub struct Playback {
    pub table: Table,
    pub records: u64,
    pub refused: u64,
    pub place: u64,
}

// Only a table record of n threads is played.
fn fresh(n: u8) -> Playback
    ensures { result ≡ opened n }
{
    Playback {
        table: unchecked::new_table(n),
        records: 1,
        refused: 0,
        place: reading::HEAD_BYTES as u64,
    }
}

// Reads the table record at the front of the bytes: a playback of it alone.
pub fn open(bytes: &[u8]) -> Result<Playback, Refusal>
    ensures number { number_of result ≡ open_refusal bytes.now }
    ensures playback { IfOk result (λ playback. playback ≡ opened (open_size bytes.now)) }
    ensures steady { IfOk result (λ playback. (head_length ≤ length bytes.now) × Steady playback) }
{
    if !reading::is_lawful(true, bytes) {
        return Err(Refusal::BadRecord);
    }
    let n = bytes[reading::THREAD];
    refusals::size_refusal(n)?;
    Ok(fresh(n))
}
