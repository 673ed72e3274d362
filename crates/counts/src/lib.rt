// How many lists of steps end how, for users.

#![tactic(auto)]

ghost use Rattle.std.specs.Prelude.{◌≡◌};
ghost use Rattle.model.specs.Counting.{length_used};
ghost use Rattle.model.specs.Refusals.{count_refusal};
ghost use Rattle.model.specs.Promise.{CountPromise};
ghost use Rattle.counts.specs.Said.{said_answer, said_length};
ghost use Rattle.refusals.specs.Numbers.{number_of};

use model::Table;
use refusals::Refusal;

// A table of more threads is not counted.
const MOST_THREADS: u8 = 4;

// A greater length is taken as this.
const MOST_STEPS: u8 = 10;

// A count for each combination of four codes.
const PLACES: usize = 4096;

// The rows of counting into a slice of so many counts.
fn count_refusal(table: Table, counts: usize) -> Result<(), Refusal>
    ensures { number_of result ≡ count_refusal table counts }
{
    if MOST_THREADS < table.n {
        return Err(Refusal::BadSize);
    }
    refusals::table_refusal(table)?;
    refusals::length_refusal(PLACES, counts)
}

// The length that is used.
#[tactic(auto, unfolding(model::specs::Counting::length_used))]
fn length_used(length: u64) -> u8
    ensures { result ≡ length_used length }
{
    length.min(MOST_STEPS as u64) as u8
}

// Counts, for each combination of final codes, the lists of so many steps that lead to it, and answers the length that it used; refused, leaves the counts as they are.
pub fn count_endings(table: Table, length: u64, counts: &mut [u32]) -> Result<u8, u8>
    ensures { CountPromise table length counts.old (said_answer result) (said_length result) counts.new }
{
    count_refusal(table, counts.len())?;
    let used = length_used(length);
    words::zero_words(counts);
    counting::count_lists(few::few_of(table), used, counts);
    Ok(used)
}
