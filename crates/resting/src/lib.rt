// Whether a table is at rest, for users: where no thread's step would move, no thread sleeps beside a partner.

#![tactic(auto)]

ghost use Rattle.std.specs.Prelude.{◌≡◌, ◌<◌, true, MatchOption};
ghost use Rattle.model.specs.Answers.{said};
ghost use Rattle.model.specs.WellFormed.{well_formed};
ghost use Rattle.model.specs.Rest.{stays, step_stays, tried, first_to_move, rest_answer};
ghost use Rattle.resting.specs.Said.{said_rest};

use model::{Answer, Table};

// Whether a step that answers this has stayed: idle, held, wants or asleep.
fn has_stayed(answer: Answer) -> bool
    ensures { result ≡ stays (said answer) }
{
    matches!(
        answer,
        Answer::Idle | Answer::Held | Answer::Wants | Answer::Asleep
    )
}

// Whether a step of thread x would stay: it is tried on a copy of the table, with a store of its own.
fn would_stay(table: Table, x: u8) -> bool
    requires table_value { well_formed table ≡ true }
    requires x_lt_n { x < table.n }
    ensures { result ≡ step_stays (tried table) x }
{
    let words = 8 * (table.n as usize);
    let mut store = [0; 256];
    has_stayed(unchecked::step(table, x, &mut store[..words]).answer)
}

// The lowest thread whose step would move.
fn first_to_move(table: Table) -> Option<u8>
    requires { well_formed table ≡ true }
    ensures { MatchOption result (first_to_move table ≡ table.n) (λ x. (first_to_move table ≡ x) × (x < table.n)) }
{
    for x in 0..table.n {
        if !would_stay(table, x) {
            return Some(x);
        }
    }
    None
}

// The rest call: the lowest thread whose step would move, or none where the table is at rest.
pub fn rest(table: Table) -> Result<Option<u8>, u8>
    ensures { said_rest result ≡ rest_answer table }
{
    refusals::table_refusal(table)?;
    Ok(first_to_move(table))
}
