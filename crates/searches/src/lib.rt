// The search of a thread, for users: the sender that it settles on, and how many queue places it read.

#![tactic(auto)]

ghost use Rattle.std.specs.Prelude.{◌≡◌};
ghost use Rattle.model.specs.Promise.{search_answer};
ghost use Rattle.searches.specs.Said.{said_search};

use model::Table;

// What a search found: the sender that it settled on, or 255 for nobody, and how many queue places it read.
// Kept, no Option: by `search-settles` an answer is settled by what it stands for, and `search_answer` has 255 for nobody.
#[derive(Clone, Copy)]
pub struct Found {
    pub sender: u8,
    pub read: u8,
}

// The search call: what a thread finds in its queue, or nothing to tell where it is not receiving.
pub fn search(table: Table, thread: u8) -> Result<Option<Found>, u8>
    ensures { said_search result ≡ search_answer table thread }
{
    refusals::numbered_call_refusal(table, thread)?;
    let own = table.threads[thread as usize];
    if !own.flags.receiving {
        return Ok(None);
    }
    let found = queues::first_acceptable(own);
    Ok(Some(Found {
        sender: found.sender.unwrap_or(threads::NOBODY),
        read: found.read,
    }))
}
