// The refusals of document 01's table: one function for each row or group of rows, joined by `?` in the order of checking.

#![tactic(auto, using(crate::proofs::Laws::joined), unfolding(crate::specs::Rows::thread_rows, crate::specs::Rows::operation_rows, model::specs::Locks::lock_free, model::specs::Phases::is_one_of, model::specs::Times::is_time_code, model::specs::WellFormed::in_phase, model::specs::WellFormed::size_in_range, model::specs::Refusals::make_refusal, model::specs::Refusals::bad_size, model::specs::Refusals::table_rows, model::specs::Refusals::not_well_formed, model::specs::Refusals::no_thread, model::specs::Refusals::bad_length, model::specs::Refusals::argument_rows, model::specs::Refusals::search_refusal, model::specs::Refusals::lock_owned, model::specs::Refusals::not_idle, model::specs::Refusals::neither_part, model::specs::Refusals::with_itself, model::specs::Refusals::no_partner, model::specs::Refusals::no_member, model::specs::Refusals::too_many_words, model::specs::Refusals::more_words, model::specs::Refusals::bad_time, model::specs::Refusals::unruled_rows, model::specs::Refusals::not_permitted, model::specs::Refusals::bad_rules))]

ghost use Rattle.std.specs.Prelude.{◌≡◌, [], ◌∷◌, ◌++◌, ℕ, ◌≤◌, OnOk};
ghost use Rattle.model.specs.declared.Rules.{Rules};
ghost use Rattle.model.specs.declared.Table.{Table};
ghost use Rattle.model.specs.Rules.{row_limit, misfit};
ghost use Rattle.model.specs.Threads.{at};
ghost use Rattle.model.specs.Refusals.{first_refusal, no_thread, bad_length, lock_owned, with_itself, too_many_words, bad_time, not_permitted, bad_rules, table_rows, argument_rows, unruled_rows, make_refusal, search_refusal};
ghost use Rattle.refusals.specs.Numbers.{number, number_of};
ghost use Rattle.refusals.specs.Rows.{thread_rows, operation_rows};
ghost use Rattle.refusals.specs.There.{There};

use model::{EntryPoint, Misfit, Operation, Rules, Table, Thread};
use threads::{IDLE, LAST_TIME_CODE, NOBODY, SPARK_LIMIT, WORD_LIMIT};

// A row of the table, by its number there.
#[derive(Clone, Copy, PartialEq, Eq)]
pub enum Refusal {
    BadSize = 1,
    NotWellFormed = 2,
    NoThread = 3,
    LockOwned = 4,
    NotIdle = 5,
    NeitherPart = 6,
    WithItself = 7,
    NoPartner = 8,
    TooManyWords = 9,
    BadTime = 10,
    BadLength = 11,
    BadRecord = 12,
    NotPermitted = 13,
    BadRules = 14,
    NoMember = 15,
    TooManySparkWords = 16,
}

impl From<Refusal> for u8 {
    ghost from_gives = { λ refusal result. result ≡ number refusal };

    fn from(refusal: Refusal) -> u8 {
        refusal as u8
    }
}

// Refused where the row holds.
#[tactic(auto, unfolding(model::specs::Refusals::first_refusal))]
fn row(holds: bool, refusal: Refusal) -> Result<(), Refusal>
    ensures { number_of result ≡ first_refusal (record { when = holds; number = number refusal } ∷ []) }
{
    if holds {
        return Err(refusal);
    }
    Ok(())
}

// N is 0 or above 32.
pub fn size_refusal(n: u8) -> Result<(), Refusal>
    ensures { number_of result ≡ make_refusal n }
{
    row(!((1 <= n) & (n <= 32)), Refusal::BadSize)
}

// The rows on the table: its size, and whether it is well-formed.
pub fn table_refusal(table: Table) -> Result<(), Refusal>
    ensures { number_of result ≡ first_refusal (table_rows table) }
{
    size_refusal(table.n)?;
    row(!wellformed::well_formed(table), Refusal::NotWellFormed)
}

// Thread x is N or more.
pub fn number_refusal(n: u8, x: u8) -> Result<(), Refusal>
    ensures { (t : Table) → t.n ≡ n → number_of result ≡ first_refusal (no_thread t x ∷ []) }
{
    row(n <= x, Refusal::NoThread)
}

// A store or a slice of records has not the length that it should have.
pub fn length_refusal(expected: usize, actual: usize) -> Result<(), Refusal>
    ensures { number_of result ≡ first_refusal (bad_length expected actual ∷ []) }
{
    row(actual != expected, Refusal::BadLength)
}

// The rows on a thread's number and the length of a word store.
pub fn argument_refusal(n: u8, x: u8, words: usize) -> Result<(), Refusal>
    ensures { (t : Table) → t.n ≡ n → number_of result ≡ first_refusal (argument_rows t x words) }
{
    number_refusal(n, x)?;
    length_refusal(8 * (n as usize), words)
}

// The rows of a call on thread x that has no word store: those on the table, and on the thread's number.
#[tactic(auto, using(crate::proofs::Laws::joined, crate::proofs::Calls::numbered_there), unfolding(model::specs::Refusals::search_refusal, model::specs::Refusals::table_rows, model::specs::Refusals::bad_size, model::specs::Refusals::not_well_formed))]
pub fn numbered_call_refusal(table: Table, x: u8) -> Result<(), Refusal>
    ensures number { number_of result ≡ search_refusal table x }
    ensures there { OnOk result (There table x) }
{
    table_refusal(table)?;
    number_refusal(table.n, x)
}

// The rows of a call on thread x that has a word store: those on the table, on the thread's number, and on the length of the store.
#[tactic(auto, using(crate::proofs::Laws::joined), unfolding(model::specs::Refusals::table_rows, model::specs::Refusals::bad_size, model::specs::Refusals::not_well_formed))]
pub fn stored_call_refusal(table: Table, x: u8, words: usize) -> Result<(), Refusal>
    ensures number { number_of result ≡ first_refusal (table_rows table ++ argument_rows table x words) }
    ensures there { OnOk result (There table x) }
{
    table_refusal(table)?;
    argument_refusal(table.n, x, words)
}

// The lock of a thread, which is h, is owned.
pub fn lock_refusal(h: Thread) -> Result<(), Refusal>
    ensures { (t : Table) (x : ℕ) → at t x ≡ h → number_of result ≡ first_refusal (lock_owned t x ∷ []) }
{
    row(h.owner != NOBODY, Refusal::LockOwned)
}

// The rows on the thread that begins, which is h: its lock is owned, or its phase is not idle.
fn thread_refusal(h: Thread) -> Result<(), Refusal>
    ensures { (t : Table) (x : ℕ) → at t x ≡ h → number_of result ≡ first_refusal (thread_rows t x) }
{
    lock_refusal(h)?;
    row(h.phase != IDLE, Refusal::NotIdle)
}

// The operation has more words than its entry takes.
fn words_refusal(via: EntryPoint, op: Operation) -> Result<(), Refusal>
    ensures { number_of result ≡ first_refusal (too_many_words via op ∷ []) }
{
    let send = op.send;
    match via {
        EntryPoint::Main => row(
            send.present & (WORD_LIMIT < send.count),
            Refusal::TooManyWords,
        ),
        EntryPoint::Spark => row(
            send.present & (SPARK_LIMIT < send.count),
            Refusal::TooManySparkWords,
        ),
    }
}

// Its target or closed partner is thread x, which begins it.
fn itself_refusal(x: u8, op: Operation) -> Result<(), Refusal>
    ensures { number_of result ≡ first_refusal (with_itself x op ∷ []) }
{
    let send = op.send;
    row(
        (send.present & (send.target == x)) | threads::closed_on(op.receive, x),
        Refusal::WithItself,
    )
}

// A part that it has has a time code above 15.
fn time_refusal(op: Operation) -> Result<(), Refusal>
    ensures { number_of result ≡ first_refusal (bad_time op ∷ []) }
{
    let send = op.send;
    let receives = threads::has_receive(op.receive);
    let waits = threads::receive_time(op.receive);
    row(
        (send.present & (LAST_TIME_CODE < send.time)) | (receives & (LAST_TIME_CODE < waits)),
        Refusal::BadTime,
    )
}

// The rows on the operation that thread x begins.
fn operation_refusal(via: EntryPoint, n: u8, x: u8, op: Operation) -> Result<(), Refusal>
    ensures { (t : Table) → t.n ≡ n → number_of result ≡ first_refusal (operation_rows via t x op) }
{
    let receive = op.receive;
    row(
        !(op.send.present | threads::has_receive(receive)),
        Refusal::NeitherPart,
    )?;
    itself_refusal(x, op)?;
    row(threads::closed_beyond(n, receive), Refusal::NoPartner)?;
    row(threads::is_empty(receive), Refusal::NoMember)?;
    words_refusal(via, op)?;
    time_refusal(op)
}

// The rows on the thread that begins, which is h, and on its operation, whatever the rules.
#[tactic(auto, unfolding(crate::specs::Rows::thread_rows, crate::specs::Rows::operation_rows, model::specs::Refusals::first_refusal, model::specs::Refusals::unruled_rows, model::specs::Refusals::lock_owned, model::specs::Refusals::not_idle))]
pub fn begin_refusal(via: EntryPoint, n: u8, x: u8, h: Thread, op: Operation) -> Result<(), Refusal>
    ensures { (t : Table) → t.n ≡ n → at t x ≡ h → number_of result ≡ first_refusal (unruled_rows via t x op) }
{
    thread_refusal(h)?;
    operation_refusal(via, n, x, op)
}

// The rules do not permit the send part of the operation that thread x begins.
pub fn permit_refusal(n: u8, rules: Rules, x: u8, op: Operation) -> Result<(), Refusal>
    requires { rules.len ≤ row_limit }
    ensures { (t : Table) → t.n ≡ n → t.rules ≡ rules → number_of result ≡ first_refusal (not_permitted t x op ∷ []) }
{
    let send = op.send;
    let permitted = rules::permit(rules, x, send.target);
    row(
        send.present & (send.target < n) & !permitted,
        Refusal::NotPermitted,
    )
}

// Rules that are loaded do not fit.
pub fn load_refusal(found: Misfit) -> Result<(), Refusal>
    ensures { (t : Table) (rules : Rules) → found ≡ misfit t.n rules → number_of result ≡ first_refusal (bad_rules t rules ∷ []) }
{
    row(!rules::is_fit(found), Refusal::BadRules)
}
