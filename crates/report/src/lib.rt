// The report: what it says of all threads, and the one function that writes a caller's slice of records.

#![tactic(auto)]

ghost use Rattle.std.specs.Prelude.{◌≡◌, get_or};
ghost use Rattle.model.specs.Refusals.{report_refusal};
ghost use Rattle.model.specs.Promise.{ReportPromise};
ghost use Rattle.refusals.specs.Numbers.{number_of};
ghost use Rattle.report.specs.Report.{zero_outcome, all_outcomes, Reported};

use model::{Answer, Outcome, Table};
use refusals::Refusal;

// What a report says: its answer, how many of the caller's records it fills, none where it is refused, and the outcomes of all 32 threads.
// Kept: `Reported` settles the outcomes of a refused report too, which a Result would not hand out.
#[derive(Clone, Copy)]
pub struct Report {
    pub answer: Answer,
    pub len: usize,
    pub outcomes: [Outcome; 32],
}

// The outcome that is all zero.
fn zero_outcome() -> Outcome
    ensures { result ≡ zero_outcome }
{
    Outcome {
        code: 0,
        source: 0,
        count: 0,
    }
}

// The outcomes of all 32 threads.
fn outcomes_of(table: Table) -> [Outcome; 32]
    ensures { result ≡ all_outcomes table }
{
    let mut outcomes = [zero_outcome(); 32];
    for (x, outcome) in outcomes.iter_mut().enumerate() {
        *outcome = table.threads[x].outcome;
    }
    outcomes
}

// The rows of a report into so many records.
fn report_refusal(table: Table, records: usize) -> Result<(), Refusal>
    ensures { number_of result ≡ report_refusal table records }
{
    refusals::table_refusal(table)?;
    refusals::length_refusal(table.n as usize, records)
}

// What the report call says, for a table and a number of the caller's records.
pub fn reported(table: Table, records: usize) -> Report
    ensures { Reported table records result }
{
    let outcomes = outcomes_of(table);
    match report_refusal(table, records) {
        Err(refusal) => Report {
            answer: Answer::Refused(refusal.into()),
            len: 0,
            outcomes: outcomes,
        },
        Ok(()) => Report {
            answer: Answer::Accepted,
            len: records,
            outcomes: outcomes,
        },
    }
}

// One outcome of a report; past its 32, all zero.
pub fn outcome_in(report: Report, i: usize) -> Outcome
    ensures { result ≡ get_or report.outcomes i zero_outcome }
{
    report.outcomes.get(i).copied().unwrap_or(zero_outcome())
}

// Fills the caller's records with the outcome of each thread; refused, leaves them as they are.
pub fn report_into(table: Table, records: &mut [Outcome]) -> Answer
    ensures { ReportPromise table records.old result records.new }
{
    let report = reported(table, records.len());
    for i in 0..report.len {
        records[i] = outcome_in(report, i);
    }
    report.answer
}
