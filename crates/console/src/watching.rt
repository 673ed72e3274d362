// What a refused line changed, told: nothing, as every public call promises.
use crate::talking::Standing;
use model::{Answer, Outcome};
use std::io;
use std::io::Write;

// Whether an answer is one line, `refused` and its number.
fn is_refusal(answer: &[u8]) -> bool {
    let end = scanning::line_end(answer, 0);
    if end + 1 != answer.len() {
        return false;
    }
    let word = scanning::next_word(answer, 0);
    scanning::is_word(&answer[word.start..word.end], b"refused")
}

// Prints a line where something is not as it was.
fn unless<W: Write>(output: &mut W, kept: bool, line: &[u8]) -> io::Result<()> {
    if kept {
        return Ok(());
    }
    output.write_all(line)
}

// Records that are as they were before the report.
fn kept_records(records: &[Outcome; 40]) -> bool {
    let before = telling::blank();
    records.iter().all(|outcome| *outcome == before)
}

// Compares the table, the store and the records before and after a refused line.
fn compare<W: Write>(output: &mut W, before: &Standing, after: &Standing) -> io::Result<()> {
    let old = before.session.table;
    let new = after.session.table;
    unless(output, old == new, b"changed: table\n")?;
    unless(output, before.words == after.words, b"changed: store\n")?;
    let filled = telling::report_to(new, after.session.records);
    if let Answer::Refused(_) = filled.answer {
        return unless(output, kept_records(&filled.records), b"changed: records\n");
    }
    Ok(())
}

// Where the answer is a refusal, compares what stood before the line and what stands after it.
pub fn watch<W: Write>(
    output: &mut W,
    answer: &[u8],
    before: &Standing,
    after: &Standing,
) -> io::Result<()> {
    if is_refusal(answer) {
        return compare(output, before, after);
    }
    Ok(())
}
