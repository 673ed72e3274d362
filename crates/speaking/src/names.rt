// Phases, codes and refusals by name, and the call that a record was.
use model::{Answer, Record};
use text::{SPACE, Text};

// A phase by its name.
pub fn put_phase_name(out: &mut Text, phase: u8) {
    match phase {
        threads::IDLE => out.bytes(b"idle"),
        threads::LOCK => out.bytes(b"lock"),
        threads::CHECK => out.bytes(b"check"),
        threads::COPY => out.bytes(b"copy"),
        threads::RELEASE => out.bytes(b"release"),
        threads::SLEEP => out.bytes(b"sleep"),
        threads::LOOK => out.bytes(b"look"),
        threads::WAKE => out.bytes(b"wake"),
        threads::UNLOCK => out.bytes(b"unlock"),
        _ => {}
    }
}

// A code of document 01's list by its name.
pub fn put_code_name(out: &mut Text, code: i32) {
    match code {
        threads::DONE => out.bytes(b"done"),
        threads::RUNNING => out.bytes(b"running"),
        threads::NEVER_BEGUN => out.bytes(b"never begun"),
        threads::NO_RECEIVER => out.bytes(b"receiver does not exist"),
        threads::RECEIVE_TIME_OVER => out.bytes(b"receive time over"),
        threads::SEND_TIME_OVER => out.bytes(b"send time over"),
        threads::RECEIVE_CANCELLED => out.bytes(b"receive cancelled"),
        threads::SEND_CANCELLED => out.bytes(b"send cancelled"),
        _ => {}
    }
}

// What a refusal means, by its number, where a schedule can meet it.
fn put_meaning(out: &mut Text, number: u8) {
    match number {
        0 => out.bytes(b"no refusal"),
        1 => out.bytes(b"N is 0 or above 32"),
        2 => out.bytes(b"the table is not well-formed"),
        3 => out.bytes(b"no such thread"),
        4 => out.bytes(b"its lock is owned"),
        5 => out.bytes(b"it is not idle"),
        6 => out.bytes(b"neither part"),
        7 => out.bytes(b"with itself"),
        8 => out.bytes(b"no such partner"),
        9 => out.bytes(b"more than 8 words"),
        10 => out.bytes(b"no such time code"),
        11 => out.bytes(b"wrong store or records"),
        12 => out.bytes(b"no lawful record"),
        15 => out.bytes(b"an empty set"),
        _ => {}
    }
}

// An answer, a refusal with its meaning.
fn put_told(out: &mut Text, answer: Answer) {
    out.answer(answer);
    if let Answer::Refused(number) = answer {
        out.bytes(b" (");
        put_meaning(out, number);
        out.bytes(b")");
    }
}

// A record's place in the schedule, its call and the answer.
pub fn put_call(out: &mut Text, place: u64, item: Record, answer: Answer) {
    out.number(place);
    out.byte(SPACE);
    record_text::put_record(out, item);
    out.bytes(b": ");
    put_told(out, answer);
}
