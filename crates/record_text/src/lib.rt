// The line of a record, without what ends it, written into a caller's bytes as far as they reach.

#![tactic(auto, using(text::proofs::Writing::writing), unfolding(crate::specs::Lines::begin_line, model::specs::Bondtrace::ascii, model::specs::Lists::up_to))]

ghost use Rattle.std.specs.Prelude.{◌≡◌, [], ◌∷◌, ◌++◌, ◌≤◌, length, get_or};
ghost use Rattle.model.specs.Bondtrace.{spaced};
ghost use Rattle.language.specs.RecordText.{sent_words, send_text, receive_text, record_line};
ghost use Rattle.spelling.specs.Lengths.{longest_line};
ghost use Rattle.text.specs.Writing.{written};
ghost use Rattle.record_text.specs.Lines.{begin_line};

use model::{Receive, Record, SendPart};
use reading::{CANCEL, STEP, TABLE, is_begin};
use text::Text;

// A word of a send part; past the eighth it is 0.
fn word_at(send: SendPart, i: usize) -> u32
    ensures { result ≡ get_or send.words i 0 }
{
    send.words.get(i).copied().unwrap_or(0)
}

// As many words of a send part as its count.
fn put_sent(out: &mut Text, send: SendPart)
    ensures { out.new ≡ written (spaced (sent_words send)) out.old }
{
    for i in 0..send.count {
        out.words(&[word_at(send, usize::from(i))]);
    }
}

// A send part, or nothing where there is none.
fn put_send(out: &mut Text, send: SendPart)
    ensures { out.new ≡ written (send_text send) out.old }
{
    if send.present {
        out.bytes(b" send");
        out.words(&[u32::from(send.target), u32::from(send.time)]);
        put_sent(out, send);
    }
}

// A receive part, or nothing where there is none.
fn put_receive(out: &mut Text, receive: Receive)
    ensures { out.new ≡ written (receive_text receive) out.old }
{
    match receive {
        Receive::Absent => {}
        Receive::Open(wait) => {
            out.bytes(b" receive any");
            out.words(&[u32::from(wait.time)]);
        }
        Receive::Closed(wait) => {
            out.bytes(b" receive");
            out.words(&[u32::from(wait.partner), u32::from(wait.time)]);
        }
        Receive::OneOf(time, set) => {
            out.bytes(b" receive set");
            out.words(&[set, u32::from(time)]);
        }
    }
}

// A name, and a thread behind it.
fn put_named(out: &mut Text, name: &[u8], thread: u8)
    ensures { out.new ≡ written (name.now ++ spaced (thread ∷ [])) out.old }
{
    out.bytes(name);
    out.words(&[u32::from(thread)]);
}

// The line of a begin.
fn put_begin(out: &mut Text, item: Record)
    ensures { out.new ≡ written (begin_line item) out.old }
{
    put_named(out, b"begin", item.thread);
    put_send(out, item.op.send);
    put_receive(out, item.op.receive);
}

// The line of a record, without what ends it.
pub fn put_record(out: &mut Text, item: Record)
    ensures written { out.new ≡ written (record_line item) out.old }
    ensures item_len_bound { length (record_line item) ≤ longest_line }
{
    let kind = item.kind;
    if kind == TABLE {
        return put_named(out, b"table", item.thread);
    }
    if is_begin(kind) {
        return put_begin(out, item);
    }
    if kind == STEP {
        return put_named(out, b"step", item.thread);
    }
    if kind == CANCEL {
        return put_named(out, b"cancel", item.thread);
    }
    out.bytes(b"tick");
}
