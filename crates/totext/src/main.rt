// Prints the schedule on standard input as text, a line for each record.

#![tactic(auto)]

use std::io;

fn main(rt: HostRuntime) -> io::Result<()> {
    schedule_text::print_text(&mut rt.stdin(), &mut rt.stdout())
}
