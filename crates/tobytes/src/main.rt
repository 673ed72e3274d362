// Writes the bytes of the schedule whose text is on standard input, up to the first line that is none of a schedule.

#![tactic(auto)]

use std::io;

fn main(rt: HostRuntime) -> io::Result<()> {
    schedule_text::print_bytes(&mut rt.stdin(), &mut rt.stdout(), &mut rt.stderr())
}
