// Plays the schedule on standard input and prints how it ends.

#![tactic(auto)]

use std::io;

fn main(rt: HostRuntime) -> io::Result<()> {
    end_printing::run(&mut rt.stdin(), &mut rt.stdout())
}
