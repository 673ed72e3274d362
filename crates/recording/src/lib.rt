// What a recorder asks of a thread.

#![tactic(auto)]

ghost use Rattle.recording.specs.Rendezvous.{TellsRendezvous};

use model::Thread;

// Whether a step of this thread is a rendezvous, at which two logs gain an entry: its lock is free, and its copy has no word left.
pub fn is_rendezvous(own: Thread) -> bool
    ensures { TellsRendezvous own result }
{
    let op = own.op;
    let send = op.send;
    (own.owner == threads::NOBODY) & (own.phase == threads::COPY) & (send.count <= own.copied)
}
