// No code: what a well-formed table tells of its threads, and laws of its locks, queues and copies.

#![tactic(auto)]
