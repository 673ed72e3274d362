// No code: demand 3, every trace has one linearization.

#![tactic(auto)]
