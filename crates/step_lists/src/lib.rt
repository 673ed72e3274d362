// No code: theorems about lists of steps and where they lead.

#![tactic(auto)]
