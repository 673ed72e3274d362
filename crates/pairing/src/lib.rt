// No code: theorems about the atomic machine alone.

#![tactic(auto)]
