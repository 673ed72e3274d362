// No code: theorems about tables in which no thread's step moves.

#![tactic(auto)]
