// No code: every accepted call of the step machine is its event of the atomic machine, or none.

#![tactic(auto)]
