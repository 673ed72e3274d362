// No code: a schedule that comes in pieces is played as it is played whole.

#![tactic(auto)]
