// No code: the two logs of one run, and that they agree.

#![tactic(auto)]
