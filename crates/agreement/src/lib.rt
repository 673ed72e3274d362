// No code: theorems about two logs, and when they agree.

#![tactic(auto)]
