// No code: every call keeps a table well-formed.

#![tactic(auto)]
