// No code: the text of a lawful schedule is read back, and what is read from any text is lawful.

#![tactic(auto)]
