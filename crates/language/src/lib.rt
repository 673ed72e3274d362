// The language of lines: definitions in specs/, and no function.

#![tactic(auto)]
