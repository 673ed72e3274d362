// No code: laws of the definitions, for the theorems and for the code.

#![tactic(auto)]
