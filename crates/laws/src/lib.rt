// General words and facts on lists, tests and bits, for every layer. No code.
#![tactic(auto)]
