// Our exported functions as a record of functions. No code.
#![tactic(auto)]
