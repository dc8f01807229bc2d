// Theorems over runs of the C functions on bytes; no code.
#![tactic(auto)]
