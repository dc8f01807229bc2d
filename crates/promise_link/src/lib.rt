// DEM-3 over whole lists, and that the code's follower does what the abstract one does: specs/ has the definitions, proofs/ the theorems. No code.
#![tactic(auto)]
