// Calls on bytes as the definition has them: specs/. No code.
#![tactic(auto)]
