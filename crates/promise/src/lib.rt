// All that is promised, of any exported functions; that ours keep it, and that only one behaviour does. No code.
#![tactic(auto)]
