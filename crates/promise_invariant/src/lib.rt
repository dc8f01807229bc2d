// That a well-formed service stays well formed through every call, and what that bounds. No code.
#![tactic(auto)]
