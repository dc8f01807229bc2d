// A run of the service and what it writes; that it is where the definition's run is (abstract_policy specs/Policy.antt), and a writer on the link. No code.
#![tactic(auto)]
