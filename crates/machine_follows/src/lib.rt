// That the machine follows the event (abstract_policy specs/Interaction.antt): what its phases stand for, specs/, and the theorem, proofs/. No code.
#![tactic(auto)]
