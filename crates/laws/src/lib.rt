#![tactic(auto)]
// What holds of one call, in whatever state it finds the controller: propositions and their proofs, no code.
