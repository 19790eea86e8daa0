#![tactic(auto)]
// What is proved once of every call that is lent a controller (proofs/). There is no code here.
