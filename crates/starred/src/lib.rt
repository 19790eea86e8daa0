#![tactic(auto)]
// The starred bench figures of document 01, as one list with one proposition: proofs/Starred.antt. There is no code here.
