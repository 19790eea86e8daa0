#![tactic(auto)]
// The controller of documents 01 and 02 as definitions (specs/), and rows that are computed on them (proofs/Rows/). There is no code here.
