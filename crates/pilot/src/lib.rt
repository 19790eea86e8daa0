#![tactic(auto)]
// Bands of the pilot's levels, and the verdicts on a sample.
pub mod bands;
pub mod verdicts;
