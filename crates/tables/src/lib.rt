#![tactic(auto)]
// The rows of crate figures as text: words, numbers and levels, read line by line. It calls nothing of the controller.
pub mod numbers; // numbers below 0 or not, and what is made of them
mod readings; // the readings of a window
pub mod rows; // one line as a row
mod text; // the tokens of a line
pub mod words; // the words of a row
