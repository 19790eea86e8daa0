#![tactic(auto)]
// The parts of the controller: the structs that it is made of, and the tests of its steps on plain values.
pub mod counts; // the count of closings
pub mod grants; // the current granted by link
pub mod lines; // the current on each line
pub mod moments; // times and starts that may be empty
pub mod replies; // the reply
pub mod samples; // this and the previous sample
pub mod settings; // begin's settings
