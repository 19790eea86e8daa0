#![tactic(auto)]
// What crate figures writes: each row as it stands, and the answer beside it.
pub mod beside; // the answer to a row
pub mod replies; // the reply to a call
