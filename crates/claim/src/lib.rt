#![tactic(auto)]
// What holds of every call of the controller and of every list of calls: definitions and theorems, no code.
