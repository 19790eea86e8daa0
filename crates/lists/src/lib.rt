#![tactic(auto)]
// What holds of every list of calls: the replay, the claim, and its proof on the definitions, no code.
