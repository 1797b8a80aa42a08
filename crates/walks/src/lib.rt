// No functions. The words of a walk of a function by hand, and the laws with which every one ends, stand in proofs/, for the crates that lend
// structs.
#![tactic(auto)]
