// Demand 3, keeping off the settings that are ruled out, that bits beyond the settings mean nothing, and the runs where several inputs may
// change at once, over what reading and the table jobs leave in their buffers: no functions. They are stated in specs/ and proved in proofs/.
#![tactic(auto)]
