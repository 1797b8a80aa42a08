// No functions: document 01's starred rows are stated in specs/Rows.antt and proved in proofs/Rows.antt.
#![tactic(auto)]
