// Worked examples of the definitions, as one table: specs/Examples.antt, and proofs/Right.antt for the theorem.
#![tactic(auto)]
