// What fits into a bucket table, and why a reached list that is used up shows that a label does not. Definitions and proofs only: put and ask carry the theorems.
#![tactic(auto)]
