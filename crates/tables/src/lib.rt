// The two tables, the written plan, and the proof that it is the cheapest: specs/ has them, proofs/ the proofs. The code is the crate `solver`.
#![tactic(auto)]
