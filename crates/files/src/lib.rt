// What is proved of whole files: how long they are, and that a file with row counts and its ordinary file give one query: specs/ has the statements, proofs/ the proofs. The code is in the crates `sections` and `decoder`.
#![tactic(auto)]
