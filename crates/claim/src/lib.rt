// The promise over every list of calls: specs/Claim.antt states it, proofs/Promise.antt proves it. There is no code here.
#![tactic(auto)]
