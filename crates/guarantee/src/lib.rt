// Demand 3: what the walk guarantees of every list of insertions. The statement is in specs/, its proof in proofs/; no function.
#![tactic(auto)]
