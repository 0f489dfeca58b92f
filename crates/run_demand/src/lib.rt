// Demand 3 over the contracts of the calls, of `run` and across the boundary to C. There is no code here, only statements and proofs.
#![tactic(auto)]
