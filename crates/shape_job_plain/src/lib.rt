// That a job is a plain run: what its calls show is what document 01's plain run shows of the same answers. There is no code here, only proofs.
#![tactic(auto)]
