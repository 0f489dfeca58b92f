// How many nodes a block has: it is stated in specs/ and proved in proofs/. There is no code here.
#![tactic(auto)]
