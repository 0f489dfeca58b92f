// What demand 3 says of the design in a run: it is stated in specs/ and proved in proofs/. There is no code here.
#![tactic(auto)]
