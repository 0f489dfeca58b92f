// Finite floats as whole numbers, and what one rounding may lose: stated in specs/ and proved in proofs/. There is no code here.
#![tactic(auto)]
