// How near the weights of a filter row come to a sum of one, and what one nudged element can do: stated in specs/ and proved in proofs/. There is no code here.
#![tactic(auto)]
