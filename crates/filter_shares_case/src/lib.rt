// A filter row worked out, whose weights do not add up to one: stated in specs/ and computed in proofs/. There is no code here.
#![tactic(auto)]
