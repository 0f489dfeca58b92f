// What holds of the row weights of a run's own table, and of one nudged element: stated in specs/ and proved in proofs/. There is no code here.
#![tactic(auto)]
