// 01's proved cases, in one list under one theorem: specs/Cases.antt and proofs/Cases.antt. There is no code of its own here.
#![tactic(auto)]
