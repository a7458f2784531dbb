// The paper's worked cases: the list is specs/Cases.antt, the theorem proofs/Worked.antt. There is no code.
#![tactic(auto)]
