// Worked cases of document 01 and of change requests, proved: specs/Cases.antt has the list, proofs/Worked.antt its proof.
#![tactic(auto)]
