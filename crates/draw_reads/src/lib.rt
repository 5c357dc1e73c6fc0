// A draw past its checks as a run of fragments, what its fragments read, and what becomes of each pixel. All of it is in specs/ and proofs/.
#![tactic(auto)]
