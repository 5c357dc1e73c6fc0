// Definitions and laws on lists and loops that the other crates share. All of it is in specs/ and proofs/.
#![tactic(auto)]
