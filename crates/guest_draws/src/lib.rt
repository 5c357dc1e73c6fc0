// Draws among the calls that guests make, and demand 3 for every kind of call. All of it is in specs/ and proofs/.
#![tactic(auto)]
