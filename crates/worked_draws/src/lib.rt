// Worked lists of guests' calls with draws among them. All of it is in specs/ and proofs/.
#![tactic(auto)]
