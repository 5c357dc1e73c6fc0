// Worked guests that pass the test and so may come in any order, and guests that fail it. All of it is in specs/ and proofs/.
#![tactic(auto)]
