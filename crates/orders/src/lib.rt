// Guests whose calls come in any order: each guest's answers and bill and the frame in the end are the same in all, and a test before the start. All of it is in specs/ and proofs/.
#![tactic(auto)]
