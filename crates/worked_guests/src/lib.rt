// A worked list of calls by three guests, and lists that break a premise. All of it is in specs/ and proofs/.
#![tactic(auto)]
