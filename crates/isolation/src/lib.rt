// Machines whose calls say what they read and what they write, and when a guest's calls among others' do what they do alone. All of it is in specs/ and proofs/.
#![tactic(auto)]
