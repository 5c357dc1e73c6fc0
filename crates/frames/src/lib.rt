// The state that guests share: a frame of pixels, a texel store and texture records, and what a guest's window keeps. All of it is in specs/ and proofs/.
#![tactic(auto)]
