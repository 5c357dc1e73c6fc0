// The calls that guests make on one frame, one texel store and their textures, and what each guest gets of them. All of it is in specs/ and proofs/.
#![tactic(auto)]
