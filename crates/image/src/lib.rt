// The image of a word graph: definitions in specs/, laws in proofs/.
#![tactic(auto)]
