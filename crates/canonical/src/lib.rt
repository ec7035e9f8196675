// The canonical image of a word list: definitions in specs/, laws in proofs/.
#![tactic(auto)]
