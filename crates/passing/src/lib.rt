// Token passing, and that it lists the hits: definitions in specs/, theorems in proofs/.
#![tactic(auto)]
