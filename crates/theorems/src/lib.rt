// The main theorems, of the definitions that the contracts cite: proofs/Main.antt. Read that first.
#![tactic(auto)]
