// Examples of the definitions of all layers, computed on bytes: specs/ and proofs/.
#![tactic(auto)]
