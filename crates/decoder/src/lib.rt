// State paths, true scores, the list of hits and demand 3: definitions in specs/. The score type is in score, the token
// type in token.
#![tactic(auto)]

pub mod score;
pub mod token;
