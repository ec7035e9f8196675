// The word graph of document 01: its definitions are in specs/.
#![tactic(auto)]
