// Histories of a link, and demand 3 over any reader of its containers; no code.
#![tactic(auto)]
