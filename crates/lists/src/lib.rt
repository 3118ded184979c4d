// Definitions and laws on lists; no code.
#![tactic(auto)]
