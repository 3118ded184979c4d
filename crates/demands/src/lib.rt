// The demands as statements over the definitions; no code.
#![tactic(auto)]
