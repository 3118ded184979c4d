// Placement (document 01): cells, the rules for granules and groups, and the checks of a container; no code.
#![tactic(auto)]
