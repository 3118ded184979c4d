// Sequences of fills and readings, and the return of the messages (demand 2); no code.
#![tactic(auto)]
