// Demand 3 and the table of figures, as theorems about the definitions that the contracts cite: in specs/. No code.
#![tactic(auto)]
