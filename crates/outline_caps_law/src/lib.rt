// Theorems on the clipper's definitions: see specs/.
#![tactic(auto)]
