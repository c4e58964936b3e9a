// The outcome of the call `tessellate`: definitions, in specs/.
#![tactic(auto)]
