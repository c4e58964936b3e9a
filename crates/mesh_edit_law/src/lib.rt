// What append, flip and transform leave, as definitions, and the theorem about lists of these calls: in specs/. No functions.
#![tactic(auto)]
