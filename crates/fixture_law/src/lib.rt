// What the planner's call promises, as theorems about the definitions of fixture_spec: in specs/. No code.
#![tactic(auto)]
