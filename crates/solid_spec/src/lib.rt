// The soup of each solid as definitions, and the theorems about them. No code.
#![tactic(auto)]
