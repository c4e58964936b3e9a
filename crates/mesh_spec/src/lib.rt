// The Rust's TriMesh as definitions, and the theorems about it. No code.
#![tactic(auto)]
