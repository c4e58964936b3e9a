// Laws of tests and of lists that several crates cite: theorems in specs/, no code.
#![tactic(auto)]
