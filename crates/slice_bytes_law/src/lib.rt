// Laws of 32-bit numbers and floats in lists of bytes: theorems in specs/, no code.
#![tactic(auto)]
