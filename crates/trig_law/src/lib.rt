// Sine and cosine lie near their alternating series: the definitions in specs/, the proof of the theorem in proofs/. No code.
#![tactic(auto)]
