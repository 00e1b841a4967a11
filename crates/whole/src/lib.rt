// Exact mathematics of whole numbers: definitions in specs/, laws in proofs/. There is no code here.
#![tactic(auto)]
