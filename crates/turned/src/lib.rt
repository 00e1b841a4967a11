// The words of a job and of a proposal with their cells turned about (W-213): definitions in specs/, laws in proofs/. There is no code here.
#![tactic(auto)]
