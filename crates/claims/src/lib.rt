// No code: what is promised of the bench, and why it holds.
#![tactic(auto)]
