// The theorem behind demand 3, for any family of linear forms. There is no code here: read specs/Promises.antt.
#![tactic(auto)]
