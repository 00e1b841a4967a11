// The C boundary: the thirteen calls of the portal, each of which hands what C lends to the function of `bench` of its name and says what that says.
#![tactic(auto)]

pub mod comma;
pub mod keeping;
pub mod proposals;
pub mod words;
