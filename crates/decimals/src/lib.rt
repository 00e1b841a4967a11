// Whole numbers in decimal, in ASCII: printed, and read from a field of a list.
#![tactic(auto)]

pub mod printing;
pub mod reading;
