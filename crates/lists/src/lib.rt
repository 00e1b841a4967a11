// Comma lists (document 02, W-201), read: lines and fields, and what is wrong with the first faulty line.
#![tactic(auto)]

mod cut;
pub mod lines;
pub mod reading;
