// Packs read and written (document 01, "Packs"): a walk along the table of `fields`, over bytes or over words. A word is a signed 64-bit number;
// a pack's words are its numbers in pack order.
#![tactic(auto)]

pub mod reading;
pub mod walking;
pub mod words;
pub mod writing;
