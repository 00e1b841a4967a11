// The slots of a society's span (document 01, "The shelf"; the words of one as W-203 has them): searches, and moves, from any words.
#![tactic(auto)]

pub mod moves;
pub mod search;
pub mod table;

// The words of a slot, of its head, and of head and values; the most values of a table.
pub const SLOT_WORDS: usize = 287;

pub const HEAD: usize = 7;

pub const VALUES_END: usize = 127;

const CELLS: u32 = 120;
