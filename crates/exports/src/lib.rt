// Tables that go out as lists and are read back (document 02, W-201).
#![tactic(auto)]

pub mod back;
pub mod text;
