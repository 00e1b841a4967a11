// The passes of the proposal that honours links (document 02, W-207): f64 arithmetic on a job's factor, each operation rounded once and in the order that
// `specs/Hildreth.antt` fixes.
#![tactic(auto)]

pub mod link;
pub mod method;
