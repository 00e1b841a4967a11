// The thirteen calls of the portal, which `bench_c` exports to C. Each tests its answer slice before all else and hands what it is lent to a proved
// function; none asks its caller to have tested anything.
#![tactic(auto)]

mod answers;
pub mod comma;
pub mod keeping;
pub mod proposals;
pub mod words;
