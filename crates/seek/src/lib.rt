// The code of SEARCH and VALIDATELINK: what a turn there reads, and what it comes to.
#![tactic(auto)]

mod search; // down from a node to the child that the attempt's phase sees
mod validate; // one call of VALIDATELINK, and the arguments of the five

pub use search::search39;
pub use validate::{link_child, link_left, link_of, link_parent, sibling_left};
