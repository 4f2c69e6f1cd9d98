// RANGESCAN and SCANHELPER (lines 129 to 146), a turn at a time: what each turn decides.
#![tactic(auto)]

mod progress; // lines 131 to 140: the phase, and what is in progress at a node
mod visits; // SCANHELPER: what a node comes to
mod children; // lines 141 to 144: which children are gone to

pub use children::{child141, left144};
pub use progress::{bump131, state140, word139};
