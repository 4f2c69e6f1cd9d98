// The library's face: starts, a turn, a run of turns.
#![tactic(auto)]

mod turns; // a run of turns, and one turn

pub use starting::{start_delete, start_find, start_insert, start_scan};
pub use turns::{run, turn};
