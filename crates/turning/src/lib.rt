// One turn on tables that somebody has looked at.
#![tactic(auto)]

mod lists; // a worker's pending nodes and found keys
mod workers; // a worker after its turn
mod turns; // the turn

pub use turns::step;
