// The code that tells a sound row of the tables from a spoiled one.
#![tactic(auto)]

mod numbers; // numbers that refer to used ones
mod node_rows; // a node, all nodes, the Root
mod record_rows; // a record, all records, the dummy

pub use node_rows::{nodes_ok, root_ok};
pub use numbers::{phase_ok, used_maybe, used_node, used_ok, used_record, word_ok};
pub use record_rows::{dummy_ok, records_ok};
