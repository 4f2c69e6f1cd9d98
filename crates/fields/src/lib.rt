// The code of the tables, total on any list: READCHILD, keys, sizes; fields from words, nodes and records are handed on.
#![tactic(auto)]

mod keys; // keys as numbers, and back
mod versions; // READCHILD
mod workers; // a worker that holds no operation
mod sizes; // sizes in range, tables long enough

pub use keys::{key_of, number_of};
pub use nodes::{
    child_at, is_internal, key_at, key_value, kind_at, phase_at, prev_at, rank_at, same_update,
    set_child, set_update, update_at,
};
pub use records::{
    count_at, entry_at, fillable, helpable, in_progress, new_child_at, old_child_at, par_at,
    seq_at, set_state, state_at, unfilled,
};
pub use sizes::{between, lent_ok, sizes_ok};
pub use versions::{as_parent, read_child};
pub use words::{get, new_node, new_record, put};
pub use workers::{blank, idle};
