// What a worker takes into its hand, and the decisions that leave its lists alone.
#![tactic(auto)]

mod looks; // what a turn looks at
mod making; // hands made anew
mod taking; // one thing more taken into a hand
mod decisions; // what a turn can decide where it leaves the lists alone

ghost use Rattle.std.specs.Prelude.{◌≡◌};
ghost use Rattle.steps.specs.Execute.{frozen};

pub use decisions::{decide_to, go_to, help_then_retry, retry, say};
pub use looks::{Lists, Range, Shared};
pub use making::{at_node, at_root, at_word, fresh_word, holding_record};
use shapes::Update;
use tables::{ABORT, FLAG};
pub use taking::{
    down_to, with_gpup, with_i, with_leaf, with_lup, with_pup, with_sibling, with_sup, with_taken,
    with_up,
};

// Lines 90 and 91: a FLAG in progress, or a MARK that is not aborted.
#[tactic(auto, unfolding(steps::specs::Execute::frozen, laws::specs::Choice::pick))]
pub fn is_frozen(rs: &[u32], u: Update) -> bool
    ensures { result ≡ frozen rs.now u }
{
    let state = fields::state_at(rs, u.info);
    if u.mark == FLAG {
        return fields::in_progress(state);
    }
    state < ABORT
}
