// The totals: what is used, and Counter.
ghost use Rattle.std.specs.Prelude.{◌≡◌, ◌≤◌};
ghost use Rattle.steps.specs.Apply.{bumped, taken};
ghost use Rattle.effects.specs.Sizes.{WithinSizes, within};

use shapes::Totals;
use tables::{LAST_PHASE, MOST_NODES, MOST_RECORDS};

// Small enough that no sum below wraps.
#[tactic(auto, unfolding(crate::specs::Sizes::within, laws::specs::Tests::all, laws::specs::Choice::pick))]
pub fn within(t: Totals) -> bool
    ensures { result ≡ within t }
{
    t.nodes <= MOST_NODES && t.records <= MOST_RECORDS && t.counter <= LAST_PHASE
}

#[tactic(auto, unfolding(steps::specs::Apply::bumped))]
pub fn bumped(t: Totals) -> Totals
    requires { WithinSizes t }
    ensures { result ≡ bumped t }
{
    Totals {
        counter: t.counter + 1,
        ..t
    }
}

// So many nodes more and a record more are used.
#[tactic(auto, unfolding(steps::specs::Apply::taken))]
pub fn taken(t: Totals, nodes: u32) -> Totals
    requires within_sizes { WithinSizes t }
    requires nodes_bound { nodes ≤ 3 }
    ensures { result ≡ taken t nodes }
{
    Totals {
        nodes: t.nodes + nodes,
        records: t.records + 1,
        ..t
    }
}
