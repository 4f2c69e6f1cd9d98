// What an effect does to the tables: the only code that writes shared words.
#![tactic(auto)]

mod totals; // what is used, and Counter
mod making; // nodes and records as they are taken

ghost use Rattle.std.specs.Prelude.{◌≡◌};
ghost use Rattle.tables.specs.World.{tables};
ghost use Rattle.steps.specs.Apply.{apply};
ghost use Rattle.effects.specs.Sizes.{WithinSizes, apply_within};

use crate::making::{copy_of, taken_record, three_nodes};
use crate::totals::{bumped, taken};
use fields::{new_record, set_child, set_state, set_update};
use shapes::{Effect, Totals};
use tables::{DELETE_TAKES, INSERT_TAKES, UNDECIDED};
pub use totals::within;

// Stays: (d) the cases are those of an enum: a function for each would be a table in place of this match.
#[tactic(auto, unfolding(steps::specs::Apply::apply))]
fn carried_out(e: Effect, totals: Totals, nodes: &mut [u32], records: &mut [u32]) -> Totals
    requires { WithinSizes totals }
    ensures { tables result nodes.new records.new ≡ apply e (tables totals nodes.old records.old) }
{
    match e {
        Effect::Nothing => totals,
        Effect::Bump => bumped(totals),
        Effect::TakeThree(k, l, q) => {
            three_nodes(nodes, totals.nodes, k, l, q);
            taken_record(records, totals.records);
            taken(totals, INSERT_TAKES)
        }
        Effect::TakeCopy(sibling, p, q) => {
            copy_of(nodes, totals.nodes, sibling, p, q);
            taken_record(records, totals.records);
            taken(totals, DELETE_TAKES)
        }
        Effect::CopyChild(x, left, c) | Effect::Link(x, left, c) => {
            set_child(nodes, x, left, c);
            totals
        }
        Effect::Fill(r, f) => {
            new_record(records, r, UNDECIDED, f);
            totals
        }
        Effect::Freeze(x, u) => {
            set_update(nodes, x, u);
            totals
        }
        Effect::SetState(r, state) => {
            set_state(records, r, state);
            totals
        }
    }
}

// Stays: (d) it writes nodes and records and answers totals: what goes in and what comes out are not one value.
// Totals beyond the sizes are never those of sound tables; nothing is written for them.
pub fn apply(e: Effect, totals: Totals, nodes: &mut [u32], records: &mut [u32]) -> Totals
    ensures { tables result nodes.new records.new ≡ apply_within e (tables totals nodes.old records.old) }
{
    if !within(totals) {
        return totals;
    }
    carried_out(e, totals, nodes, records)
}
