// CAS-CHILD and what follows it: lines 84 to 87, 123 and 125.
ghost use Rattle.std.specs.Prelude.{◌≡◌};
ghost use Rattle.tables.specs.Records.{par_at, old_child_at, new_child_at};
ghost use Rattle.steps.specs.Help.{cas_child, state125};

use crate::freezing::reads;
use hand::Shared;
use shapes::{Effect, HelpMove, HelpStep, NodeNo, RecordNo};
use tables::TRY;

// Lines 84 to 87: new's side of the parent, if old stands there.
#[tactic(auto, unfolding(steps::specs::Help::cas_child, tables::specs::Names::same_node, laws::specs::Choice::pick))]
fn cas_child(nodes: &[u32], parent: NodeNo, old: NodeNo, new: NodeNo) -> Effect
    ensures { result ≡ cas_child nodes.now parent old new }
{
    let left = fields::key_at(nodes, new) < fields::key_at(nodes, parent);
    let child = fields::child_at(nodes, parent, left);
    if child == old {
        Effect::Link(parent, left, new)
    } else {
        Effect::Nothing
    }
}

// Line 123: CAS-CHILD of what the record says.
pub fn child123(t: Shared<'_>, r: RecordNo) -> Effect
    ensures { result ≡ cas_child t.entry.nodes.now (par_at t.entry.records.now r) (old_child_at t.entry.records.now r) (new_child_at t.entry.records.now r) }
{
    let par = fields::par_at(t.records, r);
    let old = fields::old_child_at(t.records, r);
    let new = fields::new_child_at(t.records, r);
    cas_child(t.nodes, par, old, new)
}

// Line 125.
#[tactic(auto, unfolding(steps::specs::Help::state125, laws::specs::Choice::pick))]
pub fn state125(records: &[u32], r: RecordNo) -> Option<HelpMove>
    ensures { result ≡ state125 records.now r }
{
    if fields::state_at(records, r) == TRY {
        reads(HelpStep::Abort126)
    } else {
        reads(HelpStep::State127)
    }
}
