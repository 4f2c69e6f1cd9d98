// SCANHELPER: what the node that is come to asks for.
ghost use Rattle.std.specs.Prelude.{◌≡◌};
ghost use Rattle.steps.specs.Scan.{within, leaves, comes_to, reads};
ghost use Rattle.hand.specs.Looks.{range_of};
ghost use Rattle.sweep.specs.Parts.{sweeps_on};

use fields::{blank, is_internal, key_at, rank_at, read_child};
use hand::{Range, Shared, at_node, at_root};
use shapes::{Answer, Decision, Effect, Key, Locals, Next, NodeNo, PendingChange, Place, Step};

// A call of SCANHELPER: its range, and the scan's lists as the change will leave them.
#[derive(Clone, Copy)]
pub struct Visit {
    pub range: Range,
    pub change: PendingChange,
    pub pending: u32,
    pub keys: u32,
}

// Line 137: an infinite key is above every high.
#[tactic(auto, unfolding(steps::specs::Scan::within))]
fn within(nodes: &[u32], range: Range, c: NodeNo) -> bool
    ensures { result ≡ within nodes.now (range_of range) c }
{
    let key = key_at(nodes, c);
    range.low.0 as u64 <= key && key <= range.high.0 as u64
}

// A turn that touches nothing but the scan's own lists.
fn sweep_on(visit: Visit, hand: Locals, found: Option<Key>, next: Next) -> Decision
    ensures { result ≡ sweeps_on visit.change hand found next }
{
    Some(Step {
        effect: Effect::Nothing,
        hand,
        pending: visit.change,
        found,
        next,
    })
}

// Done with a leaf: on with a left child, or the answer.
#[tactic(auto, unfolding(steps::specs::Scan::leaves, laws::specs::Choice::pick))]
fn leaves(visit: Visit, found: Option<Key>, keys: u32) -> Decision
    ensures { result ≡ leaves (range_of visit.range) visit.change found visit.pending keys }
{
    if visit.pending == 0 {
        return sweep_on(visit, blank(), found, Next::Answers(Answer::Keys(keys)));
    }
    sweep_on(
        visit,
        at_root(visit.range.seq),
        found,
        Next::At(Place::Left144),
    )
}

// An internal node is gone into, a leaf's key found or passed by.
#[tactic(auto, unfolding(steps::specs::Scan::comes_to, laws::specs::Choice::pick))]
fn comes_to(t: Shared<'_>, visit: Visit, c: NodeNo) -> Decision
    ensures { result ≡ comes_to t.entry.totals t.entry.nodes.now (range_of visit.range) visit.keys visit.change visit.pending c }
{
    if is_internal(t.nodes, c) {
        let hand = at_node(visit.range.seq, c);
        return sweep_on(visit, hand, None, Next::At(Place::Word139));
    }
    if !within(t.nodes, visit.range, c) {
        return leaves(visit, None, visit.keys);
    }
    if t.totals.n <= visit.keys {
        return None;
    }
    let key = Key(rank_at(t.nodes, c).word);
    leaves(visit, Some(key), visit.keys + 1)
}

// READCHILD of x, then SCANHELPER.
#[tactic(auto, unfolding(steps::specs::Scan::reads, steps::specs::Hand::through))]
pub fn reads(t: Shared<'_>, visit: Visit, x: NodeNo, left: bool) -> Decision
    ensures { result ≡ reads t.entry.totals t.entry.nodes.now (range_of visit.range) visit.keys visit.change visit.pending x left }
{
    let c = read_child(t.totals.nodes, t.nodes, x, left, visit.range.seq)?;
    comes_to(t, visit, c)
}
