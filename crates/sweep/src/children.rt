// Lines 141 to 144: which children are gone to.
ghost use Rattle.std.specs.Prelude.{◌≡◌, ◌-◌};
ghost use Rattle.steps.specs.Scan.{child141, left144};
ghost use Rattle.hand.specs.Looks.{range_of, lists_of};

use crate::visits::{Visit, reads};
use fields::{as_parent, key_at};
use hand::{Lists, Range, Shared};
use shapes::{Decision, Locals, PendingChange};

const LEFT: bool = true;

const RIGHT: bool = false;

// Lines 141 to 143: right alone, left alone, or right with left to follow.
#[tactic(auto, unfolding(steps::specs::Scan::child141, steps::specs::Hand::through, laws::specs::Choice::pick))]
pub fn child141(t: Shared<'_>, range: Range, lists: Lists, v: Locals) -> Decision
    ensures { result ≡ child141 t.entry.totals t.entry.nodes.now (range_of range) (lists_of lists) v }
{
    let x = as_parent(t.nodes, Some(v.p))?;
    let key = key_at(t.nodes, x);
    let alone = Visit {
        range,
        change: PendingChange::Keep,
        pending: lists.pending,
        keys: lists.found,
    };
    if key < range.low.0 as u64 {
        return reads(t, alone, x, RIGHT);
    }
    if (range.high.0 as u64) < key {
        return reads(t, alone, x, LEFT);
    }
    if t.totals.n <= lists.pending {
        return None;
    }
    let both = Visit {
        range,
        change: PendingChange::Push(x),
        pending: lists.pending + 1,
        keys: lists.found,
    };
    reads(t, both, x, RIGHT)
}

// Line 144: the left child of the node pushed last.
#[tactic(auto, unfolding(steps::specs::Scan::left144, steps::specs::Hand::through))]
pub fn left144(t: Shared<'_>, range: Range, lists: Lists) -> Decision
    ensures { result ≡ left144 t.entry.totals t.entry.nodes.now (range_of range) (lists_of lists) }
{
    let x = as_parent(t.nodes, Some(lists.top))?;
    let visit = Visit {
        range,
        change: PendingChange::Pop,
        pending: lists.pending.saturating_sub(1),
        keys: lists.found,
    };
    reads(t, visit, x, LEFT)
}
