// SEARCH (lines 32 to 42).
ghost use Rattle.std.specs.Prelude.{◌≡◌};
ghost use Rattle.steps.specs.Search.{goes_left, landed, search39};

use hand::Shared;
use shapes::{Decision, Key, Link, LinkStep, Locals, NodeNo, Place};

// An infinite key is wider than a word, so keys are compared in 64 bits.
#[tactic(auto, unfolding(steps::specs::Search::goes_left))]
pub fn goes_left(nodes: &[u32], k: Key, x: NodeNo) -> bool
    ensures { result ≡ goes_left nodes.now k x }
{
    let key = fields::key_at(nodes, x);
    (k.0 as u64) < key
}

// Line 36: on with an internal node, or out with a leaf.
#[tactic(auto, unfolding(steps::specs::Search::landed, laws::specs::Choice::pick))]
fn landed(nodes: &[u32], v: Locals, c: NodeNo) -> Decision
    ensures { result ≡ landed nodes.now v c }
{
    if fields::is_internal(nodes, c) {
        hand::go_to(hand::down_to(v, c), Place::Search39)
    } else {
        hand::go_to(
            hand::with_leaf(v, c),
            Place::Link(Link::Leaf64, LinkStep::Word52),
        )
    }
}

#[tactic(auto, unfolding(steps::specs::Search::search39, steps::specs::Hand::through))]
pub fn search39(t: Shared<'_>, k: Key, v: Locals) -> Decision
    ensures { result ≡ search39 t.entry.totals t.entry.nodes.now k v }
{
    let p = fields::as_parent(t.nodes, Some(v.p))?;
    let left = goes_left(t.nodes, k, p);
    let c = fields::read_child(t.totals.nodes, t.nodes, p, left, v.seq)?;
    landed(t.nodes, v, c)
}
