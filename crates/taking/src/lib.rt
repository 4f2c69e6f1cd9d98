// Taking nodes and a record, together or not at all (lines 161 to 163, 185), and the child words of a copy.
#![tactic(auto)]

ghost use Rattle.std.specs.Prelude.{◌≡◌};
ghost use Rattle.steps.specs.Attempt.{room, take_three, take_copy, copy_word};

use hand::Shared;
use shapes::{
    Answer, Decision, Effect, Key, Link, LinkStep, Locals, NodeNo, Place, RecordNo, Totals,
};
use tables::{DELETE_TAKES, INSERT_TAKES};

// Totals may be any numbers, so the sums are made in 64 bits.
#[tactic(auto, unfolding(steps::specs::Attempt::room))]
fn room(totals: Totals, taken: u32) -> bool
    ensures { result ≡ room totals taken }
{
    let nodes = totals.nodes as u64 + taken as u64;
    let records = totals.records as u64 + 1;
    nodes <= totals.n as u64 && records <= totals.m as u64
}

// Lines 161 to 163: the internal node is the last of the three.
#[tactic(auto, unfolding(steps::specs::Attempt::take_three, steps::specs::Attempt::room, laws::specs::Choice::pick))]
pub fn take_three(totals: Totals, k: Key, v: Locals) -> Decision
    ensures { result ≡ take_three totals k v }
{
    if room(totals, INSERT_TAKES) {
        let internal = NodeNo(totals.nodes + 2);
        let taken = hand::with_taken(v, internal, RecordNo(totals.records));
        hand::decide_to(Effect::TakeThree(k, v.l, v.seq), taken, Place::Leaf164)
    } else {
        hand::say(Answer::NoRoom)
    }
}

// Line 185: the children of a copy are read next, if it has any.
#[tactic(auto, unfolding(steps::specs::Attempt::take_copy, laws::specs::Choice::pick))]
pub fn take_copy(t: Shared<'_>, v: Locals) -> Decision
    ensures { result ≡ take_copy t.entry.totals t.entry.nodes.now v }
{
    if room(t.totals, DELETE_TAKES) {
        let taken = hand::with_taken(v, NodeNo(t.totals.nodes), RecordNo(t.totals.records));
        let effect = Effect::TakeCopy(v.sibling, v.p, v.seq);
        if fields::is_internal(t.nodes, v.sibling) {
            hand::decide_to(effect, taken, Place::CopyLeft)
        } else {
            hand::decide_to(effect, taken, Place::Word189)
        }
    } else {
        hand::say(Answer::NoRoom)
    }
}

// A child word of an internal sibling into the copy: left first, then right.
#[tactic(auto, unfolding(steps::specs::Attempt::copy_word, steps::specs::Hand::through, laws::specs::Choice::pick))]
pub fn copy_word(nodes: &[u32], v: Locals, left: bool) -> Decision
    ensures { result ≡ copy_word nodes.now v left }
{
    let sibling = fields::as_parent(nodes, Some(v.sibling))?;
    let copy = fields::as_parent(nodes, Some(v.made))?;
    let effect = Effect::CopyChild(copy, left, fields::child_at(nodes, sibling, left));
    if left {
        hand::decide_to(effect, v, Place::CopyRight)
    } else {
        hand::decide_to(effect, v, Place::Link(Link::Left187, LinkStep::Word52))
    }
}
