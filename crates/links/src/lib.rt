// The links that an attempt validates: what follows a turn inside VALIDATELINK, and DELETE's sibling (line 182).
#![tactic(auto)]

ghost use Rattle.std.specs.Prelude.{◌≡◌};
ghost use Rattle.steps.specs.Attempt.{held, link_next, link_step, sibling182};
ghost use Rattle.hand.specs.Looks.{shared_of};

use hand::Shared;
use shapes::{Decision, Key, Link, LinkMove, LinkStep, Locals, Place};
use tables::ROOT;

// A link that holds: lines 65 and 66, 184, 188 and 190.
#[tactic(auto, unfolding(steps::specs::Attempt::held, tables::specs::Names::same_node, laws::specs::Choice::pick))]
fn held(t: Shared<'_>, v: Locals, a: Link) -> Decision
    ensures { result ≡ held t.entry.totals t.entry.nodes.now v a }
{
    match a {
        Link::Leaf64 => {
            let next = hand::with_pup(v, v.up);
            if v.p == ROOT {
                hand::go_to(next, Place::Word66)
            } else {
                hand::go_to(next, Place::Link(Link::Parent65, LinkStep::Word52))
            }
        }
        Link::Parent65 => hand::go_to(hand::with_gpup(v, v.up), Place::Word66),
        Link::Sibling183 => taking::take_copy(t, v),
        Link::Left187 => hand::go_to(
            hand::with_sup(v, v.up),
            Place::Link(Link::Right188, LinkStep::Word52),
        ),
        Link::Right188 => hand::go_to(v, Place::Leaf190),
    }
}

// Stays: (d) the cases are those of an enum: a function for each would be a table in place of this match.
#[tactic(auto, unfolding(steps::specs::Attempt::link_next))]
fn link_next(t: Shared<'_>, v: Locals, a: Link, m: Option<LinkMove>) -> Decision
    ensures { result ≡ link_next t.entry.totals t.entry.nodes.now v a m }
{
    match m? {
        LinkMove::Goes(s, u) => hand::go_to(hand::with_up(v, u), Place::Link(a, s)),
        LinkMove::Helps(r) => hand::help_then_retry(r),
        LinkMove::Fails => hand::retry(),
        LinkMove::Holds => held(t, v, a),
    }
}

#[tactic(auto, unfolding(steps::specs::Attempt::link_step))]
pub fn link_step(t: Shared<'_>, k: Key, v: Locals, a: Link, b: LinkStep) -> Decision
    ensures { result ≡ link_step (shared_of t.entry) k v a b }
{
    let parent = fields::as_parent(t.nodes, seek::link_parent(v, a));
    let child = seek::link_child(t.nodes, v, a);
    let left = seek::link_left(t.nodes, k, v, a);
    let came = seek::link_of(t, parent, child, left, v.up, b);
    link_next(t, v, a, came)
}

#[tactic(auto, unfolding(steps::specs::Attempt::sibling182, steps::specs::Hand::through))]
pub fn sibling182(t: Shared<'_>, v: Locals) -> Decision
    ensures { result ≡ sibling182 t.entry.totals t.entry.nodes.now v }
{
    let p = fields::as_parent(t.nodes, Some(v.p))?;
    let left = seek::sibling_left(t.nodes, v);
    let c = fields::read_child(t.totals.nodes, t.nodes, p, left, v.seq)?;
    hand::go_to(
        hand::with_sibling(v, c),
        Place::Link(Link::Sibling183, LinkStep::Word52),
    )
}
