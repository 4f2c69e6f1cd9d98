// VALIDATELINK (lines 49 to 59), once for its five calls.
ghost use Rattle.std.specs.Prelude.{◌≡◌};
ghost use Rattle.steps.specs.Validate.{word52, state53, child57, link_of, link_parent, copy_child, link_child, sibling_left, parent_left, link_left};

use crate::search::goes_left;
use hand::Shared;
use shapes::{Key, Link, LinkMove, LinkStep, Locals, NodeNo, Update};

#[tactic(auto, unfolding(steps::specs::Validate::word52))]
fn word52(nodes: &[u32], parent: Option<NodeNo>) -> Option<LinkMove>
    ensures { result ≡ word52 nodes.now parent }
{
    let word = fields::update_at(nodes, parent?);
    Some(LinkMove::Goes(LinkStep::State53, word))
}

#[tactic(auto, unfolding(steps::specs::Validate::state53, laws::specs::Choice::pick))]
fn state53(records: &[u32], up: Update) -> Option<LinkMove>
    ensures { result ≡ state53 records.now up }
{
    if hand::is_frozen(records, up) {
        Some(LinkMove::Helps(up.info))
    } else {
        Some(LinkMove::Goes(LinkStep::Child57, up))
    }
}

#[tactic(auto, unfolding(steps::specs::Validate::child57, tables::specs::Names::same_node, laws::specs::Choice::pick))]
fn child57(
    nodes: &[u32],
    parent: Option<NodeNo>,
    child: Option<NodeNo>,
    left: bool,
) -> Option<LinkMove>
    ensures { result ≡ child57 nodes.now parent child left }
{
    let x = parent?;
    let c = child?;
    let newest = fields::child_at(nodes, x, left);
    if newest == c {
        Some(LinkMove::Holds)
    } else {
        Some(LinkMove::Fails)
    }
}

// Stays: (d) the cases are those of an enum: a function for each would be a table in place of this match.
#[tactic(auto, unfolding(steps::specs::Validate::link_of))]
pub fn link_of(
    t: Shared<'_>,
    parent: Option<NodeNo>,
    child: Option<NodeNo>,
    left: bool,
    up: Update,
    step: LinkStep,
) -> Option<LinkMove>
    ensures { result ≡ link_of t.entry.nodes.now t.entry.records.now parent child left up step }
{
    match step {
        LinkStep::Word52 => word52(t.nodes, parent),
        LinkStep::State53 => state53(t.records, up),
        LinkStep::Child57 => child57(t.nodes, parent, child, left),
    }
}

// ---- the arguments of the five calls

#[tactic(auto, unfolding(steps::specs::Validate::link_parent))]
pub fn link_parent(v: Locals, a: Link) -> Option<NodeNo>
    ensures { result ≡ link_parent v a }
{
    match a {
        Link::Leaf64 | Link::Sibling183 => Some(v.p),
        Link::Parent65 => v.gp,
        Link::Left187 | Link::Right188 => Some(v.sibling),
    }
}

#[tactic(auto, unfolding(steps::specs::Validate::copy_child))]
fn copy_child(nodes: &[u32], copy: Option<NodeNo>, left: bool) -> Option<NodeNo>
    ensures { result ≡ copy_child nodes.now copy left }
{
    copy.map(|x| fields::child_at(nodes, x, left))
}

#[tactic(auto, unfolding(steps::specs::Validate::link_child))]
pub fn link_child(nodes: &[u32], v: Locals, a: Link) -> Option<NodeNo>
    ensures { result ≡ link_child nodes.now v a }
{
    match a {
        Link::Leaf64 => Some(v.l),
        Link::Parent65 => Some(v.p),
        Link::Sibling183 => Some(v.sibling),
        Link::Left187 => copy_child(nodes, fields::as_parent(nodes, Some(v.made)), true),
        Link::Right188 => copy_child(nodes, fields::as_parent(nodes, Some(v.made)), false),
    }
}

// Lines 182 and 183: the sibling stands on the side where l does not.
#[tactic(auto, unfolding(steps::specs::Validate::sibling_left))]
pub fn sibling_left(nodes: &[u32], v: Locals) -> bool
    ensures { result ≡ sibling_left nodes.now v }
{
    fields::key_at(nodes, v.p) <= fields::key_at(nodes, v.l)
}

#[tactic(auto, unfolding(steps::specs::Validate::parent_left))]
fn parent_left(nodes: &[u32], k: Key, parent: Option<NodeNo>) -> bool
    ensures { result ≡ parent_left nodes.now k parent }
{
    parent.is_some_and(|x| goes_left(nodes, k, x))
}

// Stays: (d) the cases are those of an enum: a function for each would be a table in place of this match.
#[tactic(auto, unfolding(steps::specs::Validate::link_left))]
pub fn link_left(nodes: &[u32], k: Key, v: Locals, a: Link) -> bool
    ensures { result ≡ link_left nodes.now k v a }
{
    match a {
        Link::Leaf64 => goes_left(nodes, k, v.p),
        Link::Parent65 => parent_left(nodes, k, v.gp),
        Link::Sibling183 => sibling_left(nodes, v),
        Link::Left187 => true,
        Link::Right188 => false,
    }
}
