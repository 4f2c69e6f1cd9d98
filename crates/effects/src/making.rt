// Nodes and records as they are taken.
ghost use Rattle.std.specs.Prelude.{◌≡◌, ◌≤◌};
ghost use Rattle.shapes.specs.Numbers.{most_n};
ghost use Rattle.tables.specs.Names.{finite};
ghost use Rattle.steps.specs.Apply.{top_of, three_nodes, copy_of, taken_record};

use fields::{key_value, kind_at, new_node, new_record, rank_at, unfilled};
use shapes::{Key, NodeNo, Phase, Rank, RecordNo};
use tables::{ABORT, INTERNAL, LEAF};

fn finite(k: Key) -> Rank
    ensures { result ≡ finite k }
{
    Rank {
        class: 0,
        word: k.0,
    }
}

// Line 163: the larger key at the top, the smaller one on the left.
#[tactic(auto, unfolding(steps::specs::Apply::top_of, laws::specs::Choice::pick))]
fn top_of(
    nodes: &mut [u32],
    new: NodeNo,
    sibling: NodeNo,
    x: NodeNo,
    k: Key,
    b: Rank,
    q: Phase,
    l: NodeNo,
)
    ensures { nodes.new ≡ top_of nodes.old new sibling x k b q l }
{
    let prev = Some(l);
    if (k.0 as u64) < key_value(b) {
        new_node(nodes, x, INTERNAL, b, q, prev, new, sibling);
    } else {
        new_node(nodes, x, INTERNAL, finite(k), q, prev, sibling, new);
    }
}

// Lines 161 to 163; l's key is read before any row is written.
#[tactic(auto, unfolding(steps::specs::Apply::three_nodes))]
pub fn three_nodes(nodes: &mut [u32], u: u32, k: Key, l: NodeNo, q: Phase)
    requires { u ≤ most_n }
    ensures { nodes.new ≡ three_nodes nodes.old u k l q }
{
    let none = NodeNo(0);
    let new = NodeNo(u);
    let sibling = NodeNo(u + 1);
    let a = finite(k);
    let b = rank_at(nodes, l);
    new_node(nodes, new, LEAF, a, q, None, none, none);
    new_node(nodes, sibling, LEAF, b, q, None, none, none);
    top_of(nodes, new, sibling, NodeNo(u + 2), k, b, q, l);
}

// Line 185: the sibling's kind and key, prev p.
#[tactic(auto, unfolding(steps::specs::Apply::copy_of))]
pub fn copy_of(nodes: &mut [u32], u: u32, sibling: NodeNo, p: NodeNo, q: Phase)
    ensures { nodes.new ≡ copy_of nodes.old u sibling p q }
{
    let kind = kind_at(nodes, sibling);
    let b = rank_at(nodes, sibling);
    let none = NodeNo(0);
    new_node(nodes, NodeNo(u), kind, b, q, Some(p), none, none);
}

#[tactic(auto, unfolding(steps::specs::Apply::taken_record))]
pub fn taken_record(records: &mut [u32], u: u32)
    ensures { records.new ≡ taken_record records.old u }
{
    new_record(records, RecordNo(u), ABORT, unfilled());
}
