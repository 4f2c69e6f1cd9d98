// The clauses on nodes.
ghost use Rattle.std.specs.Prelude.{◌≡◌};
ghost use Rattle.laws.specs.Tests.{every};
ghost use Rattle.sound.specs.Sound.{root_ok, rank_ok, prev_ok, children_ok, node_ok};

use crate::numbers::{phase_ok, used_node, word_ok};
use fields::{child_at, is_internal, kind_at, phase_at, prev_at, rank_at, update_at};
use shapes::{NodeNo, Rank, Totals};
use tables::{INTERNAL, ROOT};

// Class 0 is a finite key, 1 is ∞1.
const INFINITY_2: u32 = 2;

// The Root as fresh, but for its children and update word.
#[tactic(auto, unfolding(sound::specs::Sound::root_ok, sound::specs::Sound::is_absent, laws::specs::Tests::all, laws::specs::Choice::pick))]
pub fn root_ok(ns: &[u32]) -> bool
    ensures { result ≡ root_ok ns.now }
{
    let root = ROOT;
    let key = rank_at(ns, root);
    let phase = phase_at(ns, root);
    (kind_at(ns, root) == INTERNAL)
        & (key.class == INFINITY_2)
        & (key.word == 0)
        & (phase.0 == 0)
        & prev_at(ns, root).is_none()
}

// A finite key, or an infinite one with no word beside it.
#[tactic(auto, unfolding(sound::specs::Sound::rank_ok))]
fn rank_ok(k: Rank) -> bool
    ensures { result ≡ rank_ok k }
{
    (k.class <= INFINITY_2) & ((k.class == 0) | (k.word == 0))
}

// Absent or a smaller number than the node's own.
#[tactic(auto, unfolding(sound::specs::Sound::prev_ok))]
fn prev_ok(n: u32, m: Option<NodeNo>) -> bool
    ensures { result ≡ prev_ok n m }
{
    m.is_none_or(|x| x.0 < n)
}

// An internal node has two children among the used nodes, a leaf has none.
#[tactic(auto, unfolding(sound::specs::Sound::children_ok, laws::specs::Choice::pick))]
fn children_ok(t: Totals, ns: &[u32], x: NodeNo) -> bool
    ensures { result ≡ children_ok t ns.now x }
{
    let left = child_at(ns, x, true);
    let right = child_at(ns, x, false);
    if is_internal(ns, x) {
        used_node(t, left) & used_node(t, right)
    } else {
        (left.0 == 0) & (right.0 == 0)
    }
}

// Joined by &, as the other tests in this file are: a branch after each made the look at full tables a fifth dearer.
#[tactic(auto, unfolding(sound::specs::Sound::node_ok, laws::specs::Tests::all, laws::specs::Choice::pick))]
fn node_ok(t: Totals, ns: &[u32], n: u32) -> bool
    ensures { result ≡ node_ok t ns.now n }
{
    let x = NodeNo(n);
    (kind_at(ns, x) <= INTERNAL)
        & rank_ok(rank_at(ns, x))
        & phase_ok(t, phase_at(ns, x))
        & prev_ok(n, prev_at(ns, x))
        & word_ok(t, update_at(ns, x))
        & children_ok(t, ns, x)
}

// Every used node, from the last.
pub fn nodes_ok(t: Totals, ns: &[u32]) -> bool
    ensures { result ≡ every t.nodes (node_ok t ns.now) }
{
    (0..t.nodes).rev().all(|n| node_ok(t, ns, n))
}
