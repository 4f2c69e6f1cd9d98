// A worker's counts, and the nodes that it has pending.
ghost use Rattle.std.specs.Prelude.{◌≡◌, List, ℕ, get_or, ℤ};
ghost use Rattle.laws.specs.Tests.{every};
ghost use Rattle.tables.specs.Names.{node};
ghost use Rattle.tables.specs.World.{world, spot};
ghost use Rattle.sound.specs.Sound.{used_node, lists_ok};

use boards::worker_of;
use fields::get;
use rows::used_node;
use shapes::{Board, NodeNo, Totals};

// Pending node i of worker w, in the list that holds N for each worker.
#[tactic(auto, unfolding(tables::specs::World::spot))]
fn pending_node_ok(t: Totals, pending: &[u32], w: u32, i: u32) -> bool
    ensures { result ≡ used_node t (node (get_or pending.now (spot t w i) 0)) }
{
    let x = get(pending, w as usize * t.n as usize + i as usize, 0);
    used_node(t, NodeNo(x))
}

// The nodes that worker w has pending, from the last.
fn pending_ok(t: Totals, pending: &[u32], w: u32, count: u32) -> bool
    ensures { result ≡ every count (λ i. used_node t (node (get_or pending.now (spot t w i) 0))) }
{
    (0..count).rev().all(|i| pending_node_ok(t, pending, w, i))
}

// Pending and found counts are at most N, and pending nodes are used; they are looked at only if there are few.
#[tactic(auto, unfolding(sound::specs::Sound::lists_ok, tables::specs::World::worker_at, tables::specs::World::pending_at, laws::specs::Tests::all, laws::specs::Choice::pick))]
pub fn lists_ok(board: Board, pending: &[u32], w: u32) -> bool
    ensures { (ns rs : List ℕ) (fs : List ℤ) → result ≡ lists_ok (world board ns rs pending.now fs) w }
{
    let t = board.totals;
    let k = worker_of(board, w);
    k.pending <= t.n && k.found <= t.n && pending_ok(t, pending, w, k.pending)
}
