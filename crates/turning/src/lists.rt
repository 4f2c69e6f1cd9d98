// A worker's pending nodes and found keys: N places of the lent lists, and a count.
ghost use Rattle.std.specs.Prelude.{◌≡◌, ◌-◌, ◌≤◌, get_or};
ghost use Rattle.shapes.specs.Numbers.{most_n};
ghost use Rattle.tables.specs.Names.{node};
ghost use Rattle.tables.specs.World.{spot};
ghost use Rattle.steps.specs.Turn.{pending_left, found_left, pushed, added};

use shapes::{Key, NodeNo, PendingChange, Totals};

// Three numbers of 32 bits, so no sum wraps.
#[tactic(auto, using(tables::specs::Places::row_fits), unfolding(tables::specs::World::spot))]
pub fn spot(totals: Totals, w: u32, i: u32) -> usize
    ensures { result ≡ spot totals w i }
{
    w as usize * totals.n as usize + i as usize
}

// The node pushed last.
pub fn top(totals: Totals, pending: &[u32], w: u32, n: u32) -> NodeNo
    ensures { result ≡ node (get_or pending.now (spot totals w (n - 1)) 0) }
{
    NodeNo(fields::get(pending, spot(totals, w, n.saturating_sub(1)), 0))
}

#[tactic(auto, unfolding(steps::specs::Turn::pending_left))]
pub fn pending_left(n: u32, change: PendingChange) -> u32
    requires { n ≤ most_n }
    ensures { result ≡ pending_left n change }
{
    match change {
        PendingChange::Keep => n,
        PendingChange::Push(_) => n + 1,
        PendingChange::Pop => n.saturating_sub(1),
    }
}

#[tactic(auto, unfolding(steps::specs::Turn::found_left))]
pub fn found_left(n: u32, key: Option<Key>) -> u32
    requires { n ≤ most_n }
    ensures { result ≡ found_left n key }
{
    match key {
        None => n,
        Some(_) => n + 1,
    }
}

// Places behind a count keep their contents.
#[tactic(auto, unfolding(steps::specs::Turn::pushed))]
pub fn push(pending: &mut [u32], at: usize, change: PendingChange)
    ensures { pending.new ≡ pushed pending.old at change }
{
    match change {
        PendingChange::Push(x) => fields::put(pending, at, x.0),
        PendingChange::Keep | PendingChange::Pop => {}
    }
}

#[tactic(auto, unfolding(steps::specs::Turn::added))]
pub fn add(found: &mut [i32], at: usize, key: Option<Key>)
    ensures { found.new ≡ added found.old at key }
{
    match key {
        None => {}
        Some(k) => fields::put(found, at, fields::number_of(k)),
    }
}
