// A version's leaves from left to right, by levels: keys go into the list as they are met.
ghost use Rattle.std.specs.Prelude.{◌≡◌, ◌+◌, ◌≤◌};
ghost use Rattle.shapes.specs.Numbers.{most_n};
ghost use Rattle.listing.specs.Listing.{at_leaf, walk};
ghost use Rattle.lister.specs.Lists.{standing, into};

use fields::{is_internal, number_of, put, rank_at, read_child};
use shapes::{Key, NodeNo, Phase};

// How many leaves may still be met, and the place of the next key.
#[derive(Clone, Copy)]
pub struct Reached {
    pub leaves: u32,
    pub at: usize,
}

// Only a finite key is listed; an infinite one is a leaf met all the same.
#[tactic(auto, using(crate::proofs::Levels::leaf_finite, crate::proofs::Levels::leaf_infinite, crate::proofs::Levels::no_leaf), unfolding(crate::specs::Lists::standing))]
fn at_leaf(nodes: &[u32], x: NodeNo, from: Reached, keys: &mut [i32]) -> Option<Reached>
    requires { from.at + from.leaves ≤ most_n }
    ensures { standing result keys.new ≡ into keys.old from.at (at_leaf nodes.now x from.leaves) }
{
    let leaves = from.leaves.checked_sub(1)?;
    let k = rank_at(nodes, x);
    if k.class == 0 {
        put(keys, from.at, number_of(Key(k.word)));
        return Some(Reached {
            leaves,
            at: from.at + 1,
        });
    }
    Some(Reached { leaves, ..from })
}

// The levels that may still be gone down fall at each call. None where the version is crooked: what such a walk wrote is nobody's, so
// it is tried on no places first.
#[tactic(auto, using(crate::proofs::Levels::meets_leaf, crate::proofs::Levels::too_deep, crate::proofs::Levels::left_lost, crate::proofs::Levels::right_lost, crate::proofs::Levels::fits_still), unfolding(crate::specs::Lists::standing, crate::specs::Lists::into))]
pub fn walk(
    levels: u32,
    used: u32,
    nodes: &[u32],
    i: Phase,
    x: NodeNo,
    from: Reached,
    keys: &mut [i32],
) -> Option<Reached>
    requires { from.at + from.leaves ≤ most_n }
    ensures { standing result keys.new ≡ into keys.old from.at (walk levels used nodes.now i x from.leaves) }
{
    if !is_internal(nodes, x) {
        return at_leaf(nodes, x, from, keys);
    }
    let below = levels.checked_sub(1)?;
    let a = read_child(used, nodes, x, true, i)?;
    let b = read_child(used, nodes, x, false, i)?;
    let next = walk(below, used, nodes, i, a, from, keys)?;
    walk(below, used, nodes, i, b, next, keys)
}
