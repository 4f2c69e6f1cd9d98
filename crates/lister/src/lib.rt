// The code of the version listing: a walk down from the Root, first to see that it is not crooked, then into the lent list.
#![tactic(auto)]

mod walk; // the walk, by levels

ghost use Rattle.std.specs.Prelude.{◌≡◌};
ghost use Rattle.lending.specs.Lent.{shown_world};
ghost use Rattle.listing.specs.Listing.{list_of};
ghost use Rattle.lister.specs.Lists.{left};

use crate::walk::{Reached, walk};
use checking::is_sound;
use lending::Shown;
use shapes::{Board, Phase, Refusal};
use tables::ROOT;

// 01, 'Version listing'. The first walk writes nothing: its list has no places.
#[tactic(auto, using(crate::proofs::Whole::not_sound, crate::proofs::Whole::too_short, crate::proofs::Whole::few_nodes, crate::proofs::Whole::refused_crooked), unfolding(crate::specs::Lists::left, crate::specs::Lists::standing))]
pub fn list(board: Board, i: Phase, shown: Shown<'_>, keys: &mut [i32]) -> Result<usize, Refusal>
    ensures { left result keys.new ≡ list_of (shown_world board shown.entry) i keys.old }
{
    if !is_sound(board, shown) {
        return Err(Refusal::Table);
    }
    let t = board.totals;
    if keys.len() < t.n as usize {
        return Err(Refusal::Table);
    }
    let used = t.nodes;
    let start = Reached {
        leaves: used,
        at: 0,
    };
    let end = walk(used, used, shown.nodes, i, ROOT, start, &mut []).ok_or(Refusal::Crooked)?;
    walk(used, used, shown.nodes, i, ROOT, start, keys);
    Ok(end.at)
}
