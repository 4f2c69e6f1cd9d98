// The code that tells sound tables from spoiled ones.
#![tactic(auto)]

ghost use Rattle.std.specs.Prelude.{◌≡◌};
ghost use Rattle.lending.specs.Lent.{shown_world};
ghost use Rattle.sound.specs.Sound.{sound_of};

use crew::workers_ok;
use fields::{lent_ok, sizes_ok};
use lending::{Shown, Sizes};
use rows::{dummy_ok, nodes_ok, records_ok, root_ok, used_ok};
use shapes::Board;

// 01, 'Sound means'. The rows are looked at only if the totals are in range, so that there are few.
#[tactic(auto, unfolding(sound::specs::Sound::sound_of, laws::specs::Tests::all, laws::specs::Choice::pick))]
pub fn is_sound(board: Board, shown: Shown<'_>) -> bool
    ensures { result ≡ sound_of (shown_world board shown.entry) }
{
    let t = board.totals;
    let nodes = shown.nodes;
    let records = shown.records;
    let sizes = Sizes {
        n: t.n,
        m: t.m,
        p: t.p,
    };
    sizes_ok(sizes)
        && lent_ok(sizes, shown)
        && used_ok(t)
        && root_ok(nodes)
        && dummy_ok(records)
        && nodes_ok(t, nodes)
        && records_ok(t, nodes, records)
        && workers_ok(board, records, shown.pending)
}
