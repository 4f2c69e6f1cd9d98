// 01, 'Fresh tables'.
#![tactic(auto)]

mod clearing; // the first places of a list 0
mod making; // each table fresh

ghost use Rattle.std.specs.Prelude.{◌≡◌, ◌&&◌, ◌*◌, ◌≤◌, length, pos};
ghost use Rattle.lending.specs.Lent.{lent_world, lent_left, shown_world, SameLists};
ghost use Rattle.tables.specs.Fresh.{sizes_ok, lent_ok, cleared, fresh_nodes, fresh_records, fresh_of};

use crate::clearing::clear;
use crate::making::{fresh_board, fresh_nodes, fresh_records};
use fields::{lent_ok, sizes_ok};
use lending::{Lent, Shown, Sizes};
use shapes::{Board, Refusal, Reply};

// The sizes and the lent tables are as 01 asks, whatever the board.
fn asked_ok(sizes: Sizes, shown: Shown<'_>) -> bool
    ensures { (b : Board) → result ≡ sizes_ok sizes.n sizes.m sizes.p && lent_ok sizes.n sizes.m sizes.p (shown_world b shown.entry) }
{
    sizes_ok(sizes) && lent_ok(sizes, shown)
}

fn fresh_lists(sizes: Sizes, lent: &mut Lent<'_>)
    requires n_in_bounds { sizes.n * 10 ≤ length lent.old.nodes.now }
    requires m_in_bounds { sizes.m * 22 ≤ length lent.old.records.now }
    requires n_in_bounds_2 { sizes.p * sizes.n ≤ length lent.old.pending.now }
    requires n_in_bounds_3 { sizes.p * sizes.n ≤ length lent.old.found.now }
    ensures same_lists { SameLists lent.new lent.old }
    ensures nodes_after { lent.new.nodes.now ≡ fresh_nodes sizes.n lent.old.nodes.now }
    ensures records_after { lent.new.records.now ≡ fresh_records sizes.m lent.old.records.now }
    ensures pending_after { lent.new.pending.now ≡ cleared (sizes.p * sizes.n) 0 lent.old.pending.now }
    ensures found_after { lent.new.found.now ≡ cleared (sizes.p * sizes.n) (pos 0) lent.old.found.now }
{
    let places = sizes.p as usize * sizes.n as usize;
    fresh_nodes(sizes.n, lent.nodes);
    fresh_records(sizes.m, lent.records);
    clear(lent.pending, places, 0);
    clear(lent.found, places, 0);
}

pub fn fresh(board: Board, sizes: Sizes, lent: &mut Lent<'_>) -> Reply
    ensures same_lists { SameLists lent.new lent.old }
    ensures left { lent_left result lent.new ≡ fresh_of sizes.n sizes.m sizes.p (lent_world board lent.old) }
{
    if !asked_ok(sizes, lent.shown()) {
        return Reply {
            board,
            outcome: Err(Refusal::Size),
        };
    }
    fresh_lists(sizes, lent);
    Reply {
        board: fresh_board(sizes, board),
        outcome: Ok(None),
    }
}
