// 01, 'Sizes': numbers in range, and tables lent long enough.
ghost use Rattle.std.specs.Prelude.{◌≡◌};
ghost use Rattle.lending.specs.Lent.{shown_world};
ghost use Rattle.shapes.specs.declared.Board.{Board};
ghost use Rattle.tables.specs.Fresh.{between, sizes_ok, lent_ok};

use lending::{Shown, Sizes};
use tables::{
    LEAST_NODES, LEAST_RECORDS, LEAST_WORKERS, MOST_NODES, MOST_RECORDS, MOST_WORKERS, NODE_WIDTH,
    RECORD_WIDTH,
};

#[tactic(auto, unfolding(tables::specs::Fresh::between))]
pub fn between(a: u32, x: u32, b: u32) -> bool
    ensures { result ≡ between a x b }
{
    (a..=b).contains(&x)
}

#[tactic(auto, unfolding(tables::specs::Fresh::sizes_ok, laws::specs::Tests::all, laws::specs::Choice::pick))]
pub fn sizes_ok(sizes: Sizes) -> bool
    ensures { result ≡ sizes_ok sizes.n sizes.m sizes.p }
{
    between(LEAST_NODES, sizes.n, MOST_NODES)
        && between(LEAST_RECORDS, sizes.m, MOST_RECORDS)
        && between(LEAST_WORKERS, sizes.p, MOST_WORKERS)
}

// The lent tables are long enough, whatever the board.
#[tactic(auto, unfolding(tables::specs::Fresh::lent_ok, laws::specs::Tests::all, laws::specs::Choice::pick))]
pub fn lent_ok(sizes: Sizes, shown: Shown<'_>) -> bool
    ensures { (b : Board) → result ≡ lent_ok sizes.n sizes.m sizes.p (shown_world b shown.entry) }
{
    let places = sizes.p as usize * sizes.n as usize;
    sizes.n as usize * NODE_WIDTH as usize <= shown.nodes.len()
        && sizes.m as usize * RECORD_WIDTH as usize <= shown.records.len()
        && places <= shown.pending.len()
        && places <= shown.found.len()
}
