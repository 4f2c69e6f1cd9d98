// Each table, fresh.
ghost use Rattle.std.specs.Prelude.{◌≡◌, ◌*◌, ◌≤◌, length};
ghost use Rattle.tables.specs.Names.{infinite};
ghost use Rattle.tables.specs.Fresh.{fresh_nodes, fresh_records, fresh_board};

use crate::clearing::clear;
use fields::{idle, new_node, new_record, unfilled};
use lending::Sizes;
use shapes::{Board, NodeNo, Phase, Rank, Totals};
use tables::{
    ABORT, DUMMY, FRESH_NODES, FRESH_RECORDS, INTERNAL, LEAF, NODE_WIDTH, RECORD_WIDTH, ROOT,
};

// Stays: (a) the class is a word of the lent tables (`shapes::Rank`).
fn infinite(class: u32) -> Rank
    ensures { result ≡ infinite class }
{
    Rank { class, word: 0 }
}

// The Root, and its leaves ∞1 and ∞2.
#[tactic(auto, unfolding(tables::specs::Fresh::fresh_nodes))]
pub fn fresh_nodes(n: u32, ns: &mut [u32])
    requires { n * 10 ≤ length ns.old }
    ensures { ns.new ≡ fresh_nodes n ns.old }
{
    let none = NodeNo(0);
    clear(ns, n as usize * NODE_WIDTH as usize, 0);
    new_node(
        ns,
        ROOT,
        INTERNAL,
        infinite(2),
        Phase(0),
        None,
        NodeNo(1),
        NodeNo(2),
    );
    new_node(ns, NodeNo(1), LEAF, infinite(1), Phase(0), None, none, none);
    new_node(ns, NodeNo(2), LEAF, infinite(2), Phase(0), None, none, none);
}

// The dummy.
#[tactic(auto, unfolding(tables::specs::Fresh::fresh_records))]
pub fn fresh_records(m: u32, rs: &mut [u32])
    requires { m * 22 ≤ length rs.old }
    ensures { rs.new ≡ fresh_records m rs.old }
{
    clear(rs, m as usize * RECORD_WIDTH as usize, 0);
    new_record(rs, DUMMY, ABORT, unfilled());
}

#[tactic(auto, unfolding(tables::specs::Fresh::fresh_board))]
pub fn fresh_board(sizes: Sizes, board: Board) -> Board
    requires { sizes.p ≤ 8 }
    ensures { result ≡ fresh_board sizes.n sizes.m sizes.p board }
{
    let totals = Totals {
        n: sizes.n,
        m: sizes.m,
        p: sizes.p,
        nodes: FRESH_NODES,
        records: FRESH_RECORDS,
        counter: 0,
    };
    let mut workers = board.workers;
    clear(&mut workers, sizes.p as usize, idle());
    Board { totals, workers }
}
