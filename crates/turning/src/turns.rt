// A turn: look, decide, apply.
ghost use Rattle.std.specs.Prelude.{◌≡◌, true, ◌≤◌};
ghost use Rattle.shapes.specs.Numbers.{most_n};
ghost use Rattle.steps.specs.Turn.{settled, step_on, step_of};
ghost use Rattle.effects.specs.Sizes.{WithinSizes};
ghost use Rattle.lending.specs.Lent.{lent_world, lent_left, SameLists};
ghost use Rattle.turning.specs.Fits.{fits, step_within};

use crate::lists::{add, push, spot, top};
use crate::workers::{outcome_of, worker_next};
use boards::{refuse, with_worker, worker_of};
use hand::{Lists, Shared};
use lending::Lent;
use shapes::{Board, Operation, Refusal, Reply, Step, Worker};
use tables::MOST_NODES;

// What a turn adds to is small enough: the totals, and the counts of a worker that is one of P.
#[tactic(auto, unfolding(crate::specs::Fits::fits))]
fn fits(board: Board, w: u32) -> bool
    ensures { result ≡ fits board w }
{
    let k = worker_of(board, w);
    let few = (k.pending <= MOST_NODES) & (k.found <= MOST_NODES);
    effects::within(board.totals) & ((board.totals.p <= w) | few)
}

// The tables, worker w and its lists anew; nothing else moves.
fn settled(board: Board, w: u32, k: Worker, o: Operation, d: Step, lent: &mut Lent<'_>) -> Board
    requires within_sizes { WithinSizes board.totals }
    requires pending_le_most_n { k.pending ≤ most_n }
    requires found_le_most_n { k.found ≤ most_n }
    ensures same_lists { SameLists lent.new lent.old }
    ensures left { lent_world result lent.new ≡ settled (lent_world board lent.old) w k o d }
{
    let totals = board.totals;
    push(lent.pending, spot(totals, w, k.pending), d.pending);
    add(lent.found, spot(totals, w, k.found), d.found);
    let after = effects::apply(d.effect, totals, lent.nodes, lent.records);
    with_worker(board, after, w, worker_next(k, o, d))
}

fn step_on(board: Board, w: u32, k: Worker, lent: &mut Lent<'_>) -> Reply
    requires within_sizes { WithinSizes board.totals }
    requires pending_le_most_n { k.pending ≤ most_n }
    requires found_le_most_n { k.found ≤ most_n }
    ensures same_lists { SameLists lent.new lent.old }
    ensures left { lent_left result lent.new ≡ step_on (lent_world board lent.old) w k k.operation }
{
    let Some(o) = k.operation else {
        return refuse(board, Refusal::Idle);
    };
    let totals = board.totals;
    let shown = lent.shown();
    let lists = Lists {
        top: top(totals, shown.pending, w, k.pending),
        pending: k.pending,
        found: k.found,
    };
    let shared = Shared {
        totals,
        nodes: shown.nodes,
        records: shown.records,
    };
    let decision = deciding::decide(shared, lists, o, k.hand);
    let Some(d) = decision else {
        return refuse(board, Refusal::Crooked);
    };
    Reply {
        board: settled(board, w, k, o, d, lent),
        outcome: outcome_of(d.next),
    }
}

// A turn on tables that fit: refusal 3, then 5, then 7.
fn fitting_step(board: Board, w: u32, lent: &mut Lent<'_>) -> Reply
    requires { fits board w ≡ true }
    ensures same_lists { SameLists lent.new lent.old }
    ensures left { lent_left result lent.new ≡ step_of (lent_world board lent.old) w }
{
    if board.totals.p <= w {
        return refuse(board, Refusal::Worker);
    }
    let k = worker_of(board, w);
    step_on(board, w, k, lent)
}

// Whoever calls has looked at the tables. What a turn adds to is tested here again, in constant time.
pub fn step(board: Board, w: u32, lent: &mut Lent<'_>) -> Reply
    ensures same_lists { SameLists lent.new lent.old }
    ensures left { lent_left result lent.new ≡ step_within (lent_world board lent.old) w }
{
    if !fits(board, w) {
        return refuse(board, Refusal::Table);
    }
    fitting_step(board, w, lent)
}
