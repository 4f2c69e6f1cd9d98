// A start, of whatever operation: refusal 1, then 3, then 4. A start writes only the board, which goes by value.
#![tactic(auto)]

ghost use Rattle.std.specs.Prelude.{◌≡◌};
ghost use Rattle.lending.specs.Lent.{shown_world, shown_left};
ghost use Rattle.steps.specs.Turn.{start_of};
ghost use Rattle.beginning.specs.Starts.{holding, begun, admitted};
ghost use Rattle.boards.specs.Boards.{worker_of};

use boards::{refuse, with_worker, worker_of};
use checking::is_sound;
use fields::blank;
use lending::Shown;
use shapes::{Board, Operation, Refusal, Reply, Worker};

// A worker at the beginning of its operation: found keys are counted anew, pending nodes stay.
#[tactic(auto, unfolding(crate::specs::Starts::holding))]
fn holding(k: Worker, o: Operation) -> Worker
    ensures { result ≡ holding k o }
{
    Worker {
        operation: Some(o),
        hand: blank(),
        pending: k.pending,
        found: 0,
    }
}

// An idle worker begins; a busy one is refused.
#[tactic(auto, unfolding(crate::specs::Starts::begun))]
fn begun(board: Board, w: u32, o: Operation) -> Reply
    ensures { result ≡ begun board w o (worker_of board w).operation }
{
    let k = worker_of(board, w);
    if k.operation.is_some() {
        return refuse(board, Refusal::Busy);
    }
    Reply {
        board: with_worker(board, board.totals, w, holding(k, o)),
        outcome: Ok(None),
    }
}

// The worker is one of P.
#[tactic(auto, unfolding(crate::specs::Starts::admitted, laws::specs::Choice::pick))]
fn admitted(board: Board, w: u32, o: Operation) -> Reply
    ensures { result ≡ admitted board w o }
{
    if board.totals.p <= w {
        return refuse(board, Refusal::Worker);
    }
    begun(board, w, o)
}

// On sound tables the board alone decides.
pub fn start(board: Board, w: u32, o: Operation, shown: Shown<'_>) -> Reply
    ensures { shown_left result shown.entry ≡ start_of (shown_world board shown.entry) w o }
{
    if !is_sound(board, shown) {
        return refuse(board, Refusal::Table);
    }
    admitted(board, w, o)
}
