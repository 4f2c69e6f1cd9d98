// The board by value: a worker of it read and set, and the reply that hands it back refused.
#![tactic(auto)]

ghost use Rattle.std.specs.Prelude.{◌≡◌};
ghost use Rattle.boards.specs.Boards.{worker_of, with_worker, refused_by};

use fields::{get, idle, put};
use shapes::{Board, Refusal, Reply, Totals, Worker};

// Past the last worker there is an idle one.
pub fn worker_of(board: Board, w: u32) -> Worker
    ensures { result ≡ worker_of board w }
{
    get(&board.workers, w as usize, idle())
}

// Past the last worker none is set.
pub fn with_worker(board: Board, totals: Totals, w: u32, k: Worker) -> Board
    ensures { result ≡ with_worker board totals w k }
{
    let mut workers = board.workers;
    put(&mut workers, w as usize, k);
    Board { totals, workers }
}

// A refusal leaves all as before.
pub fn refuse(board: Board, why: Refusal) -> Reply
    ensures { result ≡ refused_by board why }
{
    Reply {
        board,
        outcome: Err(why),
    }
}
