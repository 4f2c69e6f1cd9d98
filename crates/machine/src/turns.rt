// A run of turns, and one turn.
ghost use Rattle.std.specs.Prelude.{◌≡◌};
ghost use Rattle.lending.specs.Lent.{lent_world, lent_left, SameLists};
ghost use Rattle.steps.specs.Turn.{turn_of, run_of};
ghost use Rattle.running.specs.Loop.{lent_ran};

use checking::is_sound;
use lending::Lent;
use running::steps;
use shapes::{Board, Refusal, Reply, Run};

// The tables are looked at once: an accepted turn keeps sound tables sound.
pub fn run(board: Board, w: u32, n: u32, lent: &mut Lent<'_>) -> Run
    ensures same_lists { SameLists lent.new lent.old }
    ensures left { lent_ran result lent.new ≡ run_of n (lent_world board lent.old) w }
{
    if n == 0 {
        return Run {
            board,
            outcome: Ok(None),
            turns: 0,
        };
    }
    if !is_sound(board, lent.shown()) {
        return Run {
            board,
            outcome: Err(Refusal::Table),
            turns: 0,
        };
    }
    steps(board, w, n, lent)
}

// A run of one.
pub fn turn(board: Board, w: u32, lent: &mut Lent<'_>) -> Reply
    ensures same_lists { SameLists lent.new lent.old }
    ensures left { lent_left result lent.new ≡ turn_of (lent_world board lent.old) w }
{
    let r = run(board, w, 1, lent);
    Reply {
        board: r.board,
        outcome: r.outcome,
    }
}
