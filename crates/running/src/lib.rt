// A run's turns, on tables that have been looked at.
#![tactic(auto)]

ghost use Rattle.std.specs.Prelude.{◌≡◌};
ghost use Rattle.lending.specs.Lent.{lent_world, SameLists};
ghost use Rattle.running.specs.Loop.{is_going, counted, lent_ran, steps_from};

use lending::Lent;
use shapes::{Board, Outcome, Run};
use turning::step;

#[tactic(auto, unfolding(crate::specs::Loop::is_going))]
fn is_going(outcome: Outcome) -> bool
    ensures { result ≡ is_going outcome }
{
    matches!(outcome, Ok(None))
}

// The accepted turns: a refused one is not counted.
#[tactic(auto, unfolding(crate::specs::Loop::counted))]
fn counted(outcome: Outcome, turns: u32, taken: u32) -> u32
    ensures { result ≡ counted outcome turns taken }
{
    match outcome {
        Ok(_) => taken,
        Err(_) => turns,
    }
}

// Turns until an answer, a refusal or n of them.
pub fn steps(board: Board, w: u32, n: u32, lent: &mut Lent<'_>) -> Run
    ensures same_lists { SameLists lent.new lent.old }
    ensures left { lent_ran result lent.new ≡ steps_from n 0 w (lent_world board lent.old) }
{
    let mut b = board;
    for turns in 0..n {
        let reply = step(b, w, lent);
        let outcome = reply.outcome;
        let taken = turns + 1;
        b = reply.board;
        if !is_going(outcome) {
            return Run {
                board: b,
                outcome,
                turns: counted(outcome, turns, taken),
            };
        }
    }
    Run {
        board: b,
        outcome: Ok(None),
        turns: n,
    }
}
