// A worker after its turn.
ghost use Rattle.std.specs.Prelude.{◌≡◌, ◌≤◌};
ghost use Rattle.shapes.specs.Numbers.{most_n};
ghost use Rattle.steps.specs.Turn.{moved, worker_next, outcome_of};

use crate::lists::{found_left, pending_left};
use shapes::{Next, Operation, Outcome, Place, Step, Worker};

#[tactic(auto, unfolding(steps::specs::Turn::moved))]
fn moved(o: Operation, q: Place) -> Operation
    ensures { result ≡ moved o q }
{
    match o {
        Operation::Insert(k, _) => Operation::Insert(k, q),
        Operation::Delete(k, _) => Operation::Delete(k, q),
        Operation::Find(k, _) => Operation::Find(k, q),
        Operation::Scan(low, high, _) => Operation::Scan(low, high, q),
    }
}

// Stays: (d) three private functions in a row ask these bounds; a type made after `fits` would hold the same two, and be taken apart at once.
// After any answer the worker is idle with none pending, and keeps its found keys.
#[tactic(auto, unfolding(steps::specs::Turn::worker_next))]
pub fn worker_next(k: Worker, o: Operation, d: Step) -> Worker
    requires pending_le_most_n { k.pending ≤ most_n }
    requires found_le_most_n { k.found ≤ most_n }
    ensures { result ≡ worker_next k o d d.next }
{
    let hand = d.hand;
    let found = found_left(k.found, d.found);
    match d.next {
        Next::At(q) => Worker {
            operation: Some(moved(o, q)),
            hand,
            pending: pending_left(k.pending, d.pending),
            found,
        },
        Next::Answers(_) => Worker {
            operation: None,
            hand,
            pending: 0,
            found,
        },
    }
}

#[tactic(auto, unfolding(steps::specs::Turn::outcome_of))]
pub fn outcome_of(next: Next) -> Outcome
    ensures { result ≡ outcome_of next }
{
    match next {
        Next::At(_) => Ok(None),
        Next::Answers(a) => Ok(Some(a)),
    }
}
