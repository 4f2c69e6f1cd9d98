// A worker that holds no operation.
ghost use Rattle.std.specs.Prelude.{◌≡◌};
ghost use Rattle.tables.specs.World.{blank, idle};

use shapes::{Locals, Phase, Update, Worker};
use tables::{DUMMY, FLAG, ROOT};

// Nothing in hand.
pub fn blank() -> Locals
    ensures { result ≡ blank }
{
    let u = Update {
        mark: FLAG,
        info: DUMMY,
    };
    let x = ROOT;
    Locals {
        seq: Phase(0),
        gp: None,
        p: x,
        l: x,
        gpup: u,
        pup: u,
        lup: u,
        sup: u,
        up: u,
        sibling: x,
        made: x,
        info: DUMMY,
        i: 0,
    }
}

pub fn idle() -> Worker
    ensures { result ≡ idle }
{
    let hand = blank();
    Worker {
        operation: None,
        hand,
        pending: 0,
        found: 0,
    }
}
