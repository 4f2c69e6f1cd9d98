// The board before the first command.
ghost use Rattle.std.specs.Prelude.{◌≡◌};
ghost use Rattle.tally.specs.Whole.{lent};

use fields::idle;
use shapes::{Board, Totals};

// No sizes, no worker that holds anything: `fresh` makes a board of it.
#[tactic(auto, unfolding(crate::specs::Whole::lent))]
pub fn no_board() -> Board
    ensures { result ≡ lent.board }
{
    let totals = Totals {
        n: 0,
        m: 0,
        p: 0,
        nodes: 0,
        records: 0,
        counter: 0,
    };
    Board {
        totals,
        workers: [idle(); 8],
    }
}
