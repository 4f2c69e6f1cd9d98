// What a command leaves, the board before the first, where the keys of a line stand, and the last line.
#![tactic(auto)]

mod opening; // the board before the first command

ghost use Rattle.std.specs.Prelude.{◌≡◌, ◌*◌};
ghost use Rattle.tally.specs.Whole.{keys_place, end_line};

use lines::Line;
pub use opening::no_board;
use shapes::{Board, Totals};

// The board and the turn counts as a command leaves them, and its line.
#[derive(Clone, Copy)]
pub struct Played {
    pub board: Board,
    pub turns: [u64; 8],
    pub line: Line,
}

// Two numbers of 32 bits, so the product fits.
#[tactic(auto, using(tables::specs::Places::row_fits))]
fn list_place(w: u32, n: u32) -> usize
    ensures { result ≡ w * n }
{
    w as usize * n as usize
}

// Where the keys that a line lists stand among the found keys.
#[tactic(auto, unfolding(crate::specs::Whole::keys_place, tables::specs::World::spot))]
pub fn keys_place(totals: Totals, line: Line) -> usize
    ensures { result ≡ keys_place totals line }
{
    match line {
        Line::Answered(_, w, _, _) => list_place(w, totals.n),
        Line::Quiet | Line::Refused(_, _, _) | Line::End(_, _, _, _) | Line::Bad(_) => 0,
    }
}

#[tactic(auto, unfolding(crate::specs::Whole::end_line))]
pub fn end_line(commands: u32, totals: Totals) -> Line
    ensures { result ≡ end_line commands totals }
{
    Line::End(commands, totals.nodes, totals.records, totals.counter)
}
