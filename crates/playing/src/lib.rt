// What each command of a schedule does to the tables and to the turn counts, and the line that it prints.
#![tactic(auto)]

ghost use Rattle.std.specs.Prelude.{◌≡◌};
ghost use Rattle.lending.specs.Lent.{lent_world, SameLists};
ghost use Rattle.tally.specs.Playing.{evening, play_of};
ghost use Rattle.playing.specs.Told.{lent_told};

use lending::Lent;
use machine::{run, start_delete, start_find, start_insert, start_scan};
use schedule::Command;
use shapes::Board;
use tally::Played;
use telling::{begun, ran};

pub fn play(
    number: u32,
    command: Command,
    board: Board,
    turns: [u64; 8],
    lent: &mut Lent<'_>,
) -> Played
    ensures same_lists { SameLists lent.new lent.old }
    ensures told { lent_told result lent.new ≡ play_of number command (evening (lent_world board lent.old) turns) }
{
    match command {
        Command::Insert(w, k) => {
            let reply = start_insert(board, w, k, lent.shown());
            begun(number, w, turns, reply)
        }
        Command::Delete(w, k) => {
            let reply = start_delete(board, w, k, lent.shown());
            begun(number, w, turns, reply)
        }
        Command::Find(w, k) => {
            let reply = start_find(board, w, k, lent.shown());
            begun(number, w, turns, reply)
        }
        Command::Scan(w, a, b) => {
            let reply = start_scan(board, w, a, b, lent.shown());
            begun(number, w, turns, reply)
        }
        Command::Turns(w, n) => {
            let taken = run(board, w, n, lent);
            ran(number, w, turns, taken)
        }
    }
}
