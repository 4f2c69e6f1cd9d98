// The four starts: each begins its operation at that operation's first place.
#![tactic(auto)]

ghost use Rattle.std.specs.Prelude.{◌≡◌};
ghost use Rattle.tables.specs.Names.{key_of};
ghost use Rattle.lending.specs.Lent.{shown_world, shown_left};
ghost use Rattle.steps.specs.Turn.{insert_of, delete_of, find_of, scan_of};

use beginning::start;
use fields::key_of;
use lending::Shown;
use shapes::{Board, Operation, Place, Reply};

// Stays: (d) what the four share is `beginning::start`, and a caller that hands over an `Operation` could begin it at any place.

pub fn start_insert(board: Board, w: u32, key: i32, shown: Shown<'_>) -> Reply
    ensures { shown_left result shown.entry ≡ insert_of (shown_world board shown.entry) w (key_of key) }
{
    let o = Operation::Insert(key_of(key), Place::Counter74);
    start(board, w, o, shown)
}

pub fn start_delete(board: Board, w: u32, key: i32, shown: Shown<'_>) -> Reply
    ensures { shown_left result shown.entry ≡ delete_of (shown_world board shown.entry) w (key_of key) }
{
    let o = Operation::Delete(key_of(key), Place::Counter74);
    start(board, w, o, shown)
}

pub fn start_find(board: Board, w: u32, key: i32, shown: Shown<'_>) -> Reply
    ensures { shown_left result shown.entry ≡ find_of (shown_world board shown.entry) w (key_of key) }
{
    let o = Operation::Find(key_of(key), Place::Counter74);
    start(board, w, o, shown)
}

pub fn start_scan(board: Board, w: u32, a: i32, b: i32, shown: Shown<'_>) -> Reply
    ensures { shown_left result shown.entry ≡ scan_of (shown_world board shown.entry) w (key_of a) (key_of b) }
{
    let o = Operation::Scan(key_of(a), key_of(b), Place::Counter130);
    start(board, w, o, shown)
}
