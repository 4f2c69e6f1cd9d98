// The code that tells sound workers from spoiled ones.
#![tactic(auto)]

mod lists; // counts and pending nodes

ghost use Rattle.std.specs.Prelude.{◌≡◌, true, ◌&&◌, List, ℕ, ℤ};
ghost use Rattle.laws.specs.Choice.{pick};
ghost use Rattle.laws.specs.Tests.{every};
ghost use Rattle.tables.specs.Records.{count_at};
ghost use Rattle.tables.specs.Fresh.{between};
ghost use Rattle.tables.specs.World.{world};
ghost use Rattle.sound.specs.Homes.{attempt_home, listed, in_list};
ghost use Rattle.sound.specs.Sound.{hand_ok, within_ok, condition_ok, worker_ok};

use crate::lists::lists_ok;
use boards::worker_of;
use fields::{between, count_at};
use homes::{attempt_home, in_list, listed, scan_home};
use rows::{phase_ok, used_maybe, used_node, used_record, word_ok};
use shapes::{Board, HelpStep, Kind, Locals, Operation, Place, Totals};

// All numbers in hand, at whatever place.
#[tactic(auto, unfolding(sound::specs::Sound::hand_ok, laws::specs::Tests::all, laws::specs::Choice::pick))]
fn hand_ok(t: Totals, v: Locals) -> bool
    ensures { result ≡ hand_ok t v }
{
    let gp = v.gp;
    phase_ok(t, v.seq)
        && used_maybe(t, gp)
        && used_node(t, v.p)
        && used_node(t, v.l)
        && word_ok(t, v.gpup)
        && word_ok(t, v.pup)
        && word_ok(t, v.lup)
        && word_ok(t, v.sup)
        && word_ok(t, v.up)
        && used_node(t, v.sibling)
        && used_node(t, v.made)
        && used_record(t, v.info)
}

// The place that HELP has reached in its record's list, from 1.
#[tactic(auto, unfolding(laws::specs::Choice::pick))]
fn help_within(rs: &[u32], v: Locals, s: HelpStep) -> bool
    ensures { result ≡ pick (in_list s) (between 1 v.i (count_at rs.now v.info)) true }
{
    !in_list(s) || between(1, v.i, count_at(rs, v.info))
}

// A place in a list lies within that list: EXECUTE's k old words, a record's nodes, the n pending nodes.
#[tactic(auto, unfolding(sound::specs::Sound::within_ok))]
fn within_ok(rs: &[u32], k: u32, v: Locals, n: u32, q: Place) -> bool
    ensures { result ≡ within_ok rs.now k v n q }
{
    match q {
        Place::Frozen97 | Place::State98 => between(1, v.i, k),
        Place::Help(s, _) => help_within(rs, v, s),
        Place::Left144 => 0 < n,
        Place::Link(_, _) => true,
        Place::Counter74
        | Place::Search39
        | Place::Word66
        | Place::Grand66
        | Place::Leaf164
        | Place::Sibling182
        | Place::CopyLeft
        | Place::CopyRight
        | Place::Word189
        | Place::Leaf190
        | Place::Freeze103
        | Place::Counter130
        | Place::Bump131
        | Place::Word139
        | Place::State140
        | Place::Child141 => true,
    }
}

// An insert, a delete or a find stands at a place of its own.
fn attempt_ok(rs: &[u32], v: Locals, n: u32, o: Kind, q: Place) -> bool
    ensures { result ≡ attempt_home o q && within_ok rs.now (listed o) v n q }
{
    attempt_home(o, q) && within_ok(rs, listed(o), v, n, q)
}

#[tactic(auto, unfolding(sound::specs::Sound::condition_ok))]
fn condition_ok(rs: &[u32], v: Locals, n: u32, c: Option<Operation>) -> bool
    ensures { result ≡ condition_ok rs.now v n c }
{
    match c {
        None => true,
        Some(o) => match o {
            Operation::Insert(_, q) => attempt_ok(rs, v, n, Kind::Insert, q),
            Operation::Delete(_, q) => attempt_ok(rs, v, n, Kind::Delete, q),
            Operation::Find(_, q) => attempt_ok(rs, v, n, Kind::Find, q),
            Operation::Scan(_, _, q) => scan_home(q) && within_ok(rs, 0, v, n, q),
        },
    }
}

#[tactic(auto, unfolding(sound::specs::Sound::worker_ok, tables::specs::World::worker_at, laws::specs::Tests::all, laws::specs::Choice::pick))]
fn worker_ok(board: Board, records: &[u32], pending: &[u32], w: u32) -> bool
    ensures { (ns : List ℕ) (fs : List ℤ) → result ≡ worker_ok (world board ns records.now pending.now fs) w }
{
    let k = worker_of(board, w);
    lists_ok(board, pending, w)
        && hand_ok(board.totals, k.hand)
        && condition_ok(records, k.hand, k.pending, k.operation)
}

// Every worker, from the last.
pub fn workers_ok(board: Board, records: &[u32], pending: &[u32]) -> bool
    ensures { (ns : List ℕ) (fs : List ℤ) → result ≡ every board.totals.p (worker_ok (world board ns records.now pending.now fs)) }
{
    (0..board.totals.p)
        .rev()
        .all(|w| worker_ok(board, records, pending, w))
}
