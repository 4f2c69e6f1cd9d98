// The clauses on records.
ghost use Rattle.std.specs.Prelude.{◌≡◌, suc, ◌-◌, get_or, eqb};
ghost use Rattle.tables.specs.Names.{dummy};
ghost use Rattle.laws.specs.Tests.{every};
ghost use Rattle.tables.specs.Records.{record_word, record_row, aborted, unfilled, entry_at};
ghost use Rattle.tables.specs.World.{tables};
ghost use Rattle.sound.specs.Sound.{dummy_ok, entry_ok, count_ok, record_ok};

use crate::numbers::{phase_ok, used_node, word_ok};
use fields::{
    count_at, entry_at, get, is_internal, new_child_at, old_child_at, par_at, seq_at, state_at,
};
use shapes::{Entry, NodeNo, RecordNo, Totals};
use tables::{ABORT, DELETE_LISTS, INSERT_LISTS, RECORD_WIDTH};

// The second word of a record is its state.
const STATE: u32 = 1;

// Whether an entry is to be marked: 0 or 1.
const TO_MARK: u32 = 1;

// Word f of the dummy, which is record 0 and so comes first: nothing but its state.
fn dummy_word_ok(rs: &[u32], f: u32) -> bool
    ensures { result ≡ eqb (record_word rs.now dummy f) (get_or (record_row aborted unfilled) f 0) }
{
    let word = get(rs, f as usize, 0);
    if f == STATE { word == ABORT } else { word == 0 }
}

// The dummy as fresh.
pub fn dummy_ok(rs: &[u32]) -> bool
    ensures { result ≡ dummy_ok rs.now }
{
    (0..RECORD_WIDTH).all(|f| dummy_word_ok(rs, f))
}

#[tactic(auto, unfolding(sound::specs::Sound::entry_ok, laws::specs::Tests::all, laws::specs::Choice::pick))]
fn entry_ok(t: Totals, e: Entry) -> bool
    ensures { result ≡ entry_ok t e }
{
    used_node(t, e.node) && word_ok(t, e.old) && e.mark <= TO_MARK
}

// Unfilled, or 2 or 4 nodes are listed and the parent is internal.
#[tactic(auto, unfolding(sound::specs::Sound::count_ok))]
fn count_ok(ns: &[u32], par: NodeNo, c: u32) -> bool
    ensures { result ≡ count_ok ns.now par c }
{
    c == 0 || (c == INSERT_LISTS || c == DELETE_LISTS) && is_internal(ns, par)
}

// The nodes that record r lists, from the last; entry i + 1 never wraps, since i is below the count.
fn entries_ok(t: Totals, rs: &[u32], r: RecordNo, count: u32) -> bool
    ensures { result ≡ every count (λ i. entry_ok t (entry_at rs.now r (suc i))) }
{
    (0..count)
        .rev()
        .all(|i| entry_ok(t, entry_at(rs, r, i.wrapping_add(1))))
}

// The entries are looked at only if there are few.
// Stays: (d) this and `records_ok` alone take totals, nodes and records: `hand::Shared` stands above this crate, for those that decide.
#[tactic(auto, unfolding(sound::specs::Sound::record_ok, laws::specs::Tests::all, laws::specs::Choice::pick))]
fn record_ok(t: Totals, ns: &[u32], rs: &[u32], n: u32) -> bool
    ensures { result ≡ record_ok (tables t ns.now rs.now) n }
{
    let r = RecordNo(n);
    let count = count_at(rs, r);
    let par = par_at(rs, r);
    count_ok(ns, par, count)
        && state_at(rs, r) <= ABORT
        && used_node(t, par)
        && used_node(t, old_child_at(rs, r))
        && used_node(t, new_child_at(rs, r))
        && phase_ok(t, seq_at(rs, r))
        && entries_ok(t, rs, r, count)
}

// Every used record but the dummy, from the last.
pub fn records_ok(t: Totals, ns: &[u32], rs: &[u32]) -> bool
    ensures { result ≡ every (t.records - 1) (λ i. record_ok (tables t ns.now rs.now) (suc i)) }
{
    (1..t.records).rev().all(|n| record_ok(t, ns, rs, n))
}
