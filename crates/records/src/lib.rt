// A record's fields, read and written by name.
#![tactic(auto)]

ghost use Rattle.std.specs.Prelude.{◌≡◌, ◌+◌, ◌*◌, ◌≤◌};
ghost use Rattle.tables.specs.Records.{record_word, count_at, state_at, par_at, old_child_at, new_child_at, seq_at, entry_at, set_state, unfilled, helpable, fillable, in_progress};

use shapes::{Entry, Filling, NodeNo, Phase, RecordNo, Update};
use tables::{COMMIT, DUMMY, FLAG, RECORD_WIDTH, ROOT};
use words::{get, put_word, word};

// The fields of a row.
const COUNT: u32 = 0;

const STATE: u32 = 1;

const PAR: u32 = 2;

const OLD_CHILD: u32 = 3;

const NEW_CHILD: u32 = 4;

const SEQ: u32 = 5;

// Entry i, from 1, stands in four words from 4i + 2.
const ENTRY_WIDTH: usize = 4;

const ENTRY_NODE: usize = 2;

const ENTRY_TYPE: usize = 3;

const ENTRY_INFO: usize = 4;

const ENTRY_MARK: usize = 5;

#[tactic(auto, unfolding(tables::specs::Records::count_at))]
pub fn count_at(rs: &[u32], r: RecordNo) -> u32
    ensures { result ≡ count_at rs.now r }
{
    word(rs, RECORD_WIDTH, r.0, COUNT)
}

#[tactic(auto, unfolding(tables::specs::Records::state_at))]
pub fn state_at(rs: &[u32], r: RecordNo) -> u32
    ensures { result ≡ state_at rs.now r }
{
    word(rs, RECORD_WIDTH, r.0, STATE)
}

#[tactic(auto, unfolding(tables::specs::Records::par_at))]
pub fn par_at(rs: &[u32], r: RecordNo) -> NodeNo
    ensures { result ≡ par_at rs.now r }
{
    NodeNo(word(rs, RECORD_WIDTH, r.0, PAR))
}

#[tactic(auto, unfolding(tables::specs::Records::old_child_at))]
pub fn old_child_at(rs: &[u32], r: RecordNo) -> NodeNo
    ensures { result ≡ old_child_at rs.now r }
{
    NodeNo(word(rs, RECORD_WIDTH, r.0, OLD_CHILD))
}

#[tactic(auto, unfolding(tables::specs::Records::new_child_at))]
pub fn new_child_at(rs: &[u32], r: RecordNo) -> NodeNo
    ensures { result ≡ new_child_at rs.now r }
{
    NodeNo(word(rs, RECORD_WIDTH, r.0, NEW_CHILD))
}

#[tactic(auto, unfolding(tables::specs::Records::seq_at))]
pub fn seq_at(rs: &[u32], r: RecordNo) -> Phase
    ensures { result ≡ seq_at rs.now r }
{
    Phase(word(rs, RECORD_WIDTH, r.0, SEQ))
}

// i may be any number, so the place is counted in 64 bits.
#[tactic(auto, unfolding(tables::specs::Rows::word))]
fn entry_word(rs: &[u32], r: RecordNo, i: u32, f: usize) -> u32
    requires { f ≤ 5 }
    ensures { result ≡ record_word rs.now r (i * 4 + f) }
{
    get(
        rs,
        r.0 as usize * RECORD_WIDTH as usize + (i as usize * ENTRY_WIDTH + f),
        0,
    )
}

#[tactic(auto, unfolding(tables::specs::Records::entry_at))]
pub fn entry_at(rs: &[u32], r: RecordNo, i: u32) -> Entry
    ensures { result ≡ entry_at rs.now r i }
{
    let x = entry_word(rs, r, i, ENTRY_NODE);
    let old = entry_word(rs, r, i, ENTRY_TYPE);
    let info = entry_word(rs, r, i, ENTRY_INFO);
    let mark = entry_word(rs, r, i, ENTRY_MARK);
    Entry {
        node: NodeNo(x),
        old: Update {
            mark: old,
            info: RecordNo(info),
        },
        mark,
    }
}

// ---- writing

// Stays: (a) a state is a word of the lent tables: any number is written, and read, as it comes (tables:Records.set_state).
#[tactic(auto, unfolding(tables::specs::Records::set_state))]
pub fn set_state(rs: &mut [u32], r: RecordNo, s: u32)
    ensures { rs.new ≡ set_state rs.old r s }
{
    put_word(rs, RECORD_WIDTH, r.0, STATE, s);
}

// 01: a record taken is unfilled, with the dummy's contents.
pub fn unfilled() -> Filling
    ensures { result ≡ unfilled }
{
    let old = Update {
        mark: FLAG,
        info: DUMMY,
    };
    let none = Entry {
        node: ROOT,
        old,
        mark: 0,
    };
    Filling {
        count: 0,
        par: ROOT,
        old: ROOT,
        new: ROOT,
        seq: Phase(0),
        first: none,
        second: none,
        third: none,
        fourth: none,
    }
}

// ---- what may be done with a record

#[tactic(auto, unfolding(tables::specs::Records::helpable))]
pub fn helpable(rs: &[u32], r: RecordNo) -> bool
    ensures { result ≡ helpable rs.now r }
{
    r.0 != 0 && count_at(rs, r) != 0
}

#[tactic(auto, unfolding(tables::specs::Records::fillable))]
pub fn fillable(rs: &[u32], r: RecordNo) -> bool
    ensures { result ≡ fillable rs.now r }
{
    r.0 != 0 && count_at(rs, r) == 0
}

// ⊥ or TRY.
#[tactic(auto, unfolding(tables::specs::Records::in_progress))]
pub fn in_progress(s: u32) -> bool
    ensures { result ≡ in_progress s }
{
    s < COMMIT
}
