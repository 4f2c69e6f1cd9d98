// A node's fields, read and written by name.
#![tactic(auto)]

ghost use Rattle.std.specs.Prelude.{◌≡◌};
ghost use Rattle.tables.specs.Names.{value, same_update};
ghost use Rattle.tables.specs.Nodes.{kind_at, is_internal, rank_at, key_at, phase_at, prev_at, child_at, update_at, set_child, set_update};

use shapes::{NodeNo, Phase, Rank, RecordNo, Update};
use tables::{INTERNAL, NODE_WIDTH};
use words::{put_word, word};

// The fields of a row; the update word has two.
const KIND: u32 = 0;

const CLASS: u32 = 1;

const KEY: u32 = 2;

const PHASE: u32 = 3;

const HAS_PREV: u32 = 4;

const PREV: u32 = 5;

const LEFT: u32 = 6;

const RIGHT: u32 = 7;

const TYPE: u32 = 8;

const INFO: u32 = 9;

#[tactic(auto, unfolding(tables::specs::Nodes::kind_at))]
pub fn kind_at(ns: &[u32], x: NodeNo) -> u32
    ensures { result ≡ kind_at ns.now x }
{
    word(ns, NODE_WIDTH, x.0, KIND)
}

#[tactic(auto, unfolding(tables::specs::Nodes::is_internal))]
pub fn is_internal(ns: &[u32], x: NodeNo) -> bool
    ensures { result ≡ is_internal ns.now x }
{
    kind_at(ns, x) == INTERNAL
}

#[tactic(auto, unfolding(tables::specs::Nodes::rank_at))]
pub fn rank_at(ns: &[u32], x: NodeNo) -> Rank
    ensures { result ≡ rank_at ns.now x }
{
    let class = word(ns, NODE_WIDTH, x.0, CLASS);
    let key = word(ns, NODE_WIDTH, x.0, KEY);
    Rank { class, word: key }
}

// The order of ranks as an order of numbers.
// Stays: (a) `key_value` and `key_at` promise this number (tables:Names.value), which the definitions compare with a finite key.
#[tactic(auto, unfolding(tables::specs::Names::value))]
pub fn key_value(k: Rank) -> u64
    ensures { result ≡ value k }
{
    k.class as u64 * 4294967296 + k.word as u64
}

#[tactic(auto, unfolding(tables::specs::Nodes::key_at))]
pub fn key_at(ns: &[u32], x: NodeNo) -> u64
    ensures { result ≡ key_at ns.now x }
{
    key_value(rank_at(ns, x))
}

#[tactic(auto, unfolding(tables::specs::Nodes::phase_at))]
pub fn phase_at(ns: &[u32], x: NodeNo) -> Phase
    ensures { result ≡ phase_at ns.now x }
{
    Phase(word(ns, NODE_WIDTH, x.0, PHASE))
}

#[tactic(auto, unfolding(tables::specs::Nodes::prev_at, laws::specs::Choice::pick))]
pub fn prev_at(ns: &[u32], x: NodeNo) -> Option<NodeNo>
    ensures { result ≡ prev_at ns.now x }
{
    let has = word(ns, NODE_WIDTH, x.0, HAS_PREV);
    if has == 0 {
        return None;
    }
    Some(NodeNo(word(ns, NODE_WIDTH, x.0, PREV)))
}

#[tactic(auto, unfolding(tables::specs::Nodes::child_at, tables::specs::Nodes::side))]
pub fn child_at(ns: &[u32], x: NodeNo, left: bool) -> NodeNo
    ensures { result ≡ child_at ns.now x left }
{
    if left {
        NodeNo(word(ns, NODE_WIDTH, x.0, LEFT))
    } else {
        NodeNo(word(ns, NODE_WIDTH, x.0, RIGHT))
    }
}

#[tactic(auto, unfolding(tables::specs::Nodes::update_at))]
pub fn update_at(ns: &[u32], x: NodeNo) -> Update
    ensures { result ≡ update_at ns.now x }
{
    let mark = word(ns, NODE_WIDTH, x.0, TYPE);
    let info = word(ns, NODE_WIDTH, x.0, INFO);
    Update {
        mark,
        info: RecordNo(info),
    }
}

// ---- writing

#[tactic(auto, unfolding(tables::specs::Nodes::set_child, tables::specs::Nodes::side))]
pub fn set_child(ns: &mut [u32], x: NodeNo, left: bool, c: NodeNo)
    ensures { ns.new ≡ set_child ns.old x left c }
{
    if left {
        put_word(ns, NODE_WIDTH, x.0, LEFT, c.0);
    } else {
        put_word(ns, NODE_WIDTH, x.0, RIGHT, c.0);
    }
}

#[tactic(auto, unfolding(tables::specs::Nodes::set_update))]
pub fn set_update(ns: &mut [u32], x: NodeNo, u: Update)
    ensures { ns.new ≡ set_update ns.old x u }
{
    let info = u.info;
    put_word(ns, NODE_WIDTH, x.0, TYPE, u.mark);
    put_word(ns, NODE_WIDTH, x.0, INFO, info.0);
}

// ---- the same word

// Whether a CAS finds the word: FLAG or MARK as well as the record.
#[tactic(auto, unfolding(tables::specs::Names::same_update, tables::specs::Names::same_record))]
pub fn same_update(u: Update, v: Update) -> bool
    ensures { result ≡ same_update u v }
{
    u == v
}
