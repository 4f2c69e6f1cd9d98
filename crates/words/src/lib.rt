// Total reads and writes: past the end a place reads as the caller says, and a write changes nothing. One place, one word, a whole row.
#![tactic(auto)]

ghost use Rattle.std.specs.Prelude.{◌≡◌, length, get_or, set};
ghost use Rattle.tables.specs.Rows.{word, put_word, put_row};
ghost use Rattle.tables.specs.Nodes.{new_node};
ghost use Rattle.tables.specs.Records.{new_record};

use shapes::{Filling, NodeNo, Phase, Rank, RecordNo};
use tables::{NODE_WIDTH, RECORD_WIDTH};

pub fn get<T: Copy>(t: &[T], at: usize, none: T) -> T
    ensures { result ≡ get_or t.now at none }
{
    t.get(at).copied().unwrap_or(none)
}

pub fn put<T: Copy>(t: &mut [T], at: usize, v: T)
    ensures { t.new ≡ set t.old at v }
{
    if at < t.len() {
        t[at] = v;
    }
}

// Field f of row n.
#[tactic(auto, unfolding(tables::specs::Rows::word))]
pub fn word(t: &[u32], width: u32, n: u32, f: u32) -> u32
    ensures { result ≡ word width t.now n f }
{
    get(t, n as usize * width as usize + f as usize, 0)
}

#[tactic(auto, unfolding(tables::specs::Rows::put_word))]
pub fn put_word(t: &mut [u32], width: u32, n: u32, f: u32, v: u32)
    ensures { t.new ≡ put_word width t.old n f v }
{
    put(t, n as usize * width as usize + f as usize, v);
}

// The whole of row n.
#[tactic(auto, using(tables::specs::Places::sets_more), unfolding(tables::specs::Rows::put_row))]
fn put_row(t: &mut [u32], width: u32, n: u32, row: &[u32])
    requires { length row.now ≡ width }
    ensures { t.new ≡ put_row width t.old n row.now }
{
    let start = n as usize * width as usize;
    for (f, v) in row.iter().enumerate() {
        put(t, start + f, *v);
    }
}

// ---- new rows

// The update word of a new node is (FLAG, dummy).
// Stays: (a) the kind, and a record's state, are words of the lent tables: any number is written as it comes (tables:Nodes.new_node).
#[tactic(auto, unfolding(tables::specs::Nodes::new_node, tables::specs::Nodes::new_row))]
pub fn new_node(
    ns: &mut [u32],
    x: NodeNo,
    kind: u32,
    k: Rank,
    q: Phase,
    prev: Option<NodeNo>,
    left: NodeNo,
    right: NodeNo,
)
    ensures { ns.new ≡ new_node ns.old x kind k q prev left right }
{
    match prev {
        None => {
            let row = [kind, k.class, k.word, q.0, 0, 0, left.0, right.0, 0, 0];
            put_row(ns, NODE_WIDTH, x.0, &row);
        }
        Some(p) => {
            let row = [kind, k.class, k.word, q.0, 1, p.0, left.0, right.0, 0, 0];
            put_row(ns, NODE_WIDTH, x.0, &row);
        }
    }
}

#[tactic(auto, unfolding(tables::specs::Records::new_record, tables::specs::Records::record_row, tables::specs::Records::entry_row))]
pub fn new_record(rs: &mut [u32], r: RecordNo, state: u32, filling: Filling)
    ensures { rs.new ≡ new_record rs.old r state filling }
{
    let a = filling.first;
    let b = filling.second;
    let c = filling.third;
    let d = filling.fourth;
    let row = [
        filling.count,
        state,
        filling.par.0,
        filling.old.0,
        filling.new.0,
        filling.seq.0,
        a.node.0,
        a.old.mark,
        a.old.info.0,
        a.mark,
        b.node.0,
        b.old.mark,
        b.old.info.0,
        b.mark,
        c.node.0,
        c.old.mark,
        c.old.info.0,
        c.mark,
        d.node.0,
        d.old.mark,
        d.old.info.0,
        d.mark,
    ];
    put_row(rs, RECORD_WIDTH, r.0, &row);
}
