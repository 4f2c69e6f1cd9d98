// All that is lent, and all that is kept, stirred into one number each: what is the same before and after gives the same number.
use crate::lists::Lists;
use crate::places::place_number;
use shapes::{Board, Locals, NodeNo, Operation, Worker};

const FACTOR: u64 = 31;

// The greatest prime of 32 bits.
const PRIME: u64 = 4_294_967_291;

pub fn stir(sum: u32, word: u32) -> u32 {
    ((u64::from(sum) * FACTOR + u64::from(word)) % PRIME) as u32
}

fn stir_all(sum: u32, words: &[u32]) -> u32 {
    words.iter().copied().fold(sum, stir)
}

// A signed number goes in by the code by which a schedule sends it.
fn stir_keys(sum: u32, keys: &[i32]) -> u32 {
    keys.iter()
        .fold(sum, |all, key| stir(all, groups::code(*key)))
}

// A list at a time: one fold over the lists chained takes half as long again.
pub fn of_lists(lists: &Lists<'_>) -> u32 {
    let tables = &lists.tables;
    let shared = stir_all(stir_all(0, tables.nodes), tables.records);
    let listed = stir_keys(stir_all(shared, tables.pending), tables.found);
    stir_keys(listed, lists.keys)
}

fn stir_maybe(sum: u32, node: Option<NodeNo>) -> u32 {
    match node {
        None => stir(sum, 0),
        Some(node) => stir_all(sum, &[1, node.0]),
    }
}

fn stir_hand(sum: u32, hand: Locals) -> u32 {
    let above = stir_maybe(stir(sum, hand.seq.0), hand.gp);
    let path = stir_all(above, &[hand.p.0, hand.l.0]);
    let read = [hand.gpup, hand.pup, hand.lup, hand.sup, hand.up]
        .iter()
        .fold(path, |all, update| {
            stir_all(all, &[update.mark, update.info.0])
        });
    let last = [hand.sibling.0, hand.made.0, hand.info.0, hand.i];
    stir_all(read, &last)
}

// Kind, keys, place. All but a scan have one key, which goes in twice.
fn stir_operation(sum: u32, operation: Option<Operation>) -> u32 {
    let (kind, low, high, place) = match operation {
        None => return stir(sum, 0),
        Some(Operation::Insert(key, place)) => (1, key, key, place),
        Some(Operation::Delete(key, place)) => (2, key, key, place),
        Some(Operation::Find(key, place)) => (3, key, key, place),
        Some(Operation::Scan(low, high, place)) => (4, low, high, place),
    };
    stir_all(sum, &[kind, low.0, high.0, place_number(place)])
}

fn stir_worker(sum: u32, worker: &Worker) -> u32 {
    let held = stir_hand(stir_operation(sum, worker.operation), worker.hand);
    stir_all(held, &[worker.pending, worker.found])
}

pub fn of_board(board: &Board) -> u32 {
    let t = board.totals;
    let totals = stir_all(0, &[t.n, t.m, t.p, t.nodes, t.records, t.counter]);
    board.workers.iter().fold(totals, stir_worker)
}
