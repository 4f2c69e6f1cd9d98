// What is set by hand: totals, a worker's condition, one field of its hand, its counts.
use crate::places::Code;
use shapes::{Board, Locals, NodeNo, Operation, Phase, Place, RecordNo, Totals, Worker};
use tables::MOST_WORKERS;

// Stays: (d) a field by its number in the script: an enum of 25 names would be made in one place and matched in one.
#[derive(Clone, Copy)]
pub enum Setting {
    Total {
        field: u32,
        value: u32,
    },
    Operation {
        worker: u32,
        operation: Option<Operation>,
    },
    Hand {
        worker: u32,
        field: u32,
        value: u32,
    },
    Counts {
        worker: u32,
        pending: u32,
        found: u32,
    },
}

// Kinds as in a schedule; 0 is idle.
fn operation_of(kind: u32, place: u32, a: u32, b: u32) -> Option<Operation> {
    let place = Place::from(Code(place));
    let low = fields::key_of(a.cast_signed());
    let high = fields::key_of(b.cast_signed());
    match kind {
        1 => Some(Operation::Insert(low, place)),
        2 => Some(Operation::Delete(low, place)),
        3 => Some(Operation::Find(low, place)),
        4 => Some(Operation::Scan(low, high, place)),
        _ => None,
    }
}

// Fields 0 to 5: N, M, P, nodes used, records used, Counter.
fn set_total(totals: &mut Totals, field: u32, value: u32) {
    match field {
        0 => totals.n = value,
        1 => totals.m = value,
        2 => totals.p = value,
        3 => totals.nodes = value,
        4 => totals.records = value,
        5 => totals.counter = value,
        _ => {}
    }
}

// Field 0 the phase, 1 no gp, 2 gp, 3 p, 4 l; 5 to 14 the type and the record of gp's, p's, l's, the sibling's and VALIDATELINK's
// word; 15 the sibling, 16 what was made, 17 the record, 18 the place in a list.
fn set_field(hand: &mut Locals, field: u32, value: u32) {
    match field {
        0 => hand.seq = Phase(value),
        1 => hand.gp = None,
        2 => hand.gp = Some(NodeNo(value)),
        3 => hand.p = NodeNo(value),
        4 => hand.l = NodeNo(value),
        5 => hand.gpup.mark = value,
        6 => hand.gpup.info = RecordNo(value),
        7 => hand.pup.mark = value,
        8 => hand.pup.info = RecordNo(value),
        9 => hand.lup.mark = value,
        10 => hand.lup.info = RecordNo(value),
        11 => hand.sup.mark = value,
        12 => hand.sup.info = RecordNo(value),
        13 => hand.up.mark = value,
        14 => hand.up.info = RecordNo(value),
        15 => hand.sibling = NodeNo(value),
        16 => hand.made = NodeNo(value),
        17 => hand.info = RecordNo(value),
        18 => hand.i = value,
        _ => {}
    }
}

fn worker_mut(board: &mut Board, worker: u32) -> &mut Worker {
    &mut board.workers[(worker % MOST_WORKERS) as usize]
}

impl Setting {
    pub fn of_letter(letter: u8, [a, b, c, d, e]: [u32; 5]) -> Option<Setting> {
        match letter {
            b'b' => Some(Setting::Total { field: a, value: b }),
            b'o' => Some(Setting::Operation {
                worker: a,
                operation: operation_of(b, c, d, e),
            }),
            b'h' => Some(Setting::Hand {
                worker: a,
                field: b,
                value: c,
            }),
            b'c' => Some(Setting::Counts {
                worker: a,
                pending: b,
                found: c,
            }),
            _ => None,
        }
    }

    pub fn set(self, board: &mut Board) {
        match self {
            Setting::Total { field, value } => set_total(&mut board.totals, field, value),
            Setting::Operation { worker, operation } => {
                worker_mut(board, worker).operation = operation;
            }
            Setting::Hand {
                worker,
                field,
                value,
            } => set_field(&mut worker_mut(board, worker).hand, field, value),
            Setting::Counts {
                worker,
                pending,
                found,
            } => {
                let worker = worker_mut(board, worker);
                worker.pending = pending;
                worker.found = found;
            }
        }
    }
}
