// One line obeyed, on what is kept and what is lent.
ghost use Rattle.std.specs.Prelude.{◌≤◌, length};

use crate::command::Command;
use crate::lists::{Lent, Lists};
use crate::telling::say;
use shapes::{Board, Totals};
use tables::MOST_WORKERS;

// What can be lent: as much as one node and one record more than the largest sizes need, with one worker.
const NODES: usize = 10_250;

const RECORDS: usize = 11_286;

const PLACES: usize = 1_025;

const WORKERS: usize = MOST_WORKERS as usize;

// What `keep` keeps.
#[derive(Clone, Copy)]
struct Tables {
    board: Board,
    lent: Lent,
    nodes: [u32; NODES],
    records: [u32; RECORDS],
    pending: [u32; PLACES],
}

// Found keys and listed keys are only written, so they are not kept.
#[derive(Drop)]
pub struct Desk {
    tables: Tables,
    kept: Tables,
    found: [i32; PLACES],
    keys: [i32; PLACES],
}

// No more than there is.
fn part<T>(list: &mut [T], asked: u32) -> &mut [T]
    ensures { length result.now ≤ length list.old }
{
    let size = (asked as usize).min(list.len());
    &mut list[..size]
}

fn no_board() -> Board {
    Board {
        totals: Totals {
            n: 0,
            m: 0,
            p: 0,
            nodes: 0,
            records: 0,
            counter: 0,
        },
        workers: [fields::idle(); WORKERS],
    }
}

impl Desk {
    // Nothing is lent, and no table made.
    pub fn bare() -> Desk {
        let tables = Tables {
            board: no_board(),
            lent: Lent::default(),
            nodes: [0; NODES],
            records: [0; RECORDS],
            pending: [0; PLACES],
        };
        Desk {
            tables,
            kept: tables,
            found: [0; PLACES],
            keys: [0; PLACES],
        }
    }

    // What is lent of the lists.
    fn lists(&mut self) -> Lists<'_> {
        let Desk {
            tables,
            found,
            keys,
            ..
        } = self;
        let Tables {
            lent,
            nodes,
            records,
            pending,
            ..
        } = tables;
        Lists {
            tables: lending::Lent {
                nodes: part(nodes, lent.nodes),
                records: part(records, lent.records),
                pending: part(pending, lent.pending),
                found: part(found, lent.found),
            },
            keys: part(keys, lent.keys),
        }
    }

    pub fn obey(&mut self, rt: &impl Print, line: &[u8]) {
        match Command::from(line) {
            Command::Remark => {
                say(rt, line);
                say(rt, b"\n");
            }
            Command::Keep => self.kept = self.tables,
            Command::Undo => self.tables = self.kept,
            Command::Lend(lent) => self.tables.lent = lent,
            Command::Put(put) => self.lists().put(put),
            Command::Set(setting) => setting.set(&mut self.tables.board),
            Command::Call(call) => {
                let board = self.tables.board;
                self.tables.board = call.make_and_tell(rt, line, board, &mut self.lists());
            }
        }
    }
}
