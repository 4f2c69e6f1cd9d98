// The types of a schedule, and its numbers.
#![tactic(auto)]

// 01, 'Sizes': no schedule has more bytes.
pub const MOST_BYTES: usize = 65_536;

// The number that a command starts with.
// Stays: (d) an enum with these numbers would need a TryFrom that lists them once more, and each is read once and written once.
pub const INSERT: u32 = 1;

pub const DELETE: u32 = 2;

pub const FIND: u32 = 3;

pub const SCAN: u32 = 4;

pub const TURNS: u32 = 5;

// A command: its worker, then a key, two keys, or a count of turns.
#[derive(Clone, Copy, Debug, PartialEq, Eq)]
pub enum Command {
    Insert(u32, i32),
    Delete(u32, i32),
    Find(u32, i32),
    Scan(u32, i32, i32),
    Turns(u32, u32),
}

// Why nothing was written.
#[derive(Clone, Copy, Debug, PartialEq, Eq)]
pub enum Refusal {
    File,
    Size,
}
