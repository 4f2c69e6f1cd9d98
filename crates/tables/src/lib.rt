// The numbers of 01 and the report, each with its name.
#![tactic(auto)]

use shapes::{NodeNo, RecordNo};

// 01, 'Sizes'.
pub const LEAST_NODES: u32 = 8;

pub const MOST_NODES: u32 = 1024;

pub const LEAST_RECORDS: u32 = 2;

pub const MOST_RECORDS: u32 = 512;

pub const LEAST_WORKERS: u32 = 1;

pub const MOST_WORKERS: u32 = 8;

pub const LAST_PHASE: u32 = 65535;

// The words of a row.
pub const NODE_WIDTH: u32 = 10;

pub const RECORD_WIDTH: u32 = 22;

// What stands in fresh tables: the Root and its two leaves, and the dummy.
pub const ROOT: NodeNo = NodeNo(0);

pub const DUMMY: RecordNo = RecordNo(0);

pub const FRESH_NODES: u32 = 3;

pub const FRESH_RECORDS: u32 = 1;

// The nodes that an attempt takes: a leaf, its sibling and their parent (lines 161 to 163), or a copy (line 185).
pub const INSERT_TAKES: u32 = 3;

pub const DELETE_TAKES: u32 = 1;

// The nodes that its record lists (lines 164 and 190).
pub const INSERT_LISTS: u32 = 2;

pub const DELETE_LISTS: u32 = 4;

// Kinds of nodes.
// Stays: (a) these stand as words in the lent tables, where spoiled ones hold others; the types and states below too.
pub const LEAF: u32 = 0;

pub const INTERNAL: u32 = 1;

// Types of update words (line 2).
pub const FLAG: u32 = 0;

pub const MARK: u32 = 1;

// States of records (line 6).
pub const UNDECIDED: u32 = 0;

pub const TRY: u32 = 1;

pub const COMMIT: u32 = 2;

pub const ABORT: u32 = 3;
