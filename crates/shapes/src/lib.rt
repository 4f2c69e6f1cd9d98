// The types of the lap index: what stands in the tables, what a worker holds, what a turn decides.
#![tactic(auto)]

// Numbers that are never taken for one another: the report's Node pointer, Info pointer and seq.
#[derive(Clone, Copy, PartialEq, Eq)]
pub struct NodeNo(pub u32);

#[derive(Clone, Copy, PartialEq, Eq)]
pub struct RecordNo(pub u32);

#[derive(Clone, Copy)]
pub struct Phase(pub u32);

// A finite key k as k + 2^31, so that the order of keys is the order of numbers.
#[derive(Clone, Copy)]
pub struct Key(pub u32);

// The key of a node: class 0 a finite key, 1 is ∞1, 2 is ∞2; the word of an infinite key is 0.
// Stays: (a) a word of the lent tables: spoiled ones may hold any number, and `nodes::rank_at` promises it as it stands.
#[derive(Clone, Copy)]
pub struct Rank {
    pub class: u32,
    pub word: u32,
}

// An update word (lines 1 to 4): mark 0 is FLAG, 1 is MARK.
// Stays: (a) a word of the lent tables: spoiled ones may hold any number, and `nodes::update_at` promises it as it stands.
#[derive(Clone, Copy, PartialEq, Eq)]
pub struct Update {
    pub mark: u32,
    pub info: RecordNo,
}

// ---- workers

// What an operation has in hand at its place; what it has not read yet is 0, a grandparent None.
// A scan has its phase, its node as p, and the record and place of HELP.
#[derive(Clone, Copy)]
pub struct Locals {
    pub seq: Phase,
    pub gp: Option<NodeNo>,
    pub p: NodeNo,
    pub l: NodeNo,
    pub gpup: Update,
    pub pup: Update,
    pub lup: Update,
    pub sup: Update,
    pub up: Update,
    pub sibling: NodeNo,
    pub made: NodeNo,
    pub info: RecordNo,
    pub i: u32,
}

// The calls of VALIDATELINK, by their lines.
#[derive(Clone, Copy)]
pub enum Link {
    Leaf64,
    Parent65,
    Sibling183,
    Left187,
    Right188,
}

// Inside VALIDATELINK: the update word, the frozen test, the child word.
#[derive(Clone, Copy)]
pub enum LinkStep {
    Word52,
    State53,
    Child57,
}

// Inside HELP; Freeze117 stands for line 118 too, Child123 for lines 85 and 87.
#[derive(Clone, Copy)]
pub enum HelpStep {
    Counter111,
    Abort112,
    Try113,
    State114,
    Freeze117,
    Frozen119,
    Child123,
    Commit124,
    State125,
    Abort126,
    State127,
}

// Where HELP returns to: line 104, a new attempt (lines 54 and 98), or the scan's node (line 140).
#[derive(Clone, Copy)]
pub enum Back {
    Own,
    Again,
    Node,
}

// What the next turn does, by the line of the report that it executes.
#[derive(Clone, Copy)]
pub enum Place {
    Counter74,
    Search39,
    Link(Link, LinkStep),
    Word66,
    Grand66,
    Leaf164,
    Sibling182,
    CopyLeft,
    CopyRight,
    Word189,
    Leaf190,
    Frozen97,
    State98,
    Freeze103,
    Help(HelpStep, Back),
    Counter130,
    Bump131,
    Word139,
    State140,
    Child141,
    Left144,
}

#[derive(Clone, Copy)]
pub enum Operation {
    Insert(Key, Place),
    Delete(Key, Place),
    Find(Key, Place),
    Scan(Key, Key, Place),
}

// Idle where it holds no operation. The counts are of the worker's pending nodes and found keys, which stand in lists of their own.
#[derive(Clone, Copy)]
pub struct Worker {
    pub operation: Option<Operation>,
    pub hand: Locals,
    pub pending: u32,
    pub found: u32,
}

// ---- the board: what is kept beside the lent tables

// N, M and P, the nodes and records used, and Counter.
#[derive(Clone, Copy)]
pub struct Totals {
    pub n: u32,
    pub m: u32,
    pub p: u32,
    pub nodes: u32,
    pub records: u32,
    pub counter: u32,
}

#[derive(Clone, Copy)]
pub struct Board {
    pub totals: Totals,
    pub workers: [Worker; 8],
}

// ---- answers

// Keys holds how many; they stand in the worker's found list.
#[derive(Clone, Copy)]
pub enum Answer {
    Yes,
    No,
    Keys(u32),
    NoRoom,
    NoPhase,
}

// The refusals of a call on tables, by name and number; 6 is a lap's.
#[derive(Clone, Copy)]
pub enum Refusal {
    Table = 1,
    Size = 2,
    Worker = 3,
    Busy = 4,
    Idle = 5,
    Crooked = 7,
}

// What a start or a turn comes to: a refusal, an answer, or none yet.
pub type Outcome = Result<Option<Answer>, Refusal>;

// What a call answers: the board as it leaves it, and what it came to.
#[derive(Clone, Copy)]
pub struct Reply {
    pub board: Board,
    pub outcome: Outcome,
}

// What a run of turns answers, with the turns taken.
#[derive(Clone, Copy)]
pub struct Run {
    pub board: Board,
    pub outcome: Outcome,
    pub turns: u32,
}

// ---- what a turn decides

// The operations that make attempts.
#[derive(Clone, Copy)]
pub enum Kind {
    Insert,
    Delete,
    Find,
}

// One node of a record: nodes[i], oldUpdate[i], and 1 where nodes[i] appears in mark.
// Stays: (a) a word of the lent tables: spoiled ones may hold any number, and `records::entry_at` promises it as it stands.
#[derive(Clone, Copy)]
pub struct Entry {
    pub node: NodeNo,
    pub old: Update,
    pub mark: u32,
}

// All that line 102 puts into a record.
#[derive(Clone, Copy)]
pub struct Filling {
    pub count: u32,
    pub par: NodeNo,
    pub old: NodeNo,
    pub new: NodeNo,
    pub seq: Phase,
    pub first: Entry,
    pub second: Entry,
    pub third: Entry,
    pub fourth: Entry,
}

// All that other workers can notice of a turn.
// Stays: (a) a state is a word of the lent tables, and `effects::apply` promises to write any.
#[derive(Clone, Copy)]
pub enum Effect {
    Nothing,
    Bump,
    TakeThree(Key, NodeNo, Phase),
    TakeCopy(NodeNo, NodeNo, Phase),
    CopyChild(NodeNo, bool, NodeNo),
    Fill(RecordNo, Filling),
    Freeze(NodeNo, Update),
    SetState(RecordNo, u32),
    Link(NodeNo, bool, NodeNo),
}

#[derive(Clone, Copy)]
pub enum PendingChange {
    Keep,
    Push(NodeNo),
    Pop,
}

#[derive(Clone, Copy)]
pub enum Next {
    At(Place),
    Answers(Answer),
}

// A key found is added to the worker's list.
#[derive(Clone, Copy)]
pub struct Step {
    pub effect: Effect,
    pub hand: Locals,
    pub pending: PendingChange,
    pub found: Option<Key>,
    pub next: Next,
}

// None where the tables are crooked: the turn cannot be taken.
pub type Decision = Option<Step>;

// What a turn inside VALIDATELINK comes to, where it is not crooked.
#[derive(Clone, Copy)]
pub enum LinkMove {
    Goes(LinkStep, Update),
    Helps(RecordNo),
    Fails,
    Holds,
}

// What a turn inside HELP comes to, where it is not crooked: its effect, the place in the list and the next step, or what HELP returns.
#[derive(Clone, Copy)]
pub enum HelpMove {
    Goes(Effect, u32, HelpStep),
    Done(bool),
}
