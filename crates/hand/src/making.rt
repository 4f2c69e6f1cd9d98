// Hands made anew.
ghost use Rattle.std.specs.Prelude.{◌≡◌};
ghost use Rattle.tables.specs.Names.{fresh_word};
ghost use Rattle.steps.specs.Hand.{at_root, at_node, at_word, holding};

use shapes::{Locals, NodeNo, Phase, RecordNo, Update};
use tables::{DUMMY, FLAG, ROOT};

pub fn fresh_word() -> Update
    ensures { result ≡ fresh_word }
{
    Update {
        mark: FLAG,
        info: DUMMY,
    }
}

// A scan at a node with the record of its word; the hands below are made by it.
pub fn at_word(seq: Phase, x: NodeNo, r: RecordNo) -> Locals
    ensures { result ≡ at_word seq x r }
{
    let none = ROOT;
    let word = fresh_word();
    Locals {
        seq,
        gp: None,
        p: x,
        l: none,
        gpup: word,
        pup: word,
        lup: word,
        sup: word,
        up: word,
        sibling: none,
        made: none,
        info: r,
        i: 0,
    }
}

pub fn at_root(seq: Phase) -> Locals
    ensures { result ≡ at_root seq }
{
    at_word(seq, ROOT, DUMMY)
}

pub fn at_node(seq: Phase, x: NodeNo) -> Locals
    ensures { result ≡ at_node seq x }
{
    at_word(seq, x, DUMMY)
}

pub fn holding_record(r: RecordNo) -> Locals
    ensures { result ≡ holding r }
{
    at_word(Phase(0), ROOT, r)
}
