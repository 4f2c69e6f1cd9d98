// One thing more taken into a hand.
ghost use Rattle.std.specs.Prelude.{◌≡◌};
ghost use Rattle.steps.specs.Hand.{down_to, with_leaf, with_up, with_pup, with_gpup, with_sup, with_lup, with_sibling, with_taken, with_i};

use shapes::{Locals, NodeNo, RecordNo, Update};

// Lines 37 and 38.
pub fn down_to(v: Locals, c: NodeNo) -> Locals
    ensures { result ≡ down_to v c }
{
    Locals {
        gp: Some(v.p),
        p: c,
        ..v
    }
}

pub fn with_leaf(v: Locals, c: NodeNo) -> Locals
    ensures { result ≡ with_leaf v c }
{
    Locals { l: c, ..v }
}

pub fn with_up(v: Locals, u: Update) -> Locals
    ensures { result ≡ with_up v u }
{
    Locals { up: u, ..v }
}

pub fn with_pup(v: Locals, u: Update) -> Locals
    ensures { result ≡ with_pup v u }
{
    Locals { pup: u, ..v }
}

pub fn with_gpup(v: Locals, u: Update) -> Locals
    ensures { result ≡ with_gpup v u }
{
    Locals { gpup: u, ..v }
}

pub fn with_sup(v: Locals, u: Update) -> Locals
    ensures { result ≡ with_sup v u }
{
    Locals { sup: u, ..v }
}

// The leaf's own word; EXECUTE begins with i = 1.
pub fn with_lup(v: Locals, u: Update) -> Locals
    ensures { result ≡ with_lup v u }
{
    Locals { lup: u, i: 1, ..v }
}

pub fn with_sibling(v: Locals, c: NodeNo) -> Locals
    ensures { result ≡ with_sibling v c }
{
    Locals { sibling: c, ..v }
}

pub fn with_taken(v: Locals, c: NodeNo, r: RecordNo) -> Locals
    ensures { result ≡ with_taken v c r }
{
    Locals {
        made: c,
        info: r,
        ..v
    }
}

pub fn with_i(v: Locals, k: u32) -> Locals
    ensures { result ≡ with_i v k }
{
    Locals { i: k, ..v }
}
