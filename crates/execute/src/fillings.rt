// Line 102: the record filled with what the attempt found (lines 164 and 190).
ghost use Rattle.std.specs.Prelude.{◌≡◌};
ghost use Rattle.tables.specs.Records.{entry};
ghost use Rattle.steps.specs.Execute.{insert_filling, delete_filling, fill_insert, fill_delete, fills};

use shapes::{Decision, Effect, Entry, Filling, Kind, Locals, NodeNo, Place, Update};
use tables::{DELETE_LISTS, FLAG, INSERT_LISTS, MARK, ROOT};

// nodes[i], its old word, and MARK where it is to be marked.
// Stays: (a) the mark is a word of the lent tables (`shapes::Entry`).
fn entry_of(node: NodeNo, old: Update, mark: u32) -> Entry
    ensures { result ≡ entry node old mark }
{
    Entry { node, old, mark }
}

// Line 164.
#[tactic(auto, unfolding(steps::specs::Execute::insert_filling))]
fn insert_filling(v: Locals) -> Filling
    ensures { result ≡ insert_filling v }
{
    let none = entry_of(ROOT, hand::fresh_word(), FLAG);
    Filling {
        count: INSERT_LISTS,
        par: v.p,
        old: v.l,
        new: v.made,
        seq: v.seq,
        first: entry_of(v.p, v.pup, FLAG),
        second: entry_of(v.l, v.lup, MARK),
        third: none,
        fourth: none,
    }
}

// Line 190.
#[tactic(auto, unfolding(steps::specs::Execute::delete_filling))]
fn delete_filling(v: Locals, g: NodeNo) -> Filling
    ensures { result ≡ delete_filling v g }
{
    Filling {
        count: DELETE_LISTS,
        par: g,
        old: v.p,
        new: v.made,
        seq: v.seq,
        first: entry_of(g, v.gpup, FLAG),
        second: entry_of(v.p, v.pup, MARK),
        third: entry_of(v.l, v.lup, MARK),
        fourth: entry_of(v.sibling, v.sup, MARK),
    }
}

// Line 102 for an insert; p, which it lists, must be internal.
#[tactic(auto, unfolding(steps::specs::Execute::fill_insert, steps::specs::Hand::through))]
fn fill_insert(nodes: &[u32], v: Locals) -> Decision
    ensures { result ≡ fill_insert nodes.now v }
{
    let _p = fields::as_parent(nodes, Some(v.p))?;
    let filling = Effect::Fill(v.info, insert_filling(v));
    hand::decide_to(filling, hand::holding_record(v.info), Place::Freeze103)
}

// Line 102 for a delete; gp and p must be internal, and the copy of the kind that it copies.
#[tactic(auto, unfolding(steps::specs::Execute::fill_delete, steps::specs::Hand::through, laws::specs::Choice::pick))]
fn fill_delete(nodes: &[u32], v: Locals) -> Decision
    ensures { result ≡ fill_delete nodes.now v }
{
    let g = fields::as_parent(nodes, v.gp)?;
    let _p = fields::as_parent(nodes, Some(v.p))?;
    if fields::kind_at(nodes, v.made) != fields::kind_at(nodes, v.sibling) {
        return None;
    }
    let filling = Effect::Fill(v.info, delete_filling(v, g));
    hand::decide_to(filling, hand::holding_record(v.info), Place::Freeze103)
}

// A find executes nothing.
#[tactic(auto, unfolding(steps::specs::Execute::fills))]
pub fn fills(nodes: &[u32], o: Kind, v: Locals) -> Decision
    ensures { result ≡ fills nodes.now o v }
{
    match o {
        Kind::Insert => fill_insert(nodes, v),
        Kind::Delete => fill_delete(nodes, v),
        Kind::Find => None,
    }
}
