// EXECUTE (lines 92 to 106): what a turn in it decides.
#![tactic(auto)]

mod fillings; // line 102: what the record is filled with

ghost use Rattle.std.specs.Prelude.{◌≡◌};
ghost use Rattle.tables.specs.Records.{entry};
ghost use Rattle.steps.specs.Execute.{old_update, frozen97, state98, freeze103};

use crate::fillings::fills;
use hand::Shared;
use homes::listed;
use shapes::{Back, Decision, Effect, HelpStep, Kind, Locals, Place, Update};
use tables::FLAG;

// oldUpdate[i], from 1.
#[tactic(auto, unfolding(steps::specs::Execute::old_update, laws::specs::Choice::pick))]
fn old_update(o: Kind, v: Locals, i: u32) -> Update
    ensures { result ≡ old_update o v i }
{
    match (o, i) {
        (Kind::Insert, 1) => v.pup,
        (Kind::Insert, _) => v.lup,
        (Kind::Delete, 1) => v.gpup,
        (Kind::Delete, 2) => v.pup,
        (Kind::Delete, 3) => v.lup,
        (Kind::Delete, _) => v.sup,
        (Kind::Find, _) => v.up,
    }
}

// Lines 96 and 97; the last frozen test is followed by line 102.
#[tactic(auto, unfolding(steps::specs::Execute::frozen97, laws::specs::Choice::pick))]
pub fn frozen97(t: Shared<'_>, o: Kind, v: Locals) -> Decision
    ensures { result ≡ frozen97 t.entry.nodes.now t.entry.records.now o v }
{
    if hand::is_frozen(t.records, old_update(o, v, v.i)) {
        return hand::go_to(v, Place::State98);
    }
    if v.i < listed(o) {
        return hand::go_to(hand::with_i(v, v.i + 1), Place::Frozen97);
    }
    if fields::fillable(t.records, v.info) {
        fills(t.nodes, o, v)
    } else {
        None
    }
}

// Lines 98 and 99: the state is read a second time.
#[tactic(auto, unfolding(steps::specs::Execute::state98, laws::specs::Choice::pick))]
pub fn state98(records: &[u32], o: Kind, v: Locals) -> Decision
    ensures { result ≡ state98 records.now o v }
{
    let info = old_update(o, v, v.i).info;
    if fields::in_progress(fields::state_at(records, info)) {
        hand::help_then_retry(info)
    } else {
        hand::retry()
    }
}

// Lines 103 to 105: the CAS of nodes[1].
#[tactic(auto, unfolding(steps::specs::Execute::freeze103, laws::specs::Choice::pick))]
pub fn freeze103(t: Shared<'_>, v: Locals) -> Decision
    ensures { result ≡ freeze103 t.entry.nodes.now t.entry.records.now v }
{
    let info = v.info;
    if !fields::helpable(t.records, info) {
        return None;
    }
    let first = fields::entry_at(t.records, info, 1);
    if !fields::same_update(fields::update_at(t.nodes, first.node), first.old) {
        return hand::retry();
    }
    let frozen = Update { mark: FLAG, info };
    hand::decide_to(
        Effect::Freeze(first.node, frozen),
        hand::holding_record(info),
        Place::Help(HelpStep::Counter111, Back::Own),
    )
}
