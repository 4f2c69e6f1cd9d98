// Lines 111 to 122: the handshake, then each node of the list frozen in order.
ghost use Rattle.std.specs.Prelude.{◌≡◌};
ghost use Rattle.steps.specs.Help.{reads, counter111, state_cas, state114, freeze_cas, frozen119};

use hand::Shared;
use shapes::{Effect, HelpMove, HelpStep, RecordNo, Update};
use tables::{TRY, UNDECIDED};

// Where HELP begins in the list: line 103 froze nodes[1].
const SECOND: u32 = 2;

// On to a step with no effect, outside the list.
pub fn reads(s: HelpStep) -> Option<HelpMove>
    ensures { result ≡ reads s }
{
    Some(HelpMove::Goes(Effect::Nothing, 0, s))
}

// Line 111: the handshake.
#[tactic(auto, unfolding(steps::specs::Help::counter111, laws::specs::Choice::pick))]
pub fn counter111(t: Shared<'_>, r: RecordNo) -> Option<HelpMove>
    ensures { result ≡ counter111 t.entry.totals t.entry.records.now r }
{
    let seq = fields::seq_at(t.records, r);
    if t.totals.counter == seq.0 {
        reads(HelpStep::Try113)
    } else {
        reads(HelpStep::Abort112)
    }
}

// Lines 112 and 113.
// Stays: (a) the state is a word of the lent tables (`shapes::Effect`).
#[tactic(auto, unfolding(steps::specs::Help::state_cas, laws::specs::Choice::pick))]
pub fn state_cas(records: &[u32], r: RecordNo, s: u32) -> Effect
    ensures { result ≡ state_cas records.now r s }
{
    if fields::state_at(records, r) == UNDECIDED {
        Effect::SetState(r, s)
    } else {
        Effect::Nothing
    }
}

// Lines 114 and 115.
#[tactic(auto, unfolding(steps::specs::Help::state114, laws::specs::Choice::pick))]
pub fn state114(records: &[u32], r: RecordNo) -> Option<HelpMove>
    ensures { result ≡ state114 records.now r }
{
    if fields::state_at(records, r) == TRY {
        Some(HelpMove::Goes(Effect::Nothing, SECOND, HelpStep::Freeze117))
    } else {
        reads(HelpStep::State125)
    }
}

// Lines 116 to 118: the CAS of nodes[i].
#[tactic(auto, unfolding(steps::specs::Help::freeze_cas, laws::specs::Choice::pick))]
pub fn freeze_cas(t: Shared<'_>, r: RecordNo, i: u32) -> Effect
    ensures { result ≡ freeze_cas t.entry.nodes.now t.entry.records.now r i }
{
    let e = fields::entry_at(t.records, r, i);
    if !fields::same_update(fields::update_at(t.nodes, e.node), e.old) {
        return Effect::Nothing;
    }
    let frozen = Update {
        mark: e.mark,
        info: r,
    };
    Effect::Freeze(e.node, frozen)
}

// Lines 119 and 120, then 115 or 122.
#[tactic(auto, unfolding(steps::specs::Help::frozen119, tables::specs::Names::same_record, laws::specs::Choice::pick))]
pub fn frozen119(t: Shared<'_>, r: RecordNo, i: u32) -> Option<HelpMove>
    ensures { result ≡ frozen119 t.entry.nodes.now t.entry.records.now r i }
{
    let e = fields::entry_at(t.records, r, i);
    let word = fields::update_at(t.nodes, e.node);
    if word.info != r {
        return reads(HelpStep::State125);
    }
    if i < fields::count_at(t.records, r) {
        Some(HelpMove::Goes(Effect::Nothing, i + 1, HelpStep::Freeze117))
    } else {
        reads(HelpStep::Child123)
    }
}
