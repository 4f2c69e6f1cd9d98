// Lines 131, 139 and 140: the phase is taken; at a node, what is in progress is helped.
ghost use Rattle.std.specs.Prelude.{◌≡◌};
ghost use Rattle.steps.specs.Scan.{bump131, word139, state140};

use fields::{as_parent, in_progress, state_at, update_at};
use hand::{at_node, at_root, at_word, decide_to, go_to, say};
use shapes::{Answer, Back, Decision, Effect, HelpStep, Locals, Place, Totals};
use tables::LAST_PHASE;

// Line 131; no phase when Counter stands at its last value.
#[tactic(auto, unfolding(steps::specs::Scan::bump131, laws::specs::Choice::pick))]
pub fn bump131(totals: Totals, v: Locals) -> Decision
    ensures { result ≡ bump131 totals v }
{
    if totals.counter < LAST_PHASE {
        return decide_to(Effect::Bump, at_root(v.seq), Place::Word139);
    }
    say(Answer::NoPhase)
}

// Line 139: the node's update word.
#[tactic(auto, unfolding(steps::specs::Scan::word139, steps::specs::Hand::through))]
pub fn word139(nodes: &[u32], v: Locals) -> Decision
    ensures { result ≡ word139 nodes.now v }
{
    let x = as_parent(nodes, Some(v.p))?;
    let word = update_at(nodes, x);
    go_to(at_word(v.seq, x, word.info), Place::State140)
}

// Line 140: HELP what is in progress.
#[tactic(auto, unfolding(steps::specs::Scan::state140, laws::specs::Choice::pick))]
pub fn state140(records: &[u32], v: Locals) -> Decision
    ensures { result ≡ state140 records.now v }
{
    if in_progress(state_at(records, v.info)) {
        return go_to(
            at_word(v.seq, v.p, v.info),
            Place::Help(HelpStep::Counter111, Back::Node),
        );
    }
    go_to(at_node(v.seq, v.p), Place::Child141)
}
