// HELP (lines 107 to 128) with CAS-CHILD: what a turn in it comes to, for its four calls.
#![tactic(auto)]

mod freezing; // lines 111 to 122: a state, and the nodes frozen in order
mod linking; // lines 84 to 87 and 123 to 125: CAS-CHILD, and how the record ended

ghost use Rattle.std.specs.Prelude.{◌≡◌};
ghost use Rattle.steps.specs.Help.{help_step, help_of, back_to, help_next};
ghost use Rattle.hand.specs.Looks.{shared_of};

use crate::freezing::{counter111, freeze_cas, frozen119, state_cas, state114};
use crate::linking::{child123, state125};
use hand::Shared;
use shapes::{Answer, Back, Decision, Effect, HelpMove, HelpStep, Locals, Place, RecordNo};
use tables::{ABORT, COMMIT, TRY};

// One turn inside HELP, by the line it executes.
// Stays: (a) a step is data in a worker's hand, and no function may stand there: one match leads from it to its code.
#[tactic(auto, unfolding(steps::specs::Help::help_step))]
fn help_step(t: Shared<'_>, r: RecordNo, i: u32, b: HelpStep) -> Option<HelpMove>
    ensures { result ≡ help_step (shared_of t.entry) r i b }
{
    let (effect, next_i, next) = match b {
        HelpStep::Counter111 => return counter111(t, r),
        HelpStep::State114 => return state114(t.records, r),
        HelpStep::Frozen119 => return frozen119(t, r, i),
        HelpStep::State125 => return state125(t.records, r),
        HelpStep::State127 => {
            let done = fields::state_at(t.records, r) == COMMIT;
            return Some(HelpMove::Done(done));
        }
        HelpStep::Abort112 => (state_cas(t.records, r, ABORT), 0, HelpStep::State114),
        HelpStep::Try113 => (state_cas(t.records, r, TRY), 0, HelpStep::State114),
        HelpStep::Freeze117 => (freeze_cas(t, r, i), i, HelpStep::Frozen119),
        HelpStep::Child123 => (child123(t, r), 0, HelpStep::Commit124),
        HelpStep::Commit124 => (Effect::SetState(r, COMMIT), 0, HelpStep::State127),
        HelpStep::Abort126 => (Effect::SetState(r, ABORT), 0, HelpStep::State127),
    };
    Some(HelpMove::Goes(effect, next_i, next))
}

// Helping the dummy or an unfilled record is crooked in each turn.
#[tactic(auto, unfolding(steps::specs::Help::help_of, laws::specs::Choice::pick))]
pub fn help_of(t: Shared<'_>, r: RecordNo, i: u32, b: HelpStep) -> Option<HelpMove>
    ensures { result ≡ help_of (shared_of t.entry) r i b }
{
    if fields::helpable(t.records, r) {
        help_step(t, r, i, b)
    } else {
        None
    }
}

// Stays: (d) the cases are those of an enum: a function for each would be a table in place of this match.
#[tactic(auto, unfolding(steps::specs::Help::back_to, laws::specs::Choice::pick))]
fn back_to(b: Back, v: Locals, done: bool) -> Decision
    ensures { result ≡ back_to b v done }
{
    match b {
        Back::Own if done => hand::say(Answer::Yes),
        Back::Own | Back::Again => hand::retry(),
        Back::Node => hand::go_to(hand::at_node(v.seq, v.p), Place::Child141),
    }
}

#[tactic(auto, unfolding(steps::specs::Help::help_next))]
pub fn help_next(b: Back, v: Locals, m: Option<HelpMove>) -> Decision
    ensures { result ≡ help_next b v m }
{
    match m? {
        HelpMove::Goes(e, i, s) => hand::decide_to(e, hand::with_i(v, i), Place::Help(s, b)),
        HelpMove::Done(done) => back_to(b, v, done),
    }
}
