// The decisions that leave a worker's lists alone.
ghost use Rattle.std.specs.Prelude.{◌≡◌};
ghost use Rattle.steps.specs.Hand.{does, goes, says, retries, helps};

use crate::making::holding_record;
use fields::blank;
use shapes::{
    Answer, Back, Decision, Effect, HelpStep, Locals, Next, PendingChange, Place, RecordNo, Step,
};

pub fn decide_to(e: Effect, v: Locals, q: Place) -> Decision
    ensures { result ≡ does e v q }
{
    Some(Step {
        effect: e,
        hand: v,
        pending: PendingChange::Keep,
        found: None,
        next: Next::At(q),
    })
}

pub fn go_to(v: Locals, q: Place) -> Decision
    ensures { result ≡ goes v q }
{
    decide_to(Effect::Nothing, v, q)
}

pub fn say(a: Answer) -> Decision
    ensures { result ≡ says a }
{
    Some(Step {
        effect: Effect::Nothing,
        hand: blank(),
        pending: PendingChange::Keep,
        found: None,
        next: Next::Answers(a),
    })
}

pub fn retry() -> Decision
    ensures { result ≡ retries }
{
    go_to(blank(), Place::Counter74)
}

pub fn help_then_retry(r: RecordNo) -> Decision
    ensures { result ≡ helps r }
{
    go_to(
        holding_record(r),
        Place::Help(HelpStep::Counter111, Back::Again),
    )
}
