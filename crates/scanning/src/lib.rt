// What a scan's turn decides, by its place; and a turn inside HELP, which attempts have too.
#![tactic(auto)]

ghost use Rattle.std.specs.Prelude.{◌≡◌};
ghost use Rattle.steps.specs.Help.{help_of, help_next};
ghost use Rattle.steps.specs.Decide.{scan};
ghost use Rattle.hand.specs.Looks.{shared_of, lists_of};

use hand::{Lists, Range, Shared};
use shapes::{Back, Decision, HelpStep, Key, Locals, Phase, Place};

// Inside HELP an attempt and a scan do the same.
pub fn decide_help(t: Shared<'_>, v: Locals, b: HelpStep, c: Back) -> Decision
    ensures { result ≡ help_next c v (help_of (shared_of t.entry) v.info v.i b) }
{
    let came = help::help_of(t, v.info, v.i, b);
    help::help_next(c, v, came)
}

// A scan; at an attempt's place it is crooked.
// Stays: (a) a place is data in a worker's hand, and no function may stand there: one match leads from it to its code.
#[tactic(auto, unfolding(steps::specs::Decide::scan))]
pub fn decide_scan(
    t: Shared<'_>,
    lists: Lists,
    low: Key,
    high: Key,
    v: Locals,
    q: Place,
) -> Decision
    ensures { result ≡ scan (shared_of t.entry) (lists_of lists) low high v q }
{
    let seq = v.seq;
    let range = Range { low, high, seq };
    match q {
        Place::Help(b, c) => decide_help(t, v, b, c),
        Place::Counter130 => hand::go_to(hand::at_root(Phase(t.totals.counter)), Place::Bump131),
        Place::Bump131 => sweep::bump131(t.totals, v),
        Place::Word139 => sweep::word139(t.nodes, v),
        Place::State140 => sweep::state140(t.records, v),
        Place::Child141 => sweep::child141(t, range, lists, v),
        Place::Left144 => sweep::left144(t, range, lists),
        Place::Counter74
        | Place::Search39
        | Place::Link(_, _)
        | Place::Word66
        | Place::Grand66
        | Place::Leaf164
        | Place::Sibling182
        | Place::CopyLeft
        | Place::CopyRight
        | Place::Word189
        | Place::Leaf190
        | Place::Frozen97
        | Place::State98
        | Place::Freeze103 => None,
    }
}
