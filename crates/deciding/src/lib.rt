// What a turn decides: by the operation, then by its place.
#![tactic(auto)]

ghost use Rattle.std.specs.Prelude.{◌≡◌};
ghost use Rattle.steps.specs.Decide.{attempt, decide};
ghost use Rattle.hand.specs.Looks.{shared_of, lists_of};

use hand::{Lists, Shared};
use shapes::{Decision, Key, Kind, Locals, Operation, Phase, Place};

const LEFT: bool = true;

const RIGHT: bool = false;

// An insert, a delete or a find; at a scan's place it is crooked.
// Stays: (a) a place is data in a worker's hand, and no function may stand there: one match leads from it to its code.
#[tactic(auto, unfolding(steps::specs::Decide::attempt))]
fn decide_attempt(t: Shared<'_>, kind: Kind, k: Key, v: Locals, q: Place) -> Decision
    ensures { result ≡ attempt (shared_of t.entry) kind k v q }
{
    match q {
        Place::Counter74 => hand::go_to(hand::at_root(Phase(t.totals.counter)), Place::Search39),
        Place::Search39 => seek::search39(t, k, v),
        Place::Link(a, b) => links::link_step(t, k, v, a, b),
        Place::Word66 => attempts::word66(t, kind, k, v),
        Place::Grand66 => attempts::grand66(t, kind, k, v),
        Place::Leaf164 | Place::Leaf190 => attempts::leaf_word(t.nodes, v),
        Place::Sibling182 => links::sibling182(t, v),
        Place::CopyLeft => taking::copy_word(t.nodes, v, LEFT),
        Place::CopyRight => taking::copy_word(t.nodes, v, RIGHT),
        Place::Word189 => attempts::word189(t.nodes, v),
        Place::Frozen97 => execute::frozen97(t, kind, v),
        Place::State98 => execute::state98(t.records, kind, v),
        Place::Freeze103 => execute::freeze103(t, v),
        Place::Help(b, c) => scanning::decide_help(t, v, b, c),
        Place::Counter130
        | Place::Bump131
        | Place::Word139
        | Place::State140
        | Place::Child141
        | Place::Left144 => None,
    }
}

#[tactic(auto, unfolding(steps::specs::Decide::decide))]
pub fn decide(t: Shared<'_>, lists: Lists, o: Operation, v: Locals) -> Decision
    ensures { result ≡ decide (shared_of t.entry) (lists_of lists) o v }
{
    match o {
        Operation::Insert(k, q) => decide_attempt(t, Kind::Insert, k, v, q),
        Operation::Delete(k, q) => decide_attempt(t, Kind::Delete, k, v, q),
        Operation::Find(k, q) => decide_attempt(t, Kind::Find, k, v, q),
        Operation::Scan(low, high, q) => scanning::decide_scan(t, lists, low, high, v, q),
    }
}
