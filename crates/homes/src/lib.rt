// Which places belong to which operation, and which of them stand in a list.
#![tactic(auto)]

ghost use Rattle.std.specs.Prelude.{◌≡◌};
ghost use Rattle.sound.specs.Homes.{listed, link_home, back_home, attempt_home, scan_home, in_list};

use shapes::{Back, HelpStep, Kind, Link, Place};
use tables::{DELETE_LISTS, INSERT_LISTS};

// How many nodes the operation's record lists (lines 164 and 190).
#[tactic(auto, unfolding(sound::specs::Homes::listed))]
pub fn listed(o: Kind) -> u32
    ensures { result ≡ listed o }
{
    match o {
        Kind::Insert => INSERT_LISTS,
        Kind::Delete => DELETE_LISTS,
        Kind::Find => 0,
    }
}

#[tactic(auto, unfolding(sound::specs::Homes::link_home, sound::specs::Homes::is_delete))]
fn link_home(o: Kind, a: Link) -> bool
    ensures { result ≡ link_home o a }
{
    match a {
        Link::Leaf64 | Link::Parent65 => true,
        Link::Sibling183 | Link::Left187 | Link::Right188 => matches!(o, Kind::Delete),
    }
}

#[tactic(auto, unfolding(sound::specs::Homes::back_home, sound::specs::Homes::is_update))]
fn back_home(o: Kind, b: Back) -> bool
    ensures { result ≡ back_home o b }
{
    match b {
        Back::Own => matches!(o, Kind::Insert | Kind::Delete),
        Back::Again => true,
        Back::Node => false,
    }
}

// The places of an insert, a delete or a find.
#[tactic(auto, unfolding(sound::specs::Homes::attempt_home, sound::specs::Homes::is_insert, sound::specs::Homes::is_delete, sound::specs::Homes::is_update))]
pub fn attempt_home(o: Kind, q: Place) -> bool
    ensures { result ≡ attempt_home o q }
{
    match q {
        Place::Counter74 | Place::Search39 | Place::Word66 | Place::Grand66 => true,
        Place::Link(a, _) => link_home(o, a),
        Place::Leaf164 => matches!(o, Kind::Insert),
        Place::Sibling182 | Place::CopyLeft | Place::CopyRight | Place::Word189 | Place::Leaf190 =>
            matches!(o, Kind::Delete),
        Place::Frozen97 | Place::State98 | Place::Freeze103 => matches!(
            o,
            Kind::Insert | Kind::Delete
        ),
        Place::Help(_, b) => back_home(o, b),
        Place::Counter130
        | Place::Bump131
        | Place::Word139
        | Place::State140
        | Place::Child141
        | Place::Left144 => false,
    }
}

// The places of a scan.
#[tactic(auto, unfolding(sound::specs::Homes::scan_home, sound::specs::Homes::is_node))]
pub fn scan_home(q: Place) -> bool
    ensures { result ≡ scan_home q }
{
    match q {
        Place::Counter130
        | Place::Bump131
        | Place::Word139
        | Place::State140
        | Place::Child141
        | Place::Left144 => true,
        Place::Help(_, b) => matches!(b, Back::Node),
        Place::Link(_, _) => false,
        Place::Counter74
        | Place::Search39
        | Place::Word66
        | Place::Grand66
        | Place::Leaf164
        | Place::Sibling182
        | Place::CopyLeft
        | Place::CopyRight
        | Place::Word189
        | Place::Leaf190
        | Place::Frozen97
        | Place::State98
        | Place::Freeze103 => false,
    }
}

// The steps of HELP at a place in the record's list.
#[tactic(auto, unfolding(sound::specs::Homes::in_list))]
pub fn in_list(s: HelpStep) -> bool
    ensures { result ≡ in_list s }
{
    matches!(s, HelpStep::Freeze117 | HelpStep::Frozen119)
}
