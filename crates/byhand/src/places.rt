// Places by code: the line of the report; 67 is line 66 on gp's word, 185 and 186 copy the left and the right child.
// Inside VALIDATELINK a thousand times its line and the step's, inside HELP ten times the step's line and where it returns to.
use crate::digest::stir;
use shapes::{Back, HelpStep, Link, LinkStep, Place};

const LINKS: u32 = 1_000;

const LEAST_LINK: u32 = 10_000;

const HELPS: u32 = 10;

const LEAST_HELP: u32 = 1_000;

#[derive(Clone, Copy)]
pub struct Code(pub u32);

impl From<Code> for Link {
    fn from(code: Code) -> Link {
        match code.0 {
            64 => Link::Leaf64,
            65 => Link::Parent65,
            183 => Link::Sibling183,
            187 => Link::Left187,
            _ => Link::Right188,
        }
    }
}

impl From<Link> for Code {
    fn from(link: Link) -> Code {
        Code(match link {
            Link::Leaf64 => 64,
            Link::Parent65 => 65,
            Link::Sibling183 => 183,
            Link::Left187 => 187,
            Link::Right188 => 188,
        })
    }
}

impl From<Code> for LinkStep {
    fn from(code: Code) -> LinkStep {
        match code.0 {
            52 => LinkStep::Word52,
            53 => LinkStep::State53,
            _ => LinkStep::Child57,
        }
    }
}

impl From<LinkStep> for Code {
    fn from(step: LinkStep) -> Code {
        Code(match step {
            LinkStep::Word52 => 52,
            LinkStep::State53 => 53,
            LinkStep::Child57 => 57,
        })
    }
}

impl From<Code> for HelpStep {
    fn from(code: Code) -> HelpStep {
        match code.0 {
            111 => HelpStep::Counter111,
            112 => HelpStep::Abort112,
            113 => HelpStep::Try113,
            114 => HelpStep::State114,
            117 => HelpStep::Freeze117,
            119 => HelpStep::Frozen119,
            123 => HelpStep::Child123,
            124 => HelpStep::Commit124,
            125 => HelpStep::State125,
            126 => HelpStep::Abort126,
            _ => HelpStep::State127,
        }
    }
}

impl From<HelpStep> for Code {
    fn from(step: HelpStep) -> Code {
        Code(match step {
            HelpStep::Counter111 => 111,
            HelpStep::Abort112 => 112,
            HelpStep::Try113 => 113,
            HelpStep::State114 => 114,
            HelpStep::Freeze117 => 117,
            HelpStep::Frozen119 => 119,
            HelpStep::Child123 => 123,
            HelpStep::Commit124 => 124,
            HelpStep::State125 => 125,
            HelpStep::Abort126 => 126,
            HelpStep::State127 => 127,
        })
    }
}

impl From<Code> for Back {
    fn from(code: Code) -> Back {
        match code.0 {
            1 => Back::Own,
            2 => Back::Again,
            _ => Back::Node,
        }
    }
}

impl From<Back> for Code {
    fn from(back: Back) -> Code {
        Code(match back {
            Back::Own => 1,
            Back::Again => 2,
            Back::Node => 3,
        })
    }
}

impl From<Code> for Place {
    fn from(code: Code) -> Place {
        match code.0 {
            LEAST_LINK.. => Place::Link(Code(code.0 / LINKS).into(), Code(code.0 % LINKS).into()),
            LEAST_HELP.. => Place::Help(Code(code.0 / HELPS).into(), Code(code.0 % HELPS).into()),
            39 => Place::Search39,
            66 => Place::Word66,
            67 => Place::Grand66,
            97 => Place::Frozen97,
            98 => Place::State98,
            103 => Place::Freeze103,
            130 => Place::Counter130,
            131 => Place::Bump131,
            139 => Place::Word139,
            140 => Place::State140,
            141 => Place::Child141,
            144 => Place::Left144,
            164 => Place::Leaf164,
            182 => Place::Sibling182,
            185 => Place::CopyLeft,
            186 => Place::CopyRight,
            189 => Place::Word189,
            190 => Place::Leaf190,
            _ => Place::Counter74,
        }
    }
}

// For the digest: every place has a number of its own.
pub fn place_number(place: Place) -> u32 {
    match place {
        Place::Link(link, step) => stir(Code::from(link).0, Code::from(step).0),
        Place::Help(step, back) => stir(Code::from(step).0, Code::from(back).0),
        Place::Counter74 => 74,
        Place::Search39 => 39,
        Place::Word66 => 66,
        Place::Grand66 => 67,
        Place::Leaf164 => 164,
        Place::Sibling182 => 182,
        Place::CopyLeft => 185,
        Place::CopyRight => 186,
        Place::Word189 => 189,
        Place::Leaf190 => 190,
        Place::Frozen97 => 97,
        Place::State98 => 98,
        Place::Freeze103 => 103,
        Place::Counter130 => 130,
        Place::Bump131 => 131,
        Place::Word139 => 139,
        Place::State140 => 140,
        Place::Child141 => 141,
        Place::Left144 => 144,
    }
}
