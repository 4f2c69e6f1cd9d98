// What a turn looks at: the shared tables, and a scan's own range and lists.
use shapes::{Key, NodeNo, Phase, Totals};

// What the workers share: the totals and both tables.
#[derive(Clone, Copy)]
pub struct Shared<'a> {
    pub totals: Totals,
    pub nodes: &'a [u32],
    pub records: &'a [u32],
}

// What a scan is about: its bounds and its phase.
#[derive(Clone, Copy)]
pub struct Range {
    pub low: Key,
    pub high: Key,
    pub seq: Phase,
}

// A scan's lists as a turn needs them: the node pushed last, and both counts.
#[derive(Clone, Copy)]
pub struct Lists {
    pub top: NodeNo,
    pub pending: u32,
    pub found: u32,
}
