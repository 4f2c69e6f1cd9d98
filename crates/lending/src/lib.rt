// What a caller lends with a board, and how large he asks the tables to be, each as one value.
#![tactic(auto)]

ghost use Rattle.std.specs.Prelude.{◌≡◌};
ghost use Rattle.lending.specs.Lent.{lent_world, shown_world};
ghost use Rattle.shapes.specs.declared.Board.{Board};

// Lent to be written.
// Stays: (a) that the lists in it are the ones lent (`SameLists`) is what each call promises: any four lists make a Lent.
#[derive(Drop)]
pub struct Lent<'a> {
    pub nodes: &'a mut [u32],
    pub records: &'a mut [u32],
    pub pending: &'a mut [u32],
    pub found: &'a mut [i32],
}

// Lent to be read alone.
#[derive(Clone, Copy)]
pub struct Shown<'a> {
    pub nodes: &'a [u32],
    pub records: &'a [u32],
    pub pending: &'a [u32],
    pub found: &'a [i32],
}

// N, M and P: how many nodes, records and workers.
#[derive(Clone, Copy, Debug, PartialEq, Eq)]
pub struct Sizes {
    pub n: u32,
    pub m: u32,
    pub p: u32,
}

impl Lent<'_> {
    pub fn shown(&self) -> Shown<'_>
        ensures { (b : Board) → shown_world b result ≡ lent_world b self.now }
    {
        Shown {
            nodes: self.nodes,
            records: self.records,
            pending: self.pending,
            found: self.found,
        }
    }
}
