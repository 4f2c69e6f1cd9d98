// READCHILD (lines 43 to 48): a node's child as a phase sees it.
ghost use Rattle.std.specs.Prelude.{◌≡◌, Some};
ghost use Rattle.tables.specs.Versions.{walk_back, read_child, as_parent};

use nodes::{child_at, is_internal, phase_at, prev_at};
use shapes::{NodeNo, Phase};

// Lines 46 and 47: along prev to the first node of a phase no later than seq, in at most `used` steps.
#[tactic(auto, using(crate::proofs::Walks::stops, crate::proofs::Walks::goes, crate::proofs::Walks::lost, crate::proofs::Walks::over))]
fn walk_back(used: u32, ns: &[u32], seq: Phase, first: NodeNo) -> Option<NodeNo>
    ensures { result ≡ walk_back used ns.now seq (Some first) }
{
    let mut x = first;
    for _taken in 0..used {
        let phase = phase_at(ns, x);
        if phase.0 <= seq.0 {
            return Some(x);
        }
        x = prev_at(ns, x)?;
    }
    None
}

#[tactic(auto, unfolding(tables::specs::Versions::read_child))]
pub fn read_child(used: u32, ns: &[u32], x: NodeNo, left: bool, seq: Phase) -> Option<NodeNo>
    ensures { result ≡ read_child used ns.now x left seq }
{
    let newest = child_at(ns, x, left);
    walk_back(used, ns, seq, newest)
}

// A node that may be used as a parent: it is there, and internal.
#[tactic(auto, unfolding(tables::specs::Versions::as_parent, laws::specs::Choice::pick))]
pub fn as_parent(ns: &[u32], m: Option<NodeNo>) -> Option<NodeNo>
    ensures { result ≡ as_parent ns.now m }
{
    m.filter(|x| is_internal(ns, *x))
}
