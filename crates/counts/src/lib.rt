// The accepted turns of each worker's operation.
#![tactic(auto)]

ghost use Rattle.std.specs.Prelude.{◌≡◌, get_or, set};
ghost use Rattle.tally.specs.Playing.{counted, started_counts};

use shapes::Outcome;
use words::{get, put};

pub fn count_of(counts: [u64; 8], w: u32) -> u64
    ensures { result ≡ get_or counts w 0 }
{
    get(&counts, w as usize, 0)
}

pub fn with_count(counts: [u64; 8], w: u32, count: u64) -> [u64; 8]
    ensures { result ≡ set counts w count }
{
    let mut all = counts;
    put(&mut all, w as usize, count);
    all
}

// No schedule comes to the greatest count, which is kept (tally:Exact).
#[tactic(auto, unfolding(tally::specs::Playing::counted, laws::specs::Choice::pick))]
pub fn counted(before: u64, more: u32) -> u64
    ensures { result ≡ counted before more }
{
    before.saturating_add(more as u64)
}

#[tactic(auto, unfolding(tally::specs::Playing::started_counts))]
pub fn started_counts(outcome: Outcome, w: u32, counts: [u64; 8]) -> [u64; 8]
    ensures { result ≡ started_counts outcome w counts }
{
    match outcome {
        Ok(None) => with_count(counts, w, 0),
        Ok(Some(_)) | Err(_) => counts,
    }
}
