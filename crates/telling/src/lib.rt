// What a call's outcome leaves and prints.
#![tactic(auto)]

ghost use Rattle.std.specs.Prelude.{◌≡◌, get_or, set};
ghost use Rattle.tally.specs.Playing.{counted, started_counts, line_of, played};

use counts::{count_of, counted, started_counts, with_count};
use lines::Line;
use shapes::{Outcome, Reply, Run};
use tally::Played;

#[tactic(auto, unfolding(tally::specs::Playing::line_of))]
fn line_of(number: u32, w: u32, outcome: Outcome, turns: u64) -> Line
    ensures { result ≡ line_of number w outcome turns }
{
    match outcome {
        Ok(None) => Line::Quiet,
        Ok(Some(a)) => Line::Answered(number, w, a, turns),
        Err(why) => Line::Refused(number, w, why),
    }
}

pub fn begun(number: u32, w: u32, counts: [u64; 8], reply: Reply) -> Played
    ensures { result ≡ played reply.board (started_counts reply.outcome w counts) (line_of number w reply.outcome 0) }
{
    Played {
        board: reply.board,
        turns: started_counts(reply.outcome, w, counts),
        line: line_of(number, w, reply.outcome, 0),
    }
}

pub fn ran(number: u32, w: u32, counts: [u64; 8], run: Run) -> Played
    ensures { result ≡ played run.board (set counts w (counted (get_or counts w 0) run.turns)) (line_of number w run.outcome (counted (get_or counts w 0) run.turns)) }
{
    let all = counted(count_of(counts, w), run.turns);
    Played {
        board: run.board,
        turns: with_count(counts, w, all),
        line: line_of(number, w, run.outcome, all),
    }
}
