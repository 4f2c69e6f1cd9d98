// The code that spells a line.
#![tactic(auto)]

mod keys; // the keys of a scan

ghost use Rattle.std.specs.Prelude.{◌≡◌};
ghost use Rattle.lines.specs.Text.{answered_text, refused_text, end_text, bad_text, keys_at, listed_of, text_of};
ghost use Rattle.lines.specs.Page.{page, spelt};

use keys::put_keys;
use lines::{Line, listed, put_answer, put_byte, put_next, put_number, put_text, refusal_number};
use shapes::{Answer, Refusal};

// How many bytes a page has; no line needs more.
pub const PAGE: usize = 16_384;

const LINE_FEED: u8 = 10;

#[tactic(auto, using(crate::proofs::Words::put, crate::proofs::Words::answered_fits, lines::specs::Keys::answered_line))]
fn answered(
    command: u32,
    worker: u32,
    answer: Answer,
    turns: u64,
    found: &[i32],
    from: usize,
    out: &mut [u8; PAGE],
) -> usize
    ensures { page result out.new ≡ spelt (answered_text command worker answer turns (keys_at found.now from (listed_of answer))) out.old }
{
    let first = put_number(command as u64, out, 0);
    let second = put_next(worker as u64, out, first);
    let third = put_answer(answer, out, second);
    let fourth = put_next(turns, out, third);
    let last = put_keys(found, from, listed(answer), out, fourth);
    put_byte(LINE_FEED, out, last)
}

#[tactic(auto, using(crate::proofs::Words::put, crate::proofs::Words::refused_fits), unfolding(lines::specs::Text::refused_text))]
fn refused(command: u32, worker: u32, refusal: Refusal, out: &mut [u8; PAGE]) -> usize
    ensures { page result out.new ≡ spelt (refused_text command worker refusal) out.old }
{
    let first = put_number(command as u64, out, 0);
    let second = put_next(worker as u64, out, first);
    let third = put_text(b" refused", out, second);
    let last = put_next(refusal_number(refusal), out, third);
    put_byte(LINE_FEED, out, last)
}

#[tactic(auto, using(crate::proofs::Words::put, lines::specs::Lengths::end_fits), unfolding(lines::specs::Text::end_text))]
fn end(commands: u32, nodes: u32, records: u32, counter: u32, out: &mut [u8; PAGE]) -> usize
    ensures { page result out.new ≡ spelt (end_text commands nodes records counter) out.old }
{
    let first = put_text(b"end", out, 0);
    let second = put_next(commands as u64, out, first);
    let third = put_next(nodes as u64, out, second);
    let fourth = put_next(records as u64, out, third);
    let last = put_next(counter as u64, out, fourth);
    put_byte(LINE_FEED, out, last)
}

#[tactic(auto, using(crate::proofs::Words::put, lines::specs::Lengths::bad_fits), unfolding(lines::specs::Text::bad_text))]
fn bad(command: u32, out: &mut [u8; PAGE]) -> usize
    ensures { page result out.new ≡ spelt (bad_text command) out.old }
{
    let first = put_text(b"bad", out, 0);
    let last = put_next(command as u64, out, first);
    put_byte(LINE_FEED, out, last)
}

// Writes a line at the start of the page, and answers its length. A scan's keys stand in the found list from a place on; what lies
// past its end counts as 0, and no more than 1,024 are listed.
// Stays: (d) the cases are those of an enum: a function for each would be a table in place of this match.
#[tactic(auto, unfolding(lines::specs::Text::line_text, lines::specs::Text::keys_of, lines::specs::Page::spelt))]
pub fn spell(line: Line, found: &[i32], from: usize, out: &mut [u8; PAGE]) -> usize
    ensures { page result out.new ≡ spelt (text_of line found.now from) out.old }
{
    match line {
        Line::Quiet => 0,
        Line::Answered(command, worker, answer, turns) => {
            answered(command, worker, answer, turns, found, from, out)
        }
        Line::Refused(command, worker, refusal) => refused(command, worker, refusal, out),
        Line::End(commands, nodes, records, counter) => end(commands, nodes, records, counter, out),
        Line::Bad(command) => bad(command, out),
    }
}
