// The words of an answer, a refusal's number, and how many keys are listed.
ghost use Rattle.std.specs.Prelude.{◌≡◌, ◌∷◌};
ghost use Rattle.shapes.specs.Numbers.{refusal_number};
ghost use Rattle.lines.specs.Text.{blank, answer_word, listed_of};
ghost use Rattle.lines.specs.Page.{page, fill};

use crate::page::put_text;
use shapes::{Answer, Refusal};

// The most keys that a line lists: as many as there are nodes.
const MOST_KEYS: u32 = 1024;

// A blank and the word.
// Stays: (a) a line's bytes are promised (lines:Text) on a page, and std's write_fmt wants a writer.
#[tactic(auto, unfolding(crate::specs::Text::answer_word))]
pub fn put_answer(answer: Answer, out: &mut [u8], at: usize) -> usize
    ensures { page result out.new ≡ fill (blank ∷ answer_word answer) (page at out.old) }
{
    match answer {
        Answer::Yes => put_text(b" yes", out, at),
        Answer::No => put_text(b" no", out, at),
        Answer::Keys(_) => put_text(b" keys", out, at),
        Answer::NoRoom => put_text(b" no-room", out, at),
        Answer::NoPhase => put_text(b" no-phase", out, at),
    }
}

#[tactic(auto, unfolding(shapes::specs::Numbers::refusal_number))]
pub fn refusal_number(refusal: Refusal) -> u64
    ensures { result ≡ refusal_number refusal }
{
    refusal as u64
}

// How many keys an answer lists.
#[tactic(auto, unfolding(crate::specs::Text::listed_of))]
pub fn listed(answer: Answer) -> usize
    ensures { result ≡ listed_of answer }
{
    match answer {
        Answer::Keys(n) => n.min(MOST_KEYS) as usize,
        Answer::Yes | Answer::No | Answer::NoRoom | Answer::NoPhase => 0,
    }
}
