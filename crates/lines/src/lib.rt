// How a line of the program is spelt: what there is to print, and the parts of a line put on a page.
#![tactic(auto)]

mod page; // bytes, texts and numbers put one behind the other
mod words; // the words of an answer, a refusal's number, how many keys are listed

pub use page::{put_byte, put_next, put_next_signed, put_number, put_text};
use shapes::{Answer, Refusal};
pub use words::{listed, put_answer, refusal_number};

// What there is to print: nothing; command, worker, answer and turns taken; command, worker and refusal; commands read, nodes
// used, records used and Counter; the command with a fault.
#[derive(Clone, Copy)]
pub enum Line {
    Quiet,
    Answered(u32, u32, Answer, u64),
    Refused(u32, u32, Refusal),
    End(u32, u32, u32, u32),
    Bad(u32),
}
