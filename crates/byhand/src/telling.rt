// What is printed.
// Stays: (a) each piece is a write of its own, not all a Display: where the output takes one and not the next, the same gets through as before.
use shapes::{Answer, Outcome, Refusal, Totals, Worker};
use std::fmt::Display;

// What cannot be written is passed over.
pub fn say(rt: &impl Print, text: &[u8]) {
    let _ = rt.write_all(text);
}

pub fn say_number(rt: &impl Print, number: impl Display + Drop) {
    let _ = print!(rt; " {number}");
}

fn say_keys(rt: &impl Print, count: impl Display + Drop) {
    let _ = print!(rt; " keys {count}");
}

fn say_answer(rt: &impl Print, answer: Answer) {
    match answer {
        Answer::Yes => say(rt, b" yes"),
        Answer::No => say(rt, b" no"),
        Answer::Keys(count) => say_keys(rt, count),
        Answer::NoRoom => say(rt, b" no-room"),
        Answer::NoPhase => say(rt, b" no-phase"),
    }
}

fn say_refusal(rt: &impl Print, why: Refusal) {
    say(rt, b" refused");
    say_number(rt, why as u32);
}

// What a start or a turn comes to.
pub fn say_outcome(rt: &impl Print, outcome: Outcome) {
    match outcome {
        Ok(None) => say(rt, b" going"),
        Ok(Some(answer)) => say_answer(rt, answer),
        Err(why) => say_refusal(rt, why),
    }
}

// A listing, with the list that its keys stand in.
pub fn say_listing(rt: &impl Print, listing: Result<usize, Refusal>, keys: &[i32]) {
    match listing {
        Ok(count) => {
            say_keys(rt, count);
            for key in keys.iter().take(count) {
                say_number(rt, *key);
            }
        }
        Err(why) => say_refusal(rt, why),
    }
}

// What a call left: a worker's counts, a digest of all that is lent, and whether all is the same as before.
#[derive(Clone, Copy)]
pub struct Left {
    pub totals: Totals,
    pub worker: Worker,
    pub lent: u32,
    pub same: bool,
}

fn say_numbers(rt: &impl Print, numbers: &[u32]) {
    say(rt, b";");
    for number in numbers {
        say_number(rt, *number);
    }
}

impl Left {
    pub fn say_to(self, rt: &impl Print) {
        let Totals {
            nodes,
            records,
            counter,
            ..
        } = self.totals;
        let Worker { pending, found, .. } = self.worker;
        say_numbers(rt, &[nodes, records, counter]);
        say_numbers(rt, &[pending, found]);
        say_numbers(rt, &[self.lent]);
        if self.same {
            say(rt, b"; same\n");
        } else {
            say(rt, b"; changed\n");
        }
    }
}
