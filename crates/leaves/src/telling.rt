// The words of a line. What cannot be written is passed over.
// Stays: (a) each piece is a write of its own: where the output takes one and not the next, the same gets through as before.
use groups::Fault;
use std::fmt::Display;

pub fn say(rt: &impl Print, text: &[u8]) {
    let _ = rt.write_all(text);
}

pub fn say_number(rt: &impl Print, number: impl Display + Drop) {
    let _ = rt.print(number);
}

// A number of either kind.
pub trait Number: Copy {
    fn say_to(self, rt: &impl Print);
}

impl Number for u32 {
    fn say_to(self, rt: &impl Print) {
        say_number(rt, self);
    }
}

// Stays: (a) the minus is a piece of its own, so not i32's Display.
impl Number for i32 {
    fn say_to(self, rt: &impl Print) {
        if self < 0 {
            say(rt, b"-");
        }
        say_number(rt, self.unsigned_abs());
    }
}

// Two digits of sixteen to each.
pub fn say_bytes(rt: &impl Print, bytes: &[u8]) {
    for byte in bytes {
        let _ = print!(rt; " {byte:02x}");
    }
}

// A number, how many groups it has, and the groups.
pub fn say_spelt(rt: &impl Print, kind: &[u8], n: impl Number, groups: &[u8]) {
    say(rt, kind);
    n.say_to(rt);
    say(rt, b" = ");
    say_number(rt, groups.len());
    say_bytes(rt, groups);
}

pub fn say_fault(rt: &impl Print, fault: Fault) {
    match fault {
        Fault::CutShort => say(rt, b"fault cut"),
        Fault::NotShortest => say(rt, b"fault shortest"),
        Fault::TooLong => say(rt, b"fault long"),
        Fault::TooLarge => say(rt, b"fault large"),
    }
}

// What groups are read as, and how many bytes they took.
pub fn say_read(rt: &impl Print, n: impl Number, taken: usize) {
    n.say_to(rt);
    say(rt, b" ");
    say_number(rt, taken);
}

pub fn say_size_refusal(rt: &impl Print) {
    say(rt, b"refused 2");
}

pub fn say_key_refusal(rt: &impl Print) {
    say(rt, b"refused 6");
}
