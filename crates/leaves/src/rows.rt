// A line to each kind of row.
ghost use Rattle.std.specs.Prelude.{◌≤◌};

use crate::buffers::{BUFFER_SIZE, UNWRITTEN, write_in_front};
use crate::telling::{
    Number, say, say_bytes, say_fault, say_key_refusal, say_number, say_read, say_size_refusal,
};
use groups::{Fault, TooShort};
use laps::OutOfRange;

// What bytes read as, whichever the numbers are.
pub fn show_read<N: Number>(
    rt: &impl Print,
    kind: &[u8],
    bytes: &[u8],
    came: Result<(N, usize), Fault>,
) {
    say(rt, kind);
    say_bytes(rt, bytes);
    say(rt, b" = ");
    match came {
        Ok((n, taken)) => say_read(rt, n, taken),
        Err(fault) => say_fault(rt, fault),
    }
}

pub fn show_writing(rt: &impl Print, n: u32, at: usize, room: usize)
    requires { room ≤ 8 }
{
    say(rt, b"write ");
    say_number(rt, n);
    say(rt, b" at ");
    say_number(rt, at);
    say(rt, b" of ");
    say_number(rt, room);
    say(rt, b" = ");
    let mut buffer = [UNWRITTEN; BUFFER_SIZE];
    match write_in_front(n, &mut buffer, at, room) {
        Ok(end) => say_number(rt, end),
        Err(TooShort) => say_size_refusal(rt),
    }
    say_bytes(rt, &buffer);
}

pub fn show_lap(rt: &impl Print, difference: i32, entry: u32) {
    say(rt, b"lap ");
    difference.say_to(rt);
    say(rt, b" ");
    say_number(rt, entry);
    say(rt, b" = ");
    match laps::key_of_lap(difference, entry) {
        Ok(key) => key.say_to(rt),
        Err(OutOfRange) => say_key_refusal(rt),
    }
}

pub fn show_key(rt: &impl Print, key: i32) {
    say(rt, b"key ");
    key.say_to(rt);
    say(rt, b" = ");
    match laps::lap_of_key(key) {
        Ok(lap) => {
            lap.difference.say_to(rt);
            say(rt, b" ");
            say_number(rt, lap.entry);
        }
        Err(OutOfRange) => say_key_refusal(rt),
    }
}

pub fn show_pad(rt: &impl Print, thousandths: i32) {
    say(rt, b"pad ");
    thousandths.say_to(rt);
    say(rt, b" = ");
    match laps::difference_of_pad(thousandths) {
        Ok(difference) => difference.say_to(rt),
        Err(OutOfRange) => say_key_refusal(rt),
    }
}

// Stays: (d) a kind that is none has no case in an enum; it is shown as the number that it is.
pub fn show_unknown(rt: &impl Print, kind: u8) {
    say(rt, b"? ");
    say_number(rt, kind);
}
