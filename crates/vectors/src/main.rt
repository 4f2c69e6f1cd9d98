// Plays the schedules whose names stand on standard input, a line to each, and prints each name and its lines.
// What fails is said on standard error.
#![tactic(auto)]

use input::{read_all, room};
use showing::{Failure, show_from};
use std::fs::File;
use std::io::{self, Read};
use std::rt::Files;

const LINE_FEED: u8 = 10;

// Nobody is left to be told where this fails too.
fn fail(rt: &impl Eprint, what: &str) {
    let _ = rt.eprintln(what);
}

fn play<R: Read>(rt: &(impl Print + Eprint), file: &mut R) {
    match show_from(file, &mut io::writer(rt)) {
        Ok(()) => {}
        Err(Failure::Unreadable) => fail(rt, "vectors: a schedule cannot be read"),
        Err(Failure::Unwritable) => fail(rt, "vectors: lines cannot be written"),
    }
}

// The name stands on a line of its own. What cannot be written of it is passed over.
fn say_name(rt: &impl Print, name: &[u8]) {
    let _ = rt.write_all(name);
    let _ = rt.write_all(&[LINE_FEED]);
}

fn open_and_play(rt: &(impl Files + Print + Eprint), name: &str) {
    match File::open(rt, name) {
        Ok(mut file) => play(rt, &mut file),
        Err(why) => {
            let _ = eprintln!(rt; "vectors: a schedule cannot be opened: {why}");
        }
    }
}

fn play_named(rt: &(impl Files + Print + Eprint), name: &[u8]) {
    say_name(rt, name);
    match str::from_utf8(name) {
        Ok(text) => open_and_play(rt, text),
        Err(_) => fail(rt, "vectors: a schedule cannot be opened"),
    }
}

// The last name may stand without a line feed.
fn play_all(rt: &(impl Files + Print + Eprint), names: &[u8]) {
    for line in names.split_inclusive(|byte| *byte == LINE_FEED) {
        play_named(rt, line.strip_suffix(&[LINE_FEED]).unwrap_or(line));
    }
}

fn main(rt: HostRuntime) {
    let mut names = room();
    match read_all(&mut rt.stdin(), &mut names) {
        Ok(size) => play_all(&rt, &names[..size]),
        Err(_) => fail(&rt, "vectors: the names cannot be read"),
    }
}
