// The program: plays the schedule on standard input, and prints its lines.
//
// What fails is said on standard error, no `end` is printed, and the exit status is 1.
#![tactic(auto)]

use showing::{Failure, show_from};
use std::process::ExitCode;

fn failed(rt: &impl Eprint, what: &str) -> ExitCode {
    let _ = rt.eprintln(what);
    ExitCode::FAILURE
}

fn main(rt: HostRuntime) -> ExitCode {
    match show_from(&mut rt.stdin(), &mut rt.stdout()) {
        Ok(()) => ExitCode::SUCCESS,
        Err(Failure::Unreadable) => failed(&rt, "evening: its schedule cannot be read"),
        Err(Failure::Unwritable) => failed(&rt, "evening: its lines cannot be written"),
    }
}
