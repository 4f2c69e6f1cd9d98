// Tables made by hand: sets them as a script says, calls the library on them, and prints what each call came to and what it left.
// The script is read from standard input, a command to a line, told by its first letter; a number may have a minus.
//
//     # ..                         a remark, printed as it stands
//     lend N R P F K               so many places of nodes, records, pending, found and the listing's keys are lent from now on
//     wash V                       every place lent holds V
//     keep / undo                  the board, what is lent, nodes, records and pending nodes are kept; are again as they were kept
//     node X F V                   field F of node X is V; so too `record R F V`; `pending J V`: place J of the list
//     board F V                    field F of the totals: N, M, P, nodes used, records used, Counter
//     operation W KIND PLACE A B   worker W holds this; kinds as in a schedule, 0 idle; places in places.rt
//     hand W F V                   field F of its hand, as in setting.rt
//     counts W P F                 so many pending and found
//     make N M P                   a call: fresh tables
//     insert W K, delete W K, find W K, scan W A B, turn W, go W N (a run), version I (a listing)
//
// A call prints its line, what it came to, nodes and records used and Counter, the worker's pending and found, a digest of everything
// lent, and whether all that is lent and kept is the same as before.
#![tactic(auto)]

mod line; // the numbers of a line
mod places; // places by code
mod lists; // what is lent, and what a line writes into it
mod setting; // the board by hand
mod digest; // everything lent, and everything kept, as a number
mod telling; // what is printed
mod calling; // the calls
mod command; // what a line asks for
mod desk; // one line obeyed

ghost use Rattle.std.specs.Prelude.{◌≤◌, length};

use crate::desk::Desk;
use std::io::Read;

// The longest script; what stands behind is not read.
const MOST: usize = 65_536;

// Reads to the end, or until the buffer is full. A read that fails is an end too: what came before is played.
// Stays: (d) the count, and a read that fails is an end: read_exact does not say how much came, and read_to_end asks for memory, which may fail.
fn read_full<'a, R: Read>(from: &mut R, buffer: &'a mut [u8]) -> &'a [u8]
    ensures { length result.now ≤ length buffer.old }
{
    let mut done = 0;
    while let Ok(came @ 1..) = from.read(&mut buffer[done..]) {
        done += came;
    }
    &buffer[..done]
}

fn play(rt: &impl Print, script: &[u8]) {
    let mut desk = Desk::bare();
    for line in script.split_inclusive(|byte| *byte == b'\n') {
        match line {
            [text @ .., b'\n'] => desk.obey(rt, text),
            last => desk.obey(rt, last),
        }
    }
}

// Stays: (a) fixed memory: asking for any could fail where this does not.
fn main(rt: HostRuntime) {
    let mut script = [0; MOST];
    play(&rt, read_full(&mut rt.stdin(), &mut script));
}
