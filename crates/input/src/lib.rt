// What is read: a file to its end, or as much as shows that it is too long.
#![tactic(auto)]

ghost use Rattle.std.specs.Prelude.{◌≡◌, ◌≤◌, length, IfOk};

use std::io;
use std::io::Read;

// One byte more than the longest schedule, so that a longer one shows.
const ROOM: usize = 65_537;

pub fn room() -> [u8; ROOM]
    ensures { 65537 ≡ length result }
{
    [0; ROOM]
}

// Reads to the end, or until the buffer is full. A read that fails is no end.
// Stays: (a) no heap: std's read_to_end asks for memory, and read_exact does not say how much came.
pub fn read_all<R: Read>(from: &mut R, buffer: &mut [u8]) -> io::Result<usize>
    ensures { IfOk result (λ size. size ≤ length buffer.new) }
{
    let mut done = 0;
    while done < buffer.len() {
        match from.read(&mut buffer[done..])? {
            0 => break,
            came => done += came,
        }
    }
    Ok(done)
}
