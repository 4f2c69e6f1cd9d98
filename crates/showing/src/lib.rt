// A schedule played on tables of the largest sizes, its lines written out one by one.
//
// No contract says what is written. All else is a proved function of a library.
#![tactic(auto)]

ghost use Rattle.std.specs.Prelude.{◌≤◌, length};
ghost use Rattle.schedule.specs.Numbers.{most_bytes};

use fresh::fresh;
use input::{read_all, room};
use lending::Lent;
use lines::Line;
use playing::play;
use reader::{read_command, read_opening};
use schedule::Command;
use shapes::Board;
use spelling::{PAGE, spell};
use std::io;
use std::io::{Read, Write};
use tally::{end_line, keys_place, no_board};

// The tables of an evening, their board, and the turn counts.
#[derive(Drop)]
struct Evening<'a> {
    board: Board,
    turns: [u64; 8],
    lent: Lent<'a>,
}

impl Evening<'_> {
    // Plays a command, and hands on what there is to print.
    fn play(&mut self, number: u32, command: Command) -> Line {
        let played = play(number, command, self.board, self.turns, &mut self.lent);
        let turns = played.turns;
        self.turns = turns;
        self.board = played.board;
        played.line
    }
}

// Writes a line, with its keys from place `from` of the found ones.
// Stays: (a) fixed memory: nothing here asks for any.
fn say<W: Write>(out: &mut W, line: Line, found: &[i32], from: usize) -> io::Result<()> {
    let mut page = [0u8; PAGE];
    let size = spell(line, found, from, &mut page);
    out.write_all(&page[..size])
}

// The commands behind the opening, until none is left or one does not read.
// Stays: (d) what goes round is the rest of the file; the number is the command's own, for its line.
#[tactic(auto, using(crate::proofs::Parts::command_some, crate::proofs::Parts::command_there))]
fn show_commands<W: Write>(
    out: &mut W,
    commands: &[u8],
    evening: &mut Evening<'_>,
) -> io::Result<()>
    requires { length commands.now ≤ most_bytes }
{
    let mut rest = commands;
    let mut number = 0;
    while !rest.is_empty() {
        number += 1;
        let Some((command, taken)) = read_command(rest) else {
            return say(out, Line::Bad(number), &[], 0);
        };
        let line = evening.play(number, command);
        let from = keys_place(evening.board.totals, line);
        say(out, line, evening.lent.found, from)?;
        rest = &rest[taken..];
    }
    say(out, end_line(number, evening.board.totals), &[], 0)
}

// Plays a schedule and writes its lines.
// Stays: (a) fixed memory: nothing here asks for any.
#[tactic(auto, using(crate::proofs::Parts::opening_there, crate::proofs::Parts::file_short))]
pub fn show<W: Write>(out: &mut W, file: &[u8]) -> io::Result<()> {
    let Some((sizes, start)) = read_opening(file) else {
        return say(out, Line::Bad(0), &[], 0);
    };
    let mut nodes = [0u32; 10_240];
    let mut records = [0u32; 11_264];
    let mut pending = [0u32; 8_192];
    let mut found = [0i32; 8_192];
    let mut lent = Lent {
        nodes: &mut nodes,
        records: &mut records,
        pending: &mut pending,
        found: &mut found,
    };
    let begun = fresh(no_board(), sizes, &mut lent);
    let mut evening = Evening {
        board: begun.board,
        turns: [0; 8],
        lent,
    };
    show_commands(out, &file[start..], &mut evening)
}

// Why an evening was not shown whole.
#[derive(Clone, Copy, Debug, PartialEq, Eq)]
pub enum Failure {
    Unreadable,
    Unwritable,
}

// The schedule that a reader holds, its lines written to a writer.
pub fn show_from<R: Read, W: Write>(from: &mut R, to: &mut W) -> Result<(), Failure> {
    let mut file = room();
    let size = read_all(from, &mut file).map_err(|_| Failure::Unreadable)?;
    show(to, &file[..size]).map_err(|_| Failure::Unwritable)
}
