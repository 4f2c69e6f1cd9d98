// Prints what `groups`, `unpack`, `pack` and `laps` answer to a table of values, a line to each row. The table is read from standard input.
//
// A row has ten bytes: a kind, a count from 0 to 8, and a payload of eight. Numbers stand in the payload lowest byte first.
//
//     kind  payload                    line
//     n     u32                        number 300 = 2 ac 02             how many groups, and the groups
//     s     i32                        signed -1 = 1 01                 the same
//     r     count bytes                read 80 01 = 128 2               the number read, and how many bytes it took
//     g     count bytes                readsigned 01 = -1 1             the same
//     w     u32, place (one byte)      write 128 at 3 of 5 = 5 ee ee ee 80 01 ee ee ee
//                                      written there into the first count of eight bytes: where it ends, and the eight
//     l     i32 difference, u32 entry  lap -1 1023 = -1                 the key
//     k     i32 key                    key -1 = -1 1023                 the difference and the entry
//     p     i32 thousandths            pad -14 = -1                     the difference
//
// What is refused says so, by `fault` and a reason or by `refused` and a number.
#![tactic(auto)]

mod numbers; // what bytes of a row stand for
mod buffers; // numbers written to be shown
mod telling; // the words of a line
mod rows; // a line to each kind of row

use crate::buffers::{BUFFER_SIZE, UNWRITTEN, spell, spell_signed};
use crate::numbers::{signed_word, word_at};
use crate::rows::{show_key, show_lap, show_pad, show_read, show_unknown, show_writing};
use crate::telling::{say, say_number, say_spelt};
use input::{read_all, room};

const ROW: usize = 10;

// The longest table.
const MOST: usize = 65_536;

// Where the payload stands in a row, and the second number in it.
const PAYLOAD: usize = 2;

const SECOND: usize = 6;

// A kind that is not known, or a count that is too large, is shown as `?` and the kind's number.
// Stays: (d) the letters are the format's: a function for each would be a table in place of this match.
fn show_row(rt: &impl Print, row: &[u8; ROW]) {
    let kind = row[0];
    let count = row[1] as usize;
    let Some(bytes) = row[PAYLOAD..].get(..count) else {
        show_unknown(rt, kind);
        return;
    };
    let first = word_at(row, PAYLOAD);
    match kind {
        b'n' => {
            let mut buffer = [UNWRITTEN; BUFFER_SIZE];
            say_spelt(rt, b"number ", first, spell(first, &mut buffer));
        }
        b's' => {
            let number = signed_word(first);
            let mut buffer = [UNWRITTEN; BUFFER_SIZE];
            say_spelt(rt, b"signed ", number, spell_signed(number, &mut buffer));
        }
        b'r' => show_read(rt, b"read", bytes, unpack::read(bytes)),
        b'g' => show_read(rt, b"readsigned", bytes, unpack::read_signed(bytes)),
        b'w' => show_writing(rt, first, row[SECOND] as usize, count),
        b'l' => show_lap(rt, signed_word(first), word_at(row, SECOND)),
        b'k' => show_key(rt, signed_word(first)),
        b'p' => show_pad(rt, signed_word(first)),
        _ => show_unknown(rt, kind),
    }
}

// How many rows there were stands last, and how many bytes behind them make no row.
fn show_table(rt: &impl Print, table: &[u8]) {
    let (rows, over) = table.as_chunks::<ROW>();
    for row in rows {
        show_row(rt, row);
        say(rt, b"\n");
    }
    say(rt, b"end ");
    say_number(rt, rows.len());
    say(rt, b" over ");
    say_number(rt, over.len());
    say(rt, b"\n");
}

// More bytes than any table has: there may be still more.
fn show_input(rt: &impl Print, input: &[u8]) {
    if MOST < input.len() {
        say(rt, b"bad input: longer than 65536 bytes\n");
        return;
    }
    show_table(rt, input);
}

fn main(rt: HostRuntime) {
    let mut table = room();
    match read_all(&mut rt.stdin(), &mut table) {
        Ok(size) => show_input(&rt, &table[..size]),
        Err(_) => say(&rt, b"bad input: cannot be read\n"),
    }
}
