// The calls: each prints what it came to, and what it left.
use crate::digest::{of_board, of_lists};
use crate::lists::Lists;
use crate::telling::{Left, say, say_listing, say_number, say_outcome};
use lending::Sizes;
use machine::{start_delete, start_find, start_insert, start_scan};
use shapes::{Board, Phase};
use tables::MOST_WORKERS;

// The worker comes first, behind it keys or the number of turns.
#[derive(Clone, Copy)]
pub enum Call {
    Make(u32, u32, u32),
    Insert(u32, i32),
    Delete(u32, i32),
    Find(u32, i32),
    Scan(u32, i32, i32),
    Turn(u32),
    Go(u32, u32),
    Version(Phase),
}

impl Call {
    pub fn of_letter(letter: u8, [a, b, c, _, _]: [u32; 5]) -> Call {
        let low = b.cast_signed();
        match letter {
            b'm' => Call::Make(a, b, c),
            b'i' => Call::Insert(a, low),
            b'd' => Call::Delete(a, low),
            b'f' => Call::Find(a, low),
            b't' => Call::Turn(a),
            b'g' => Call::Go(a, b),
            b'v' => Call::Version(Phase(a)),
            _ => Call::Scan(a, low, c.cast_signed()),
        }
    }

    // Whose counts are shown: the worker of the call, or the first.
    fn worker(self) -> u32 {
        match self {
            Call::Make(..) | Call::Version(_) => 0,
            Call::Insert(w, _)
            | Call::Delete(w, _)
            | Call::Find(w, _)
            | Call::Scan(w, ..)
            | Call::Turn(w)
            | Call::Go(w, _) => w % MOST_WORKERS,
        }
    }

    // Prints what the call comes to, and hands on its board.
    fn made(self, rt: &impl Print, board: Board, lists: &mut Lists<'_>) -> Board {
        let lent = &mut lists.tables;
        let keys = &mut *lists.keys;
        let reply = match self {
            Call::Make(n, m, p) => fresh::fresh(board, Sizes { n, m, p }, lent),
            Call::Insert(w, k) => start_insert(board, w, k, lent.shown()),
            Call::Delete(w, k) => start_delete(board, w, k, lent.shown()),
            Call::Find(w, k) => start_find(board, w, k, lent.shown()),
            Call::Scan(w, a, b) => start_scan(board, w, a, b, lent.shown()),
            Call::Turn(w) => machine::turn(board, w, lent),
            Call::Go(w, n) => {
                let run = machine::run(board, w, n, lent);
                say_outcome(rt, run.outcome);
                say(rt, b" after");
                say_number(rt, run.turns);
                return run.board;
            }
            Call::Version(phase) => {
                let listing = lister::list(board, phase, lent.shown(), keys);
                say_listing(rt, listing, keys);
                return board;
            }
        };
        say_outcome(rt, reply.outcome);
        reply.board
    }

    pub fn make_and_tell(
        self,
        rt: &impl Print,
        line: &[u8],
        board: Board,
        lists: &mut Lists<'_>,
    ) -> Board {
        say(rt, line);
        say(rt, b" =");
        let lent_before = of_lists(lists);
        let left = self.made(rt, board, lists);
        let lent = of_lists(lists);
        let told = Left {
            totals: left.totals,
            worker: boards::worker_of(left, self.worker()),
            lent,
            same: lent_before == lent && of_board(&board) == of_board(&left),
        };
        told.say_to(rt);
        left
    }
}
