// Writes a schedule: its opening, then one command after another, each behind the one before it.
#![tactic(auto)]

ghost use Rattle.std.specs.Prelude.{◌≡◌, true, ◌+◌, ◌≤◌, ◌<◌, ◌^◌, length, sum_by};
ghost use Rattle.std.proofs.lemmas.List.Edits.{sets};
ghost use Rattle.groups.specs.Format.{groups_of};
ghost use Rattle.schedule.specs.Format.{spelled_all};
ghost use Rattle.schedule.specs.Writing.{left, entered, write_opening, write_command};

use fields::sizes_ok;
use groups::code;
use lending::Sizes;
use schedule::{Command, DELETE, FIND, INSERT, MOST_BYTES, Refusal, SCAN, TURNS};

// How many bytes the numbers of an opening or a command take.
#[tactic(auto, using(crate::proofs::Numbers::lengths))]
fn length_of(numbers: &[u32]) -> usize
    requires { sum_by (λ n. length (groups_of n)) numbers.now < 2 ^ 64 }
    ensures { result ≡ length (spelled_all numbers.now) }
{
    numbers.iter().map(|n| groups::length(*n)).sum()
}

// Writes numbers where there is room for all of them, so that no answer of `write` is a refusal.
// Stays: (a) schedule:Writing speaks of a buffer and a place in it, and each command is written behind the last.
#[tactic(auto, using(crate::proofs::Numbers::all_put))]
fn put_numbers(numbers: &[u32], buffer: &mut [u8], at: usize)
    requires { at + length (spelled_all numbers.now) ≤ length buffer.old }
    ensures { buffer.new ≡ sets buffer.old at (spelled_all numbers.now) }
{
    let mut end = at;
    for n in numbers {
        end = pack::write(*n, buffer, end).unwrap();
    }
}

// Writes numbers at a place of the buffer, or refuses 8 and then 2 with the buffer as it was.
#[tactic(auto, using(crate::proofs::Numbers::by_room))]
fn enter(numbers: &[u32], buffer: &mut [u8], at: usize) -> Result<usize, Refusal>
    requires { length numbers.now ≤ 4 }
    ensures { left result buffer.new ≡ entered true (spelled_all numbers.now) buffer.old at }
{
    let size = length_of(numbers);
    if MOST_BYTES - size < at {
        return Err(Refusal::File);
    }
    let end = at + size;
    if buffer.len() < end {
        return Err(Refusal::Size);
    }
    put_numbers(numbers, buffer, at);
    Ok(end)
}

// Writes N, M, P, and says where they end.
#[tactic(auto, using(crate::proofs::Numbers::by_sizes))]
pub fn write_opening(sizes: Sizes, buffer: &mut [u8], at: usize) -> Result<usize, Refusal>
    ensures { left result buffer.new ≡ write_opening sizes.n sizes.m sizes.p buffer.old at }
{
    if !sizes_ok(sizes) {
        return Err(Refusal::File);
    }
    enter(&[sizes.n, sizes.m, sizes.p], buffer, at)
}

// Writes a command, and says where it ends; n turns are at least 1.
#[tactic(auto, using(crate::proofs::Numbers::by_kind))]
pub fn write_command(command: Command, buffer: &mut [u8], at: usize) -> Result<usize, Refusal>
    ensures { left result buffer.new ≡ write_command command buffer.old at }
{
    match command {
        Command::Insert(worker, key) => enter(&[INSERT, worker, code(key)], buffer, at),
        Command::Delete(worker, key) => enter(&[DELETE, worker, code(key)], buffer, at),
        Command::Find(worker, key) => enter(&[FIND, worker, code(key)], buffer, at),
        Command::Scan(worker, a, b) => enter(&[SCAN, worker, code(a), code(b)], buffer, at),
        Command::Turns(_, 0) => Err(Refusal::File),
        Command::Turns(worker, n) => enter(&[TURNS, worker, n], buffer, at),
    }
}
