// Reads a schedule: its opening, then one command after another, each from the front of what the one before it left.
// An answer says where the rest begins, and its caller hands on `&rest[end..]`.
#![tactic(auto)]

ghost use Rattle.std.specs.Prelude.{◌≡◌};
ghost use Rattle.schedule.specs.Reading.{numbers_at, opening_at, command_of, command_at};

use fields::sizes_ok;
use groups::signed;
use lending::Sizes;
use schedule::{Command, DELETE, FIND, INSERT, MOST_BYTES, SCAN, TURNS};
use unpack::read;

// Three numbers, each read from the front of what the one before it left, and where the rest begins.
#[tactic(auto, using(crate::proofs::Behind::one_by_one))]
fn read_three(rest: &[u8]) -> Option<([u32; 3], usize)>
    ensures { result ≡ numbers_at 3 rest.now }
{
    let (a, a_end) = read(rest).ok()?;
    let behind_a = &rest[a_end..];
    let (b, b_end) = read(behind_a).ok()?;
    let behind_b = &behind_a[b_end..];
    let (c, c_end) = read(behind_b).ok()?;
    Some(([a, b, c], a_end + (b_end + c_end)))
}

// N, M, P at the front of the whole file, and where the commands begin.
#[tactic(auto, using(crate::proofs::Sizes::by_sizes))]
pub fn read_opening(file: &[u8]) -> Option<(Sizes, usize)>
    ensures { result ≡ opening_at file.now }
{
    if MOST_BYTES < file.len() {
        return None;
    }
    let (numbers, end) = read_three(file)?;
    let [n, m, p] = numbers;
    let sizes = Sizes { n, m, p };
    if !sizes_ok(sizes) {
        return None;
    }
    Some((sizes, end))
}

// The command that these numbers are; b counts for a scan only, and no turns are a fault.
// Stays: (d) a number that is no kind is a fault: an enum with TryFrom would be this match, and then another.
#[tactic(auto, using(crate::proofs::ByKind::by_kind))]
fn command_of(kind: u32, worker: u32, a: u32, b: u32, end: usize) -> Option<(Command, usize)>
    ensures { result ≡ command_of kind worker a b end }
{
    let command = match kind {
        INSERT => Command::Insert(worker, signed(a)),
        DELETE => Command::Delete(worker, signed(a)),
        FIND => Command::Find(worker, signed(a)),
        SCAN => Command::Scan(worker, signed(a), signed(b)),
        TURNS if a != 0 => Command::Turns(worker, a),
        _ => return None,
    };
    Some((command, end))
}

// The command at the front of what is left, and where the rest begins: three numbers, of a scan four.
#[tactic(auto, using(crate::proofs::ByThree::by_three))]
pub fn read_command(rest: &[u8]) -> Option<(Command, usize)>
    ensures { result ≡ command_at rest.now }
{
    let (numbers, end) = read_three(rest)?;
    let [kind, worker, a] = numbers;
    if kind != SCAN {
        return command_of(kind, worker, a, 0, end);
    }
    let (b, b_end) = read(&rest[end..]).ok()?;
    command_of(kind, worker, a, b, end + b_end)
}
