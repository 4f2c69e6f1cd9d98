// Numbers in groups of seven bits, lowest first, the top bit set when another follows, shortest form only.
#![tactic(auto)]

ghost use Rattle.std.specs.Prelude.{◌≡◌, length};
ghost use Rattle.groups.specs.Format.{groups_of, code_of, signed_of};

// A group holds a number below this.
pub const GROUP: u32 = 128;

// A byte from here on has its top bit set: another group follows.
pub const FOLLOWS: u8 = 128;

// The powers of GROUP: a number below one of them takes no more groups than its name says.
const TWO_GROUPS: u32 = 16_384;

const THREE_GROUPS: u32 = 2_097_152;

const FOUR_GROUPS: u32 = 268_435_456;

// No number of 32 bits takes more.
pub const MOST_GROUPS: usize = 5;

// Why bytes are no number.
#[derive(Clone, Copy, Debug, PartialEq, Eq)]
pub enum Fault {
    CutShort,
    NotShortest,
    TooLong,
    TooLarge,
}

// A buffer has no room for what was to be written into it.
#[derive(Clone, Copy, Debug, PartialEq, Eq)]
pub struct TooShort;

// How many groups a number takes.
pub fn length(n: u32) -> usize
    ensures { result ≡ length (groups_of n) }
{
    if n < GROUP {
        return 1;
    }
    if n < TWO_GROUPS {
        return 2;
    }
    if n < THREE_GROUPS {
        return 3;
    }
    if n < FOUR_GROUPS {
        return 4;
    }
    MOST_GROUPS
}

// A signed number as it is sent: 2n, or -2n - 1 when negative.
// Stays: (d) a code is a u32 like any other, so From could not tell it from a cast; `signed` too.
#[tactic(auto, using(crate::proofs::Signs::by_sign))]
pub fn code(n: i32) -> u32
    ensures { result ≡ code_of n }
{
    if n < 0 {
        return (-1 - n) as u32 * 2 + 1;
    }
    n as u32 * 2
}

// The signed number that is sent so.
#[tactic(auto, using(crate::proofs::Signs::by_parity))]
pub fn signed(c: u32) -> i32
    ensures { result ≡ signed_of c }
{
    let half = (c / 2) as i32;
    if c % 2 == 0 {
        return half;
    }
    -1 - half
}
