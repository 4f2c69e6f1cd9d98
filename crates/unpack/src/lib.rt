// The code that reads a number in groups of seven bits.
#![tactic(auto)]

ghost use Rattle.std.specs.Prelude.{◌≡◌};
ghost use Rattle.groups.specs.Format.{bits, read_up_to, read_of, read_signed_of};

use groups::{FOLLOWS, Fault, GROUP, MOST_GROUPS, signed};

// The largest number that can stand above a group within 32 bits.
const MOST_ABOVE: u32 = 33_554_431;

// The number at the front of the bytes, if it has no more groups than are left.
#[tactic(auto, using(groups::specs::ByteByByte::reads), unfolding(groups::specs::Format::joined))]
fn read_groups(s: &[u8], left: usize) -> Result<(u32, usize), Fault>
    ensures { result ≡ read_up_to bits left s.now }
{
    if left == 0 {
        return Err(Fault::TooLong);
    }
    let [byte, rest @ ..] = s else {
        return Err(Fault::CutShort);
    };
    if *byte < FOLLOWS {
        return Ok((*byte as u32, 1));
    }
    let (above, taken) = read_groups(rest, left - 1)?;
    if above == 0 {
        return Err(Fault::NotShortest);
    }
    if MOST_ABOVE < above {
        return Err(Fault::TooLarge);
    }
    Ok(((*byte - FOLLOWS) as u32 + GROUP * above, taken + 1))
}

// The number at the front of the bytes, and how many bytes it took.
#[tactic(auto, unfolding(groups::specs::Format::reading, groups::specs::Format::most_groups))]
pub fn read(s: &[u8]) -> Result<(u32, usize), Fault>
    ensures { result ≡ read_of s.now }
{
    read_groups(s, MOST_GROUPS)
}

// The signed number at the front of the bytes, and how many bytes it took.
#[tactic(auto, unfolding(groups::specs::Format::decoded))]
pub fn read_signed(s: &[u8]) -> Result<(i32, usize), Fault>
    ensures { result ≡ read_signed_of s.now }
{
    let (c, taken) = read(s)?;
    Ok((signed(c), taken))
}
