// The code that writes a number in groups of seven bits.
#![tactic(auto)]

ghost use Rattle.std.specs.Prelude.{◌≡◌, ◌+◌, ◌≤◌, length};
ghost use Rattle.std.proofs.lemmas.List.Edits.{sets};
ghost use Rattle.groups.specs.Format.{groups_of, left, write_of, write_signed_of};

use groups::{FOLLOWS, GROUP, TooShort, code, length};

// Writes the groups of a number where there is room for them.
#[tactic(auto, using(crate::proofs::Groups::puts))]
fn put_groups(n: u32, buffer: &mut [u8], at: usize)
    requires { at + length (groups_of n) ≤ length buffer.old }
    ensures { buffer.new ≡ sets buffer.old at (groups_of n) }
{
    if n < GROUP {
        buffer[at] = n as u8;
        return;
    }
    buffer[at] = FOLLOWS + (n % GROUP) as u8;
    put_groups(n / GROUP, buffer, at + 1);
}

// Stays: (a) groups:Format.write_of and schedule:Writing speak of a buffer and a place in it, and `writer` writes each command behind the last.
// Writes a number at a place of the buffer, and says where it ends; the buffer stays as it was where the number does not fit.
#[tactic(auto, using(groups::specs::Writing::writes))]
pub fn write(n: u32, buffer: &mut [u8], at: usize) -> Result<usize, TooShort>
    ensures { left result buffer.new ≡ write_of n buffer.old at }
{
    let size = length(n);
    let room = buffer.len().saturating_sub(at);
    if room < size {
        return Err(TooShort);
    }
    put_groups(n, buffer, at);
    Ok(at + size)
}

// Writes a signed number at a place of the buffer, as `write` does its code.
pub fn write_signed(n: i32, buffer: &mut [u8], at: usize) -> Result<usize, TooShort>
    ensures { left result buffer.new ≡ write_signed_of n buffer.old at }
{
    write(code(n), buffer, at)
}
