// Numbers written into a buffer, to be shown.
ghost use Rattle.std.specs.Prelude.{◌≡◌, ◌≤◌, length};
ghost use Rattle.groups.specs.Format.{groups_of, code_of, left};
ghost use Rattle.leaves.specs.Table.{write_in_front};

use groups::TooShort;

// What is written into; a count never exceeds it.
pub const BUFFER_SIZE: usize = 8;

// What a buffer holds before it is written, so that bytes left alone show.
pub const UNWRITTEN: u8 = 0xee;

// A number's groups, put at the start of the buffer.
#[tactic(auto, using(groups::specs::Spelling::one_to_five))]
pub fn spell(n: u32, buffer: &mut [u8; BUFFER_SIZE]) -> &[u8]
    ensures { result.now ≡ groups_of n }
{
    let _ = pack::write(n, buffer, 0);
    &buffer[..groups::length(n)]
}

#[tactic(auto, using(groups::specs::Spelling::one_to_five))]
pub fn spell_signed(n: i32, buffer: &mut [u8; BUFFER_SIZE]) -> &[u8]
    ensures { result.now ≡ groups_of (code_of n) }
{
    let _ = pack::write_signed(n, buffer, 0);
    &buffer[..groups::length(groups::code(n))]
}

// Writes a number as if the buffer had only so much room: what stands behind that stays.
// Stays: (a) it tries `pack::write`, which takes a buffer and a place.
#[tactic(auto, unfolding(crate::specs::Table::write_in_front))]
pub fn write_in_front(n: u32, buffer: &mut [u8], at: usize, room: usize) -> Result<usize, TooShort>
    requires { room ≤ length buffer.old }
    ensures { left result buffer.new ≡ write_in_front n buffer.old at room }
{
    pack::write(n, &mut buffer[..room], at)
}
