// What the bytes of a row stand for.
ghost use Rattle.std.specs.Prelude.{◌≡◌, ◌+◌, ◌≤◌, length};
ghost use Rattle.leaves.specs.Table.{word_at, twos_complement};

pub fn word_at(row: &[u8], at: usize) -> u32
    requires { at + 4 ≤ length row.now }
    ensures { result ≡ word_at row.now at }
{
    u32::from_le_bytes([row[at], row[at + 1], row[at + 2], row[at + 3]])
}

#[tactic(auto, unfolding(crate::specs::Table::twos_complement, laws::specs::Choice::pick))]
pub fn signed_word(word: u32) -> i32
    ensures { result ≡ twos_complement word }
{
    word.cast_signed()
}
