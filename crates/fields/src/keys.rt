// A key as a number that keeps the order of keys, and back.
// Stays: (d) an `impl From` would have to stand with Key in `shapes`, below the definitions promised here, and a call would read no plainer.
ghost use Rattle.std.specs.Prelude.{◌≡◌};
ghost use Rattle.tables.specs.Names.{key_of, number_of};

use shapes::Key;

const MIDDLE: i64 = 2147483648;

pub fn key_of(k: i32) -> Key
    ensures { result ≡ key_of k }
{
    let wide = k as i64;
    Key((wide + MIDDLE) as u32)
}

pub fn number_of(k: Key) -> i32
    ensures { result ≡ number_of k }
{
    (k.0 as i64 - MIDDLE) as i32
}
