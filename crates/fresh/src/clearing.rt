// The first k places become as a zero, and the places behind them stay as they are.
ghost use Rattle.std.specs.Prelude.{◌≡◌, ◌≤◌, length};
ghost use Rattle.tables.specs.Fresh.{cleared};

#[tactic(auto, unfolding(tables::specs::Fresh::cleared))]
pub fn clear<T: Copy>(t: &mut [T], k: usize, zero: T)
    requires { k ≤ length t.old }
    ensures { t.new ≡ cleared k zero t.old }
{
    for place in &mut t[..k] {
        *place = zero;
    }
}
