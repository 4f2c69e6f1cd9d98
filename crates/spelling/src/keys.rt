// The keys of a scan, put on the page.
ghost use Rattle.std.specs.Prelude.{◌≡◌, ◌+◌, ◌*◌, ◌≤◌, pos, length, get_or};
ghost use Rattle.lines.specs.Text.{keys_text};
ghost use Rattle.lines.specs.Page.{page, fill};
ghost use Rattle.lines.specs.Lengths.{key_room};

use lines::put_next_signed;

// Key i from a place on; 0 past the end.
// Stays: (a) lines:Text.keys_text speaks of the found keys and a place in them.
fn key_at(found: &[i32], from: usize, i: usize) -> i32
    ensures { result ≡ get_or found.now (from + i) (pos 0) }
{
    from.checked_add(i)
        .and_then(|at| found.get(at))
        .copied()
        .unwrap_or(0)
}

// So many keys from a place on, a blank before each.
// Stays: (a) the page and its place go together as in `lines` (outcomes:Pages).
#[tactic(auto, using(lines::specs::Keys::fill_zero_keys, lines::specs::Keys::fill_one_more_key, lines::specs::Lengths::zero_keys_length, lines::specs::Lengths::one_more_length))]
pub fn put_keys(found: &[i32], from: usize, n: usize, out: &mut [u8], at: usize) -> usize
    ensures out_after { page result out.new ≡ fill (keys_text found.now from n) (page at out.old) }
    ensures n_len_bound { length (keys_text found.now from n) ≤ n * key_room }
{
    let mut place = at;
    for i in 0..n {
        place = put_next_signed(key_at(found, from, i), out, place);
    }
    place
}
