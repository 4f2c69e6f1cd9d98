// A page that is written from its start: bytes, texts and numbers, each at the place where the last one ended.
// On a full page nothing changes, so that no caller has to count.
// Stays: (d) as methods of a struct of both, each would promise besides that the page is the one lent (as lending's calls do), and its callers hand a place on anyway.
ghost use Rattle.std.specs.Prelude.{◌≡◌, [], ◌∷◌};
ghost use Rattle.lines.specs.Text.{blank, decimal, signed};
ghost use Rattle.lines.specs.Page.{page, fill};

use itoa::Buffer;

const BLANK: u8 = b' ';

#[tactic(auto, using(crate::specs::Page::fill_one, crate::specs::Page::fill_full))]
pub fn put_byte(b: u8, out: &mut [u8], at: usize) -> usize
    ensures { page result out.new ≡ fill (b ∷ []) (page at out.old) }
{
    if at < out.len() {
        out[at] = b;
        return at + 1;
    }
    at
}

#[tactic(auto, using(crate::specs::Page::fill_none, crate::specs::Page::fill_next))]
pub fn put_text(text: &[u8], out: &mut [u8], at: usize) -> usize
    ensures { page result out.new ≡ fill text.now (page at out.old) }
{
    let mut place = at;
    for byte in text {
        place = put_byte(*byte, out, place);
    }
    place
}

#[tactic(auto, using(crate::proofs::Printed::same_decimal))]
pub fn put_number(n: u64, out: &mut [u8], at: usize) -> usize
    ensures { page result out.new ≡ fill (decimal n) (page at out.old) }
{
    put_text(Buffer::new().format(n).as_bytes(), out, at)
}

// A blank and a number.
#[tactic(auto, unfolding(crate::specs::Page::fill))]
pub fn put_next(n: u64, out: &mut [u8], at: usize) -> usize
    ensures { page result out.new ≡ fill (blank ∷ decimal n) (page at out.old) }
{
    let first = put_byte(BLANK, out, at);
    put_number(n, out, first)
}

// A blank and a signed number.
#[tactic(auto, using(crate::proofs::Printed::same_signed), unfolding(crate::specs::Page::fill))]
pub fn put_next_signed(n: i32, out: &mut [u8], at: usize) -> usize
    ensures { page result out.new ≡ fill (blank ∷ signed n) (page at out.old) }
{
    let first = put_byte(BLANK, out, at);
    put_text(Buffer::new().format(n).as_bytes(), out, first)
}
