ghost use Rattle.std.specs.Prelude.{cond, ◌≡◌, get_or, ℕ};
ghost use Rattle.model.specs.Minimum.{lesser_of, minimum_of};
ghost use Rattle.model.specs.Span.{from_tob, from_to_withoutb};

use crate::cells::at;

// The lesser of two states.
#[tactic(auto, unfolding(model::specs::Minimum::lesser_of))]
pub fn lesser(x: u8, y: u8) -> u8
    ensures { result ≡ lesser_of x y }
{
    x.min(y)
}

// The lesser of two states where the first counts, else the second: one `if`, and no method of std says it shorter.
pub fn lesser_if(counts: bool, x: u8, y: u8) -> u8
    ensures { result ≡ cond counts (lesser_of x y) y }
{
    if counts {
        return lesser(x, y);
    }
    y
}

// The shallowest state of the numbers from start on and before end, but for one of them; OFF where there is none. No `Span`: that has
// bytes, and here it is any number.
#[tactic(auto, using(minimum::proofs::Span::minimum_before, minimum::proofs::Span::minimum_turn, minimum::proofs::Span::minimum_past))]
pub(super) fn least_without<F: Fn(usize) -> u8 + Drop>(
    start: usize,
    end: usize,
    one: usize,
    off: u8,
    state: F,
) -> u8
    requires { F.IsAlwaysCallable state }
    ensures { (s : ℕ → ℕ) → ((i x : ℕ) → F.post state i x → x ≡ s i)
        → result ≡ minimum_of end (from_to_withoutb start end one) s off }
{
    let mut m = off;
    // a number, since `state` takes it
    for i in start..end {
        m = lesser_if(i != one, state(i), m);
    }
    m
}

// The shallowest state from start on and before end, but for the state at one number; OFF where there is none.
pub fn minimum_without(row: &[u8], start: usize, end: usize, one: usize, off: u8) -> u8
    ensures { result ≡ minimum_of end (from_to_withoutb start end one) (λ i. get_or row.now i 0) off }
{
    least_without(start, end, one, off, |i| at(row, i))
}

// The shallowest state from start on and before end; OFF where there is none. (To leave out the end leaves out none.)
#[tactic(auto, using(minimum::proofs::Span::minimum_whole))]
pub fn minimum(row: &[u8], start: usize, end: usize, off: u8) -> u8
    ensures { result ≡ minimum_of end (from_tob start end) (λ i. get_or row.now i 0) off }
{
    minimum_without(row, start, end, end, off)
}
