// A walk over the first n of a row that is lent, for any S and test: `fn every(s: &[S], n: usize) -> bool`,
//     for i in 0..n { if !test(at(s, i)) { return false; } } true
// g l n says whether the first n of l pass; `none`, `pass` and `fail` are its laws. It meets `result ≡ g s.now n` wherever `at`
// meets `result ≡ get_or s.now i d` and `test` meets `result ≡ p x`.
ghost use Rattle.lend.specs.Callee.{Gives, GivesAt};
ghost use Rattle.lend.specs.Walk.{SaysEvery};
ghost use Rattle.std.specs.Prelude.{Bool, List, get_or, ◌<◌, ◌≡◌, ℕ};

use crate::every_with::every_with;

// Do the first n of the row pass?
pub fn every<S: Copy, A: Fn(&[S], usize) -> S + Drop, T: Fn(S) -> bool + Drop>(
    s: &[S],
    n: usize,
    at: A,
    test: T,
) -> bool
    requires reads { A.IsAlwaysCallable at }
    requires tests { T.IsAlwaysCallable test }
    ensures { (d : S) (p : S → Bool) (g : List S → ℕ → Bool) → SaysEvery d p g
        → ((i : ℕ) → i < n → GivesAt (λ l r. A.post at l i r) s.now (get_or s.now i d))
        → ((i : ℕ) → i < n → Gives (T.post test (get_or s.now i d)) (p (get_or s.now i d)))
        → result ≡ g s.now n }
{
    every_with(s, n, (), at, |y, _i, _x| test(y))
}
