// A walk over the first n of a row that is lent, whose test takes the place and a value besides, for any S, Q and test:
// `fn every(s: &[S], n: usize, x: Q) -> bool`,
//     for i in 0..n { if !test(at(s, i), i, x) { return false; } } true
// g l n x says whether the first n of l pass; `none`, `pass` and `fail` are its laws. It meets `result ≡ g s.now n x` wherever
// `at` meets `result ≡ get_or s.now i d` and `test` meets `result ≡ p y i x`.
ghost use Rattle.lend.specs.Callee.{Gives, GivesAt};
ghost use Rattle.lend.specs.Walk.{SaysEveryWith};
ghost use Rattle.std.specs.Prelude.{Bool, List, get_or, ◌<◌, ◌≡◌, ℕ};

// Do the first n of the row pass?
pub fn every_with<
    S: Copy,
    Q: Copy,
    A: Fn(&[S], usize) -> S + Drop,
    T: Fn(S, usize, Q) -> bool + Drop,
>(s: &[S], n: usize, x: Q, at: A, test: T) -> bool
    requires reads { A.IsAlwaysCallable at }
    requires tests { T.IsAlwaysCallable test }
    ensures { (d : S) (p : S → ℕ → Q → Bool) (g : List S → ℕ → Q → Bool) → SaysEveryWith d p g
        → ((i : ℕ) → i < n → GivesAt (λ l r. A.post at l i r) s.now (get_or s.now i d))
        → ((i : ℕ) → i < n → Gives (T.post test (get_or s.now i d) i x) (p (get_or s.now i d) i x))
        → result ≡ g s.now n x }
{
    // a number, since the test takes the place, and `at` says what stands past the row's end
    for i in 0..n {
        if !test(at(s, i), i, x) {
            return false;
        }
    }
    true
}
