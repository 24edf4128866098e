// A row that is lent: `fn lend(a: [S; N], n: usize) -> B { f(&a, n) }`, for any S, N, B and g.
// It meets `result ≡ g a n` wherever `f` meets `result ≡ g s.now n`.
ghost use Rattle.lend.specs.Callee.{GivesAt};
ghost use Rattle.std.specs.Prelude.{List, ◌≡◌, ℕ};

use crate::lender_with::lender_with;

// What the callee gives of the row.
pub fn lender<S: Copy, B, const N: usize, F: FnOnce(&[S], usize) -> B>(
    a: [S; N],
    n: usize,
    f: F,
) -> B
    requires { F.IsAlwaysCallable f }
    ensures { (g : List S → ℕ → B) → GivesAt (λ s r. F.post f s n r) a (g a n) → result ≡ g a n }
{
    lender_with(a, n, (), |s, n, _x| f(s, n))
}
