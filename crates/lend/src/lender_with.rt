// A row that is lent beside a value: `fn lend(a: [S; N], n: usize, x: Q) -> B { f(&a, n, x) }`, for any S, N, Q, B and g.
// It meets `result ≡ g a n x` wherever `f` meets `result ≡ g s.now n x`.
ghost use Rattle.lend.specs.Callee.{GivesAt};
ghost use Rattle.std.specs.Prelude.{List, ◌≡◌, ℕ};

// What the callee gives of the row and the value.
pub fn lender_with<S: Copy, Q, B, const N: usize, F: FnOnce(&[S], usize, Q) -> B>(
    a: [S; N],
    n: usize,
    x: Q,
    f: F,
) -> B
    requires { F.IsAlwaysCallable f }
    ensures { (g : List S → ℕ → Q → B) → GivesAt (λ s r. F.post f s n x r) a (g a n x)
        → result ≡ g a n x }
{
    f(&a, n, x)
}
