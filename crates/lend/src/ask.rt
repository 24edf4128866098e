// A setter that answers: `fn ask(s: &mut S, x: P) -> B { let c = *s; let r = a(c, x); *s = g(c, x); r }`, for any S, P, B, f and a.
// It meets `s.new ≡ f s.old x` and `result ≡ a s.old x` wherever `g` meets `result ≡ f s x` and the other `result ≡ a s x`.
ghost use Rattle.lend.specs.Callee.{Gives};
ghost use Rattle.std.specs.Prelude.{◌≡◌};

// The record becomes what `g` makes of it, and the answer is what `a` says of it as it was.
pub fn ask<S: Copy, P: Copy, B, A: FnOnce(S, P) -> B, G: FnOnce(S, P) -> S>(
    s: &mut S,
    x: P,
    a: A,
    g: G,
) -> B
    requires answers { A.IsAlwaysCallable a }
    requires sets { G.IsAlwaysCallable g }
    ensures new { (f : S → P → S) → Gives (G.post g s.old x) (f s.old x) → s.new ≡ f s.old x }
    ensures answer { (b : S → P → B) → Gives (A.post a s.old x) (b s.old x)
        → result ≡ b s.old x }
{
    let c = *s;
    let r = a(c, x);
    *s = g(c, x);
    r
}
