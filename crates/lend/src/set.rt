// A setter on a record that is lent: `fn set(s: &mut S, x: P) { *s = g(*s, x); }`, for any S, P and f.
// It meets `s.new ≡ f s.old x` wherever `g` meets `result ≡ f s x`.
ghost use Rattle.lend.specs.Callee.{Gives};
ghost use Rattle.std.specs.Prelude.{◌≡◌};

// The record becomes what `g` makes of it. Not by `ask`, which takes a `P: Copy`.
pub fn set<S: Copy, P, G: FnOnce(S, P) -> S>(s: &mut S, x: P, g: G)
    requires { G.IsAlwaysCallable g }
    ensures { (f : S → P → S) → Gives (G.post g s.old x) (f s.old x) → s.new ≡ f s.old x }
{
    *s = g(*s, x);
}
