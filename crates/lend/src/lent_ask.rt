// A record that is lent, asked, and given back beside the answer:
// `fn lent(c: S, x: P) -> T { let mut d = c; let r = ask(&mut d, x); T { r, d } }`, for any S, P, B, T, f and a.
// It meets `result ≡ mk (a c x) (f c x)` wherever `ask` meets `s.new ≡ f s.old x` and `result ≡ a s.old x`, where mk makes
// the struct of the two.
ghost use Rattle.lend.specs.Callee.{Gives, GivesAndLeaves};
ghost use Rattle.std.specs.Prelude.{◌≡◌};

// What the setter answers and leaves of the record, in one.
pub fn lent_ask<S, P, B, T, F: FnOnce(&mut S, P) -> B, M: FnOnce(B, S) -> T>(
    c: S,
    x: P,
    ask: F,
    make: M,
) -> T
    requires asks { F.IsAlwaysCallable ask }
    requires makes { M.IsAlwaysCallable make }
    ensures { (f : S → P → S) (a : S → P → B) (mk : B → S → T)
        → GivesAndLeaves (λ m r left. F.post ask m x r left) c (a c x) (f c x)
        → Gives (M.post make (a c x) (f c x)) (mk (a c x) (f c x))
        → result ≡ mk (a c x) (f c x) }
{
    let mut d = c;
    let r = ask(&mut d, x);
    make(r, d)
}
