// A record that is lent and given back: `fn lent(c: S, x: P) -> S { let mut d = c; set(&mut d, x); d }`, for any S, P and f.
// It meets `result ≡ f c x` wherever `set` meets `s.new ≡ f s.old x`.
ghost use Rattle.lend.specs.Callee.{Leaves};
ghost use Rattle.std.specs.Prelude.{◌≡◌};

// What the setter leaves of the record. By itself beside `lent_ask`, by which it would need two closures.
pub fn lent<S, P, F: FnOnce(&mut S, P)>(c: S, x: P, set: F) -> S
    requires { F.IsAlwaysCallable set }
    ensures { (f : S → P → S) → Leaves (λ m left. F.post set m x tt left) c (f c x) → result ≡ f c x }
{
    let mut d = c;
    set(&mut d, x);
    d
}
