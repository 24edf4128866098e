// A read of a row that is lent: `fn at(s: &[S], i: usize) -> S { if i < s.len() { return s[i]; } none() }`, for any S.
// It meets `result ≡ get_or s.now i d` wherever `none` meets `result ≡ d`.
ghost use Rattle.lend.specs.Callee.{Gives};
ghost use Rattle.std.specs.Prelude.{◌≡◌, get_or};

// The element at a place; past the row's end it is what `none` gives.
pub fn at<S: Copy, N: FnOnce() -> S + Drop>(s: &[S], i: usize, none: N) -> S
    requires { N.IsAlwaysCallable none }
    ensures { (d : S) → Gives (N.post none) d → result ≡ get_or s.now i d }
{
    if i < s.len() {
        return s[i];
    }
    none()
}
