ghost use Rattle.std.specs.Prelude.{◌≡◌, set};

use crate::cells::put;

// A table after a store; past its end nothing is stored.
pub fn with<T: Copy, const N: usize>(table: [T; N], i: usize, v: T) -> [T; N]
    ensures { result ≡ set table i v }
{
    let mut t = table;
    put(&mut t, i, v);
    t
}
