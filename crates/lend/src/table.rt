// A table that is filled by number, for any T: the first places, so many as are asked for, hold what a function gives for their numbers.
// It meets `result ≡ table_of N nothing e count` wherever `entry` meets `result ≡ e k`.
ghost use Rattle.lend.specs.Callee.{Gives};
ghost use Rattle.model.specs.Table.{table_of};
ghost use Rattle.std.specs.Prelude.{◌≡◌, ℕ};

use rows::cells::put;

// A table in which so many places are used, and the rest hold what stands for nothing. What is past its end is dropped.
pub fn table<T: Copy, const N: usize, F: Fn(u8) -> T + Drop>(
    nothing: T,
    count: u8,
    entry: F,
) -> [T; N]
    requires { F.IsAlwaysCallable entry }
    ensures { (e : ℕ → T) → ((k : ℕ) → Gives (F.post entry k) (e k)) → result ≡ table_of N nothing e count }
{
    let mut table = [nothing; N];
    // a number, since `entry` takes it
    for k in 0..count {
        put(&mut table, k as usize, entry(k));
    }
    table
}
