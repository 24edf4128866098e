ghost use Rattle.std.specs.Prelude.{cond, ◌≡◌, get_or, set};

// What stands at a number; past the row's end it is what stands for nothing.
pub fn at_or<T: Copy>(row: &[T], i: usize, nothing: T) -> T
    ensures { result ≡ get_or row.now i nothing }
{
    row.get(i).copied().unwrap_or(nothing)
}

// The byte at a number; past the row's end it is 0.
pub fn at(row: &[u8], i: usize) -> u8
    ensures { result ≡ get_or row.now i 0 }
{
    at_or(row, i, 0)
}

// Stores a value at a number; past the row's end nothing is stored.
pub fn put<T: Copy>(row: &mut [T], i: usize, v: T)
    ensures { row.new ≡ set row.old i v }
{
    if i < row.len() {
        row[i] = v;
    }
}

// Stores a byte at a number, if it is asked for.
pub fn put_if(row: &mut [u8], asked: bool, i: usize, v: u8)
    ensures { row.new ≡ cond asked (set row.old i v) row.old }
{
    if asked {
        put(row, i, v);
    }
}
