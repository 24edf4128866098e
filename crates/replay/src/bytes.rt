// Rows of bytes, so that no number can break a read or a store.

// The standard input's number.
pub(super) const STDIN: i32 = 0;

// A part of a row; where there is no such part, it is empty.
pub(super) fn part(row: &[u8], from: usize, to: usize) -> &[u8] {
    row.get(from..to).unwrap_or(&[])
}

// What stands before the last bytes of a row, so many, and these; both are empty where there are not so many.
pub(super) fn before_last(row: &[u8], count: usize) -> (&[u8], &[u8]) {
    if row.len() < count {
        return (&[], &[]);
    }
    row.split_at(row.len() - count)
}

// Puts bytes at a place of a row, and gives the place behind them. Where they do not fit, that is the row's end.
// No Vec: there is no heap.
pub(super) fn lay(row: &mut [u8], place: usize, bytes: &[u8]) -> usize {
    if row.len() < place || row.len() - place < bytes.len() {
        return row.len();
    }
    let end = place + bytes.len();
    row[place..end].copy_from_slice(bytes);
    end
}

// Reads so many bytes to the front of a row, and says whether there were so many, and room for them.
pub(super) fn read_front(row: &mut [u8], n: usize) -> bool {
    if row.len() < n {
        return false;
    }
    io::read_full(STDIN, &mut row[..n]) == n
}
