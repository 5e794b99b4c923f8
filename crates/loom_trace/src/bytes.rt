//! Bytes put into cells at a place. What stands before the place is the text so far; what stands behind it is of no account.
ghost use Rattle.std.specs.Prelude.{◌≡◌, ◌+◌, ◌<◌, ◌≤◌, [], ◌∷◌, ◌++◌, length, take};

// Puts a byte at the place, and gives the place behind it.
#[inline(always)]
pub(crate) fn put_byte(byte: u8, cells: &mut [u8], at: usize) -> usize
    requires { at < length cells.old }
    ensures text { take result cells.new ≡ take at cells.old ++ byte ∷ [] }
    ensures place { result ≡ at + 1 }
    ensures len { length cells.new ≡ length cells.old }
{
    cells[at] = byte;
    at + 1
}

// Puts bytes at the place, and gives the place behind them.
#[inline(always)]
pub(crate) fn put_bytes(bytes: &[u8], cells: &mut [u8], at: usize) -> usize
    requires { at + length bytes.now ≤ length cells.old }
    ensures text { take result cells.new ≡ take at cells.old ++ bytes.now }
    ensures place { result ≡ at + length bytes.now }
    ensures len { length cells.new ≡ length cells.old }
{
    let end = at + bytes.len();
    cells[at..end].copy_from_slice(bytes);
    end
}
