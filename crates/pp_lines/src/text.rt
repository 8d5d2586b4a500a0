//! Rows of text with room for their greatest length.
ghost use Rattle.std.specs.Prelude.{◌≡◌, ◌+◌, ◌≤◌, ◌++◌, length};
ghost use Rattle.arrayvec.specs.ArrayVec.{array_vec_len};

use arrayvec::ArrayVec;

/// Appends a text to a row that has room for it.
pub fn push_text<const N: usize>(row: &mut ArrayVec<u8, N>, text: &[u8])
    requires { array_vec_len row.old + length text.now ≤ N }
    ensures items { row.new.items ≡ row.old.items ++ text.now }
    ensures len { array_vec_len row.new ≡ array_vec_len row.old + length text.now }
{
    for byte in text {
        row.push(*byte);
    }
}
