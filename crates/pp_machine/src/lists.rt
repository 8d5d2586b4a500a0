//! Short lists, in place.
ghost use Rattle.std.specs.Prelude.{◌≡◌, ◌+◌, ◌≤◌, ◌++◌, length};
ghost use Rattle.arrayvec.specs.ArrayVec.{array_vec_len};

use arrayvec::ArrayVec;

/// Appends items for which the list has room.
pub fn append<T: Copy + Drop, const N: usize>(list: &mut ArrayVec<T, N>, items: &[T])
    requires { array_vec_len list.old + length items.now ≤ N }
    ensures items { list.new.items ≡ list.old.items ++ items.now }
    ensures len { array_vec_len list.new ≡ array_vec_len list.old + length items.now }
{
    list.try_extend_from_slice(items).unwrap();
}
