//! Short lists without allocation.
ghost use Rattle.std.specs.Prelude.{◌≡◌, ◌≤◌, length};

use arrayvec::ArrayVec;

/// Returns a list of these items.
pub fn list_of<T: Copy + Default + Drop, const N: usize>(items: &[T]) -> ArrayVec<T, N>
    requires { length items.now ≤ N }
    ensures { result.items ≡ items.now }
{
    ArrayVec::try_from(items).unwrap()
}
