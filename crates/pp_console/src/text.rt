//! Numbers of fixed width in lines of text.
ghost use Rattle.std.specs.Prelude.{◌≡◌, ◌+◌, ◌≤◌, ◌++◌, length};
ghost use Rattle.arrayvec.specs.ArrayVec.{array_vec_len};
ghost use Rattle.pp_console.specs.Text.{field};

use arrayvec::ArrayVec;
use pp_arith::push_octal;
use pp_lines::push_text;

/// Appends a name, and the last `digits` octal digits of a value.
#[tactic(auto, unfolding(crate::specs::Text::field))]
pub fn push_field<const N: usize>(line: &mut ArrayVec<u8, N>, name: &[u8], digits: u8, value: u64)
    requires at_most { digits ≤ 22 }
    requires room { array_vec_len line.old + length name.now + digits ≤ N }
    ensures items { line.new.items ≡ line.old.items ++ field name.now digits value }
    ensures len { array_vec_len line.new ≡ array_vec_len line.old + length name.now + digits }
{
    push_text(line, name);
    push_octal(line, value, digits);
}
