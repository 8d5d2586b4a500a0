//! Watched places in lines of text.
ghost use Rattle.std.specs.Prelude.{◌≡◌, ◌≤◌, ◌+◌, ◌++◌, length};
ghost use Rattle.arrayvec.specs.ArrayVec.{array_vec_len};
ghost use Rattle.pp_lines.specs.Puts.{Puts};
ghost use Rattle.pp_console.specs.Watches.{place_text, digits_of, watches_text, hit_text};

use crate::text::push_field;
use arrayvec::ArrayVec;
use pp_lines::{Failed, Sink, push_text, put_all};
use pp_rig::{Hit, Watched};

/// Appends a place: its kind and its address.
#[tactic(auto, unfolding(crate::specs::Watches::place_text))]
fn push_place(line: &mut ArrayVec<u8, 120>, place: Watched)
    requires { array_vec_len line.old ≤ 110 }
    ensures items { line.new.items ≡ line.old.items ++ place_text place }
    ensures room { array_vec_len line.new ≤ array_vec_len line.old + 9 }
{
    match place {
        Watched::Cell { pp, a } => {
            push_field(line, b"M ", 2, u64::from(pp));
            push_field(line, b" ", 4, u64::from(a));
        }
        Watched::RegA { pp } => push_field(line, b"A ", 2, u64::from(pp)),
        Watched::RegP { pp } => push_field(line, b"P ", 2, u64::from(pp)),
        Watched::RegQ { pp } => push_field(line, b"Q ", 2, u64::from(pp)),
        Watched::Central { a } => push_field(line, b"C ", 6, u64::from(a)),
        Watched::Register { c } => push_field(line, b"H ", 2, u64::from(c)),
    }
}

/// Returns the number of octal digits that a place's number has.
#[tactic(auto, unfolding(crate::specs::Watches::digits_of))]
fn digits_of(place: Watched) -> u8
    ensures value { result ≡ digits_of place }
    ensures within { result ≤ 20 }
{
    match place {
        Watched::RegA { .. } => 6,
        Watched::Central { .. } => 20,
        _ => 4,
    }
}

/// Writes the lines of the watches in their order, at most eight, or `W NONE` if there are none.
///
/// # Errors
/// `Failed` if a call of the sink fails.
#[tactic(auto, unfolding(crate::specs::Watches::watches_text, crate::specs::Watches::watch_text))]
#[inline(never)]
pub fn put_watches<W: Sink>(watches: &[Watched], out: &mut W) -> Result<(), Failed>
    requires { length watches.now ≤ 8 }
    ensures { Puts ⟦<W as Sink>⟧ out.old out.new result (watches_text watches.now) }
{
    if watches.is_empty() {
        return put_all(out, b"W NONE\n");
    }
    let mut lines = ArrayVec::new();
    for watched in watches {
        push_text(&mut lines, b"W ");
        push_place(&mut lines, *watched);
        lines.push(b'\n');
    }
    put_all(out, lines.as_slice())
}

/// Appends the change that ended a run, if there is one, in at most 60 (decimal) bytes.
#[tactic(auto, unfolding(crate::specs::Watches::hit_text))]
pub fn push_hit(lines: &mut ArrayVec<u8, 120>, hit: Option<Hit>)
    requires { array_vec_len lines.old ≤ 60 }
    ensures { lines.new.items ≡ lines.old.items ++ hit_text hit }
{
    let Some(hit) = hit else {
        return;
    };
    let digits = digits_of(hit.place);
    push_text(lines, b"HIT ");
    push_place(lines, hit.place);
    push_field(lines, b" ", digits, hit.was);
    push_field(lines, b" ", digits, hit.now);
    lines.push(b'\n');
}
