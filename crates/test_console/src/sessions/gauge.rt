//! Sessions of a gauge: a machine with short and long undo records. It overwrites a record in place.

ghost use Rattle.std.specs.Prelude.{◌≤◌};

use super::{before_newest, session_of};
use crate::rows::check_rows;
use pp_history::*;
use std::alloc::Global;
use std::process::Abort;

/// One number, which can be set.
#[derive(Drop)]
struct Gauge {
    number: u64,
}

/// A number that was set, and the old one.
#[derive(Drop)]
struct Bytes {
    to: u8,
    old: u8,
}

impl Reversible for Gauge {
    type Action = u64;

    type Record = u64;

    type Place = ();

    /// Two numbers of one byte: the new one and the old one.
    type Head = Bytes;

    ghost use Rattle.std.specs.Prelude.{◌≡◌, [], ◌∷◌, IsSomeAnd, Some, ⊤};
    ghost use Rattle.std.proofs.Common.{refl};

    ghost admitted = { λ gauge to. ⊤ };

    ghost after_act = { λ gauge to. record gauge { number = to } };

    ghost fits = { λ old gauge. ⊤ };

    ghost after_undo = { λ old gauge. record gauge { number = old } };

    ghost has_place = { λ gauge place. ⊤ };

    ghost value_at = { λ gauge place. gauge.number };

    ghost old_value = { λ old place. Some old };

    ghost record_pairs = { λ old. (tt, old) ∷ [] };

    ghost old_values = { λ gauge to. (tt, gauge.number) ∷ [] };

    ghost unpacked = { λ head. (head.to, head.old) };

    ghost keeps_places = { λ old gauge place fits has. has };

    ghost restores_numbers = { λ old gauge place fits has. refl };

    fn admits(&self, _to: &u64) -> bool {
        true
    }

    fn act(&mut self, to: &u64) -> u64 {
        let old = self.number;
        self.number = *to;
        old
    }

    fn undo(&mut self, old: &u64) {
        self.number = *old;
    }

    fn unpack(head: &Bytes) -> (u64, u64) {
        (u64::from(head.to), u64::from(head.old))
    }

    fn perform(&mut self, to: u64, head: &mut Option<Bytes>, tails: &mut Tails<u64, u64>) {
        let old = self.number;
        self.number = to;
        match (u8::try_from(to), u8::try_from(old)) {
            (Ok(to), Ok(old)) => *head = Some(Bytes { to, old }),
            _ => {
                *head = None;
                tails.push(to, old);
            }
        }
    }

    fn undo_head(&mut self, head: &Bytes) {
        self.number = u64::from(head.old);
    }

    fn value(&self, _place: &()) -> u64 {
        self.number
    }

    fn was(old: &u64, _place: &()) -> Option<u64> {
        Some(*old)
    }
}

impl Marked for Gauge {}

impl Repeatable for Gauge {
    ghost repeated = { 7 };

    ghost is_admitted = { λ gauge. tt };

    fn repeated() -> u64 {
        7
    }
}

/// A call, and what it returns.
enum Call {
    Act(u64),
    Back(u32, Result<(), BackFault>),
    Forward(u32, Result<(), BackFault>),
    /// Goes back to the latest change.
    BackTo(Result<u32, BackFault>),
    /// Returns the number before the newest action.
    Before(Option<u64>),
    /// Finds the latest change.
    Find(Option<u32>),
    /// Repeats the action n times.
    Repeat(u32),
    /// Repeats it n times up to a change of the number, in as many calls as that takes.
    RepeatMarked(u32, u32),
}

use Call::{Act, Back, BackTo, Before, Find, Forward, Repeat, RepeatMarked};

/// A call, and afterwards the number, how many actions are kept, and how many are ahead.
type Row = (Call, u64, u32, u32);

/// Repeats the action n times, in as many calls as that takes.
fn repeat(session: &mut Session<Gauge>, n: u32, marks: &Marks) -> u32 {
    let mut left = n;
    let mut calls = 0;
    while left > 0 {
        left -= session.repeat(left, marks);
        calls += 1;
    }
    calls
}

/// Makes a call. Returns whether the result is the expected one.
fn returns(session: &mut Session<Gauge>, call: &Call) -> bool {
    match *call {
        Act(to) => {
            session.act(to);
            true
        }
        Back(n, result) => session.back(n) == result,
        Forward(n, result) => session.forward(n) == result,
        BackTo(result) => session.back_to_change(&[()]) == result,
        Before(number) => before_newest(session, &()) == number,
        Find(change) => session.find_change(&[()], &mut Looks::new()) == change,
        Repeat(n) => {
            repeat(session, n, &Marks::of::<Gauge>(&[]));
            true
        }
        RepeatMarked(n, calls) => repeat(session, n, &Marks::of::<Gauge>(&[()])) == calls,
    }
}

fn is_right(session: &mut Session<Gauge>, row: &Row) -> bool {
    let (call, number, kept, ahead) = row;
    let is_done = returns(session, call) && session.machine().number == *number;
    is_done && session.kept() == *kept && session.ahead() == *ahead
}

fn follow(rt: &impl Abort, session: &mut Session<Gauge>, rows: &[Row]) {
    for i in 0..rows.len() {
        assert!(rt; is_right(session, &rows[i]), "row {i}");
    }
}

/// Follows rows in a new session of a gauge at a number. Its undo history holds this many actions, 1 to 10,000 (decimal).
/// Returns whether there is memory for it.
fn follow_anew(rt: &impl Abort, alloc: Global, number: u64, capacity: u32, rows: &[Row]) -> bool
    requires { (1 ≤ capacity) × (capacity ≤ 10000) }
{
    let Some(mut session) = session_of(alloc, Gauge { number }, capacity) else {
        return false;
    };
    follow(rt, &mut session, rows);
    true
}

const IN_PLACE: [Row; 14] = [
    (Act(5), 5, 1, 0),
    (Act(6), 6, 2, 0),
    (Act(6), 6, 3, 0),
    (Act(7), 7, 3, 0),
    (Back(2, Ok(())), 6, 1, 2),
    (Forward(1, Ok(())), 6, 2, 1),
    (Forward(1, Ok(())), 7, 3, 0),
    (Back(3, Ok(())), 5, 0, 3),
    (Back(1, Err(BackFault::TooFew { kept: 0 })), 5, 0, 3),
    (Forward(2, Ok(())), 6, 2, 1),
    (Act(9), 9, 3, 0),
    (BackTo(Ok(1)), 6, 2, 1),
    (BackTo(Ok(2)), 5, 0, 3),
    (BackTo(Err(BackFault::NoChange { kept: 0 })), 5, 0, 3),
];

const SHORT_AND_LONG: [Row; 21] = [
    (Act(5), 5, 1, 0),
    (Act(300), 300, 2, 0),
    (Act(301), 301, 3, 0),
    (Act(6), 6, 3, 0),
    (Act(7), 7, 3, 0),
    (Act(1000), 1000, 3, 0),
    (Act(8), 8, 3, 0),
    (Act(1001), 1001, 3, 0),
    (Act(9), 9, 3, 0),
    (Before(Some(1001)), 9, 3, 0),
    (Back(1, Ok(())), 1001, 2, 1),
    (Back(1, Ok(())), 8, 1, 2),
    (Back(1, Ok(())), 1000, 0, 3),
    (Back(1, Err(BackFault::TooFew { kept: 0 })), 1000, 0, 3),
    (Before(None), 1000, 0, 3),
    (Forward(2, Ok(())), 1001, 2, 1),
    (Before(Some(8)), 1001, 2, 1),
    (Act(2000), 2000, 3, 0),
    (Act(10), 10, 3, 0),
    (Back(3, Ok(())), 8, 0, 3),
    (Forward(3, Ok(())), 10, 3, 0),
];

const SEARCHED: [Row; 13] = [
    (Act(300), 300, 1, 0),
    (Act(400), 400, 2, 0),
    (Act(400), 400, 3, 0),
    (Act(400), 400, 4, 0),
    (Act(7), 7, 5, 0),
    (Act(7), 7, 5, 0),
    (Find(Some(2)), 7, 5, 0),
    (BackTo(Ok(2)), 400, 3, 2),
    (BackTo(Ok(3)), 300, 0, 5),
    (BackTo(Err(BackFault::NoChange { kept: 0 })), 300, 0, 5),
    (Forward(5, Ok(())), 7, 5, 0),
    (Back(1, Ok(())), 7, 4, 1),
    (BackTo(Ok(1)), 400, 3, 2),
];

const REPEATED: [Row; 10] = [
    (Act(5), 5, 1, 0),
    (Act(6), 6, 2, 0),
    (Back(1, Ok(())), 5, 1, 1),
    (Repeat(2), 7, 3, 0),
    (Back(2, Ok(())), 5, 1, 2),
    (Forward(2, Ok(())), 7, 3, 0),
    (Repeat(5), 7, 3, 0),
    (Back(3, Ok(())), 7, 0, 3),
    (RepeatMarked(4, 4), 7, 3, 0),
    (Find(None), 7, 3, 0),
];

#[test]
fn sessions(rt: HostRuntime) {
    let alloc = rt.alloc();
    let rows = [
        follow_anew(&rt, alloc, 0, 3, &IN_PLACE),
        follow_anew(&rt, alloc, 0, 3, &SHORT_AND_LONG),
        follow_anew(&rt, alloc, 0, 5, &SEARCHED),
        follow_anew(&rt, alloc, 300, 3, &REPEATED),
    ];
    check_rows(&rt, &rows);
}
