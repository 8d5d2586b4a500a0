//! Sessions of three dials: a machine with one kind of undo record, and with only the required methods.

ghost use Rattle.std.specs.Prelude.{◌≤◌};

use super::{before_newest, session_of};
use crate::rows::check_rows;
use pp_history::*;
use std::alloc::Global;
use std::marker::Model;
use std::process::Abort;

/// Three numbers, each of which can be set.
#[derive(Drop)]
struct Dials {
    numbers: [u64; 3],
}

impl Model for Dials {
    ghost use Rattle.std.specs.Prelude.{ℕ, List, ◌≡◌, length};

    ghost Value = { List ℕ };

    ghost view = { λ dials. dials.numbers };

    ghost invariant = { λ dials. length dials.numbers ≡ 3 };
}

/// Sets a dial to a number. Its undo record is the action that sets the old number.
#[derive(Clone, Copy, Drop)]
struct Set {
    dial: usize,
    to: u64,
}

impl Reversible for Dials {
    type Action = Set;

    type Record = Set;

    type Place = usize;

    type Head = (Set, Set);

    ghost use Rattle.std.proofs.Common.{arith, ◌≡◌, inl, inr, false};
    ghost use Rattle.std.proofs.lemmas.Bool.Decides.{nat_tests};
    ghost use Rattle.std.proofs.lemmas.Bool.{cases_eq};
    ghost use Rattle.std.proofs.lemmas.List.{get_or-set_same, get_or-set_other};
    ghost use Rattle.std.specs.Prelude.{◌<◌, ◌==◌, [], ◌∷◌, if◌then◌else◌, length, slice_index, slice_set, Some, None, true};

    ghost admitted = { λ dials set. set.dial < 3 };

    ghost after_act = { λ dials set. slice_set dials set.dial set.to };

    ghost fits = { λ had dials. (had.dial < 3) × (had.dial < length dials) };

    ghost after_undo = { λ had dials. slice_set dials had.dial had.to };

    ghost has_place = { λ dials dial. dial < 3 };

    ghost value_at = { λ dials dial. slice_index dials dial };

    ghost old_value = { λ had dial. if had.dial == dial then Some had.to else None };

    ghost record_pairs = { λ had. (had.dial, had.to) ∷ [] };

    ghost old_values = { λ dials set. (set.dial, slice_index dials set.dial) ∷ [] };

    ghost unpacked = { λ head. head };

    ghost keeps_places = { λ had dials dial fits has. has };

    ghost restores_numbers = { λ had dials dial fits has. elim (cases_eq dial had.dial) [
      | inl same ↦
          let e : (had.dial == dial) ≡ true = Prim.grind (arith, nat_tests) in
          rw (e, same) (get_or-set_same dials had.dial had.to 0 fits.1)
      | inr other ↦
          let e : (had.dial == dial) ≡ false = Prim.grind (arith, nat_tests) in
          rw e (get_or-set_other dials had.dial dial had.to 0 other)
    ] };

    fn admits(&self, set: &Set) -> bool {
        set.dial < 3
    }

    fn act(&mut self, set: &Set) -> Set {
        let to = self.numbers[set.dial];
        self.numbers[set.dial] = set.to;
        Set { dial: set.dial, to }
    }

    fn undo(&mut self, had: &Set) {
        self.numbers[had.dial] = had.to;
    }

    fn unpack(head: &(Set, Set)) -> (Set, Set) {
        *head
    }

    fn value(&self, dial: &usize) -> u64 {
        self.numbers[*dial]
    }

    fn was(had: &Set, dial: &usize) -> Option<u64> {
        if had.dial == *dial {
            Some(had.to)
        } else {
            None
        }
    }
}

impl Marked for Dials {}

fn three_dials() -> Dials {
    Dials { numbers: [0; 3] }
}

/// A call, and what it returns.
enum Call {
    /// Whether the machine admits that a dial is set.
    Admits(usize, bool),
    Act(usize, u64),
    Back(u32, Result<(), BackFault>),
    Forward(u32, Result<(), BackFault>),
    /// Goes back to the latest change of one dial.
    BackTo(usize, Result<u32, BackFault>),
    /// Finds the latest change of several dials.
    Find,
    /// Returns the number of a dial before the newest action.
    Before(usize, Option<u64>),
}

use Call::{Act, Admits, Back, BackTo, Before, Find, Forward};

/// A call, and afterwards the numbers, how many actions are kept, and how many are ahead.
type Row = (Call, [u64; 3], u32, u32);

/// Returns whether the changes are found: of two dials in the third action, of the last dial in none, and of no dial in none.
fn finds_changes(session: &mut Session<Dials>) -> bool {
    let mut looks = Looks::new();
    let of_two = session.find_change(&[0, 2], &mut looks);
    let of_one = session.find_change(&[2], &mut looks);
    let of_none = session.back_to_change(&[]);
    of_two == Some(3) && of_one.is_none() && of_none == Err(BackFault::NoChange { kept: 3 })
}

/// Makes a call of a dial, 0 to 2. Returns whether the result is the expected one.
fn returns(session: &mut Session<Dials>, call: &Call) -> bool {
    match *call {
        Admits(dial, admitted) => session.machine().admits(&Set { dial, to: 1 }) == admitted,
        Act(dial, to) if dial < 3 => {
            session.act(Set { dial, to });
            true
        }
        Back(n, result) => session.back(n) == result,
        Forward(n, result) => session.forward(n) == result,
        BackTo(dial, result) if dial < 3 => session.back_to_change(&[dial]) == result,
        Find => finds_changes(session),
        Before(dial, number) if dial < 3 => before_newest(session, &dial) == number,
        _ => false,
    }
}

fn is_right(session: &mut Session<Dials>, row: &Row) -> bool {
    let (call, numbers, kept, ahead) = row;
    let is_done = returns(session, call) && session.machine().numbers == *numbers;
    is_done && session.kept() == *kept && session.ahead() == *ahead
}

fn follow(rt: &impl Abort, session: &mut Session<Dials>, rows: &[Row]) {
    for i in 0..rows.len() {
        assert!(rt; is_right(session, &rows[i]), "row {i}");
    }
}

/// Follows rows in a new session whose undo history holds this many actions, 1 to 10,000 (decimal). Returns whether there is
/// memory for it, and whether it says that it holds so many.
fn follow_anew(rt: &impl Abort, alloc: Global, capacity: u32, rows: &[Row]) -> bool
    requires { (1 ≤ capacity) × (capacity ≤ 10000) }
{
    let Some(mut session) = session_of(alloc, three_dials(), capacity) else {
        return false;
    };
    follow(rt, &mut session, rows);
    session.capacity() == capacity
}

const BY_ACTIONS: [Row; 12] = [
    (Act(0, 5), [5, 0, 0], 1, 0),
    (Act(1, 6), [5, 6, 0], 2, 0),
    (Act(0, 7), [7, 6, 0], 3, 0),
    (Back(0, Ok(())), [7, 6, 0], 3, 0),
    (Back(2, Ok(())), [5, 0, 0], 1, 2),
    (Forward(0, Ok(())), [5, 0, 0], 1, 2),
    (Forward(1, Ok(())), [5, 6, 0], 2, 1),
    (Act(2, 8), [5, 6, 8], 3, 0),
    (
        Forward(1, Err(BackFault::TooFewAhead { ahead: 0 })),
        [5, 6, 8],
        3,
        0,
    ),
    (Back(3, Ok(())), [0, 0, 0], 0, 3),
    (
        Forward(4, Err(BackFault::TooFewAhead { ahead: 3 })),
        [0, 0, 0],
        0,
        3,
    ),
    (Forward(3, Ok(())), [5, 6, 8], 3, 0),
];

const LATEST_CHANGE: [Row; 6] = [
    (Act(0, 5), [5, 0, 0], 1, 0),
    (Act(1, 6), [5, 6, 0], 2, 0),
    (Act(0, 5), [5, 6, 0], 3, 0),
    (Find, [5, 6, 0], 3, 0),
    (
        BackTo(2, Err(BackFault::NoChange { kept: 3 })),
        [5, 6, 0],
        3,
        0,
    ),
    (BackTo(0, Ok(3)), [0, 0, 0], 0, 3),
];

const NEWEST_ALONE: [Row; 6] = [
    (Back(1, Err(BackFault::TooFew { kept: 0 })), [0, 0, 0], 0, 0),
    (Act(0, 1), [1, 0, 0], 1, 0),
    (Act(0, 2), [2, 0, 0], 1, 0),
    (Back(2, Err(BackFault::TooFew { kept: 1 })), [2, 0, 0], 1, 0),
    (Back(1, Ok(())), [1, 0, 0], 0, 1),
    (Back(1, Err(BackFault::TooFew { kept: 0 })), [1, 0, 0], 0, 1),
];

const UNDONE_IN_PART: [Row; 9] = [
    (Act(0, 1), [1, 0, 0], 1, 0),
    (Act(1, 2), [1, 2, 0], 2, 0),
    (Act(0, 3), [3, 2, 0], 3, 0),
    (Act(1, 4), [3, 4, 0], 3, 0),
    (Back(3, Ok(())), [1, 0, 0], 0, 3),
    (Forward(2, Ok(())), [3, 2, 0], 2, 1),
    (BackTo(1, Ok(2)), [1, 0, 0], 0, 3),
    (Forward(3, Ok(())), [3, 4, 0], 3, 0),
    (BackTo(0, Ok(2)), [1, 2, 0], 1, 2),
];

const BEFORE_THE_NEWEST: [Row; 6] = [
    (Act(1, 3), [0, 3, 0], 1, 0),
    (Act(1, 4), [0, 4, 0], 2, 0),
    (Before(1, Some(3)), [0, 4, 0], 2, 0),
    (Before(0, None), [0, 4, 0], 2, 0),
    (Back(1, Ok(())), [0, 3, 0], 1, 1),
    (Before(1, Some(0)), [0, 3, 0], 1, 1),
];

/// What the machine admits.
const ADMITTED: [Row; 2] = [
    (Admits(2, true), [0, 0, 0], 0, 0),
    (Admits(3, false), [0, 0, 0], 0, 0),
];

#[test]
fn sessions(rt: HostRuntime) {
    let alloc = rt.alloc();
    let rows = [
        follow_anew(&rt, alloc, 4, &BY_ACTIONS),
        follow_anew(&rt, alloc, 4, &LATEST_CHANGE),
        follow_anew(&rt, alloc, 1, &NEWEST_ALONE),
        follow_anew(&rt, alloc, 3, &UNDONE_IN_PART),
        follow_anew(&rt, alloc, 2, &BEFORE_THE_NEWEST),
        follow_anew(&rt, alloc, 1, &ADMITTED),
        // A place has no mark.
        !Marks::of::<Dials>(&[]).has_unmarked(),
        Marks::of::<Dials>(&[2]).has_unmarked(),
    ];
    check_rows(&rt, &rows);
}
