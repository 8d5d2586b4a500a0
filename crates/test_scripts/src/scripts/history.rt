//! Runs, watches, back and forward.
use super::{With, follows, follows_all};

const MOVES: [&str; 5] = [
    // An undo history of ten thousand actions.
    "\
> STEP 23421
TURNS 23421 SLOT 01
> BACK 23421
ERR 07 TOO FEW KEPT
> BACK 23420
BACK 23420 SLOT 01
",
    // Undone actions can be redone until a new action is performed.
    "\
> SET A 0 1
OK
> SET A 0 2
OK
> SET A 0 3
OK
> BACK 2
BACK 2 SLOT 00
> FORWARD
FORWARD 1 SLOT 00
> DUMP PP 0
PP 00 P 0000 A 000002 Q 0000 PHASE 0000 SLOT 00
> SET Q 0 7
OK
> FORWARD
ERR 16 TOO FEW AHEAD
> BACK 3
BACK 3 SLOT 00
> FORWARD 3
FORWARD 3 SLOT 00
> DUMP PP 0
PP 00 P 0000 A 000002 Q 0007 PHASE 0000 SLOT 00
",
    // WATCH is an action like the others.
    "\
> WATCH A 0
OK
> BACK
BACK 1 SLOT 00
> WATCH A 1
OK
> FORWARD
ERR 16 TOO FEW AHEAD
",
    // Rejected lines, dumps, BACK, BACK W without a change and FORWARD keep the rest of the redo list.
    "\
> WATCH P 0
OK
> SET A 0 1
OK
> SET A 0 2
OK
> SET A 0 3
OK
> BACK 2
BACK 2 SLOT 00
> GO
ERR 01 NOT A COMMAND
> SET C 400000 0
ERR 04 RANGE
> DUMP W
W P 00
> BACK W
ERR 10 NO CHANGE KEPT
> BACK
BACK 1 SLOT 00
> FORWARD
FORWARD 1 SLOT 00
> FORWARD 2
FORWARD 2 SLOT 00
> DUMP PP 0
PP 00 P 0000 A 000003 Q 0000 PHASE 0000 SLOT 00
",
    // Counts up to 1000000 octal.
    "\
> STEP 1000001
ERR 04 RANGE
> BACK 1000001
ERR 04 RANGE
> FORWARD 1000001
ERR 04 RANGE
> BACK 1000000
ERR 07 TOO FEW KEPT
> FORWARD 1000000
ERR 16 TOO FEW AHEAD
",
];

#[test]
fn goes_back_and_forward(rt: HostRuntime) {
    follows_all(&rt, rt.alloc(), &MOVES);
}

const WATCHES: [&str; 9] = [
    // A run stops at a change, and the change is undone.
    "\
> SET M 0 100 1405 2400 3450
OK
> SET P 0 100
OK
> WATCH M 0 50
OK
> STEP 1000
TURNS 25 SLOT 01
HIT M 00 0050 0000 0005
> BACK W
BACK 1 SLOT 00
> DUMP M 0 50 50
0050 0000
> BACK W
ERR 10 NO CHANGE KEPT
> DUMP M 0 50 50
0050 0000
",
    // Storing the same number again is not a change. The WATCH itself is undone and redone too.
    "\
> SET M 0 50 5
OK
> SET M 0 100 1405 2400 3450
OK
> SET P 0 100
OK
> WATCH M 0 50
OK
> STEP 1000
TURNS 1000 SLOT 02
> BACK W
BACK 1004 SLOT 00
> DUMP W
W NONE
> FORWARD 1004
FORWARD 1004 SLOT 02
> DUMP W
W M 00 0050
",
    // Nothing watched, watched twice, not watched, past the size.
    "\
> BACK W
ERR 15 NOTHING WATCHED
> WATCH H 3
OK
> WATCH H 3
ERR 12 ALREADY WATCHED
> UNWATCH H 4
ERR 13 NOT WATCHED
> WATCH C 400000
ERR 04 RANGE
",
    // A ninth place is rejected, and so is one that is watched already.
    "\
> WATCH M 11 7777
OK
> WATCH A 11
OK
> WATCH P 11
OK
> WATCH Q 11
OK
> WATCH C 377777
OK
> WATCH H 13
OK
> WATCH H 14
OK
> WATCH H 0
OK
> WATCH H 1
ERR 11 WATCHES FULL
> WATCH A 11
ERR 11 WATCHES FULL
> DUMP W
W M 11 7777
W A 11
W P 11
W Q 11
W C 377777
W H 13
W H 14
W H 00
",
    // A watch on the clock.
    "\
> WATCH H 14
OK
> STEP 1000
TURNS 12 SLOT 00
HIT H 14 0000 0001
> BACK W
BACK 1 SLOT 11
> BACK W
ERR 10 NO CHANGE KEPT
",
    // Changes of A and of a central word are written in their own widths.
    "\
> SET M 0 100 1405 6220
OK
> SET P 0 100
OK
> WATCH A 0
OK
> STEP 1000
TURNS 1 SLOT 01
HIT A 00 000000 000005
> UNWATCH A 0
OK
> WATCH C 5
OK
> SET M 0 20 1 2 3 4 5
OK
> STEP 1000
TURNS 12 SLOT 01
HIT C 000005 00000000000000000000 00010002000300040005
",
    // Redoing does not stop at a watch.
    "\
> SET M 0 100 1405 2400 3450
OK
> SET P 0 100
OK
> WATCH M 0 50
OK
> STEP 1000
TURNS 25 SLOT 01
HIT M 00 0050 0000 0005
> STEP
TURNS 1 SLOT 02
> BACK 26
BACK 26 SLOT 00
> FORWARD 26
FORWARD 26 SLOT 02
",
    // A change that was undone is redone.
    "\
> SET M 0 100 1405 2400 3450
OK
> SET P 0 100
OK
> WATCH M 0 50
OK
> STEP 1000
TURNS 25 SLOT 01
HIT M 00 0050 0000 0005
> BACK W
BACK 1 SLOT 00
> FORWARD
FORWARD 1 SLOT 01
> DUMP M 0 50 50
0050 0005
",
    // A watch is removed, and the undo puts it back at its old position.
    "\
> WATCH A 0
OK
> WATCH P 0
OK
> WATCH Q 0
OK
> UNWATCH P 0
OK
> DUMP W
W A 00
W Q 00
> BACK
BACK 1 SLOT 00
> DUMP W
W A 00
W P 00
W Q 00
",
];

#[test]
fn watches(rt: HostRuntime) {
    follows_all(&rt, rt.alloc(), &WATCHES);
}

/// The length of the undo history, and a session.
type ShortHistory = (u32, &'static str);

const SHORT_HISTORIES: [ShortHistory; 5] = [
    // A full undo history drops its oldest action.
    (
        4,
        "\
> SET A 0 1
OK
> SET A 0 2
OK
> SET A 0 3
OK
> SET A 0 4
OK
> SET A 0 5
OK
> BACK 5
ERR 07 TOO FEW KEPT
> BACK 4
BACK 4 SLOT 00
> DUMP PP 0
PP 00 P 0000 A 000001 Q 0000 PHASE 0000 SLOT 00
",
    ),
    // An undo history of one action.
    (
        1,
        "\
> SET A 0 1
OK
> SET A 0 2
OK
> BACK 2
ERR 07 TOO FEW KEPT
> BACK
BACK 1 SLOT 00
> BACK
ERR 07 TOO FEW KEPT
> DUMP PP 0
PP 00 P 0000 A 000001 Q 0000 PHASE 0000 SLOT 00
",
    ),
    // A change that is no longer in the undo history.
    (
        2,
        "\
> WATCH A 0
OK
> SET A 0 1
OK
> SET Q 0 1
OK
> SET Q 0 2
OK
> BACK W
ERR 10 NO CHANGE KEPT
> BACK 2
BACK 2 SLOT 00
",
    ),
    // The same change, still in the undo history.
    (
        3,
        "\
> WATCH A 0
OK
> SET A 0 1
OK
> SET Q 0 1
OK
> SET Q 0 2
OK
> BACK W
BACK 3 SLOT 00
",
    ),
    // The undo history is as long after BACK and FORWARD as before.
    (
        4,
        "\
> SET A 0 1
OK
> SET A 0 2
OK
> SET A 0 3
OK
> SET A 0 4
OK
> SET A 0 5
OK
> BACK 4
BACK 4 SLOT 00
> FORWARD 4
FORWARD 4 SLOT 00
> BACK 5
ERR 07 TOO FEW KEPT
> BACK 4
BACK 4 SLOT 00
",
    ),
];

#[test]
fn short_histories(rt: HostRuntime) {
    for i in 0..SHORT_HISTORIES.len() {
        let (capacity, session) = SHORT_HISTORIES[i];
        assert!(rt;
            follows(rt.alloc(), With::Nothing, capacity, session),
            "session {i}"
        );
    }
}
