//! Channels, devices and dead start.
use super::{With, follows_each};

const SESSIONS: [(With, &str); 10] = [
    // A card is read into cells.
    (
        With::Card,
        "\
> SET M 0 100 7712 1 7412 7112 300 300
OK
> SET A 0 200
OK
> SET P 0 100
OK
> STEP 1465
TURNS 1465 SLOT 01
> DUMP CR
CR H 12 CARD 0001 OF 0001 COLUMN 000 MODE IDLE
> BACK
BACK 1 SLOT 00
> DUMP CR
CR H 12 CARD 0000 OF 0001 COLUMN 120 MODE READING
> STEP 13
TURNS 13 SLOT 01
> DUMP PP 0
PP 00 P 0105 A 000060 Q 0000 PHASE 0000 SLOT 01
> DUMP M 0 300 303
0300 0001 0002 0003 0000
",
    ),
    // A line of 136 colons is printed, and its line end is undone.
    (
        With::Nothing,
        "\
> SET M 0 100 7713 1 7413 7313 300 7513 7713 3
OK
> SET A 0 106
OK
> SET P 0 100
OK
> STEP 1357
TURNS 1357 SLOT 01
> DUMP LP
LP H 13 SYMBOLS 000211 COLUMN 000 MODE PRINTING
|::::::::::::::::::::::::::::::::::::::::::::::::::::::::::::::::::::::::::::::::::::::::::::::::::::::::::::::::::::::::::::::::::::::::
> BACK
BACK 1 SLOT 00
> DUMP LP
LP H 13 SYMBOLS 000210 COLUMN 210 MODE PRINTING
/::::::::::::::::::::::::::::::::::::::::::::::::::::::::::::::::::::::::::::::::::::::::::::::::::::::::::::::::::::::::::::::::::::::::
",
    ),
    // Each symbol of display code is printed.
    (
        With::Nothing,
        "\
> SET M 0 100 7713 1 7413 7313 300 7513 7713 3
OK
> SET M 0 300 0001 0203 0405 0607 1011 1213 1415 1617
OK
> SET M 0 310 2021 2223 2425 2627 3031 3233 3435 3637
OK
> SET M 0 320 4041 4243 4445 4647 5051 5253 5455 5657
OK
> SET M 0 330 6061 6263 6465 6667 7071 7273 7475 7677
OK
> SET A 0 40
OK
> SET P 0 100
OK
> STEP 563
TURNS 563 SLOT 01
> DUMP LP
LP H 13 SYMBOLS 000101 COLUMN 000 MODE PRINTING
|:ABCDEFGHIJKLMNOPQRSTUVWXYZ0123456789+-*/()$= ,.#[]%\"_!&'?<>@\\^;
",
    ),
    // Without a panel there is no dead start.
    (
        With::Nothing,
        "\
> DEADSTART
ERR 14 NO PANEL
",
    ),
    // One channel is empty, and the others are inactive.
    (
        With::Nothing,
        "\
> SET H 3 E 17
OK
> DUMP H
H 00 I 0000
H 01 I 0000
H 02 I 0000
H 03 E 0017
H 04 I 0000
H 05 I 0000
H 06 I 0000
H 07 I 0000
H 10 I 0000
H 11 I 0000
H 12 I 0000
H 13 I 0000
H 14 F 0000
",
    ),
    // Channels in each state, one with a function code.
    (
        With::Nothing,
        "\
> SET H 0 F 7777
OK
> SET H 1 E
OK
> SET H 2 I 1
OK
> SET M 0 100 7605
OK
> SET A 0 654321
OK
> SET P 0 100
OK
> STEP
TURNS 1 SLOT 01
> DUMP H
H 00 F 7777
H 01 E 0000
H 02 I 0001
H 03 I 0000
H 04 I 0000
H 05 X 4321
H 06 I 0000
H 07 I 0000
H 10 I 0000
H 11 I 0000
H 12 I 0000
H 13 I 0000
H 14 F 0000
",
    ),
    // Both devices before their first step.
    (
        With::Nothing,
        "\
> DUMP CR
CR H 12 CARD 0000 OF 0000 COLUMN 000 MODE IDLE
> DUMP LP
LP H 13 SYMBOLS 000000 COLUMN 000 MODE IDLE
",
    ),
    // Both devices after a request for their status.
    (
        With::Nothing,
        "\
> SET M 0 100 7712 2 7713 2
OK
> SET P 0 100
OK
> STEP 13
TURNS 13 SLOT 01
> DUMP CR
CR H 12 CARD 0000 OF 0000 COLUMN 000 MODE STATUS
> DUMP LP
LP H 13 SYMBOLS 000000 COLUMN 000 MODE STATUS
> STEP
TURNS 1 SLOT 02
> SET H 12 E
OK
> STEP
TURNS 1 SLOT 03
> DUMP CR
CR H 12 CARD 0000 OF 0000 COLUMN 000 MODE SENT
",
    ),
    // The program of the panel runs, and is undone.
    (
        With::Panel,
        "\
> DEADSTART
OK
> STEP
TURNS 1 SLOT 01
> DUMP PP 0
PP 00 P 0002 A 000005 Q 0000 PHASE 0000 SLOT 01
> DUMP PP 1
PP 01 P 0000 A 010000 Q 0000 PHASE 7101 SLOT 01
> BACK 2
BACK 2 SLOT 00
> DUMP PP 1
PP 01 P 0000 A 000000 Q 0000 PHASE 0000 SLOT 00
",
    ),
    // Dead start makes channels 01 to 11 empty and clears the cell after the panel's words.
    (
        With::Panel,
        "\
> SET M 0 15 7777
OK
> DEADSTART
OK
> DUMP H
H 00 I 0000
H 01 E 0000
H 02 E 0000
H 03 E 0000
H 04 E 0000
H 05 E 0000
H 06 E 0000
H 07 E 0000
H 10 E 0000
H 11 E 0000
H 12 I 0000
H 13 I 0000
H 14 F 0000
> DUMP M 0 0 15
0000 0000 1405 3420 0300 0000 0000 0000 0000
0010 0000 0000 0000 0000 0000 0000
",
    ),
];

#[test]
fn devices(rt: HostRuntime) {
    follows_each(&rt, rt.alloc(), &SESSIONS);
}
