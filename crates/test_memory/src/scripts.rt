//! Runs scripts into a sink of fixed size, after everything else is made.

use crate::constructors::{report, session};
use pp_console::serve;
use pp_history::Session;
use pp_lines::{Feed, Tray};
use pp_rig::Rig;
use std::io::Write;

const BLOCK: &str = "SET C 1000 00010002000300040005
SET A 0 1000
SET M 0 10 2
SET M 0 100 6110 7776
SET P 0 100
STEP 37
DUMP PP 0
DUMP M 0 0 2
DUMP M 0 7776 7777
BACK 37
DUMP M 0 0 2
";

const EXCHANGES: &str = "SET C 1000 1234000005123456
SET A 0 1000
SET M 0 100 2600 2600
SET P 0 100
STEP 13
DUMP C 1000 1000
BACK 13
DUMP C 1000 1000
";

const CARD: &str = "SET M 0 100 7712 1 7412 7112 300 300
SET A 0 200
SET P 0 100
STEP 1465
DUMP CR
BACK
DUMP CR
STEP 13
DUMP PP 0
DUMP M 0 300 303
";

const LINE: &str = "SET M 0 100 7713 1 7413 7313 300 7513 7713 3
SET A 0 106
SET P 0 100
STEP 1357
DUMP LP
BACK
DUMP LP
";

const WATCH: &str = "SET M 0 100 1405 2400 3450
SET P 0 100
WATCH M 0 50
STEP 1000
BACK W
DUMP M 0 50 50
BACK W
DUMP M 0 50 50
";

const WATCHES: &str = "WATCH A 0
WATCH P 0
WATCH Q 0
UNWATCH P 0
DUMP W
BACK
DUMP W
";

/// Returns a session for each script.
fn sessions(rt: &HostRuntime) -> Option<Vec<Session<Rig>>> {
    let mut sessions = report(
        rt,
        "the room for sessions",
        Vec::with_capacity(rt.alloc(), 6),
    )?;
    for _ in 0..6u8 {
        sessions.push(session(rt)?).ok()?;
    }
    Some(sessions)
}

/// Writes the answers to a script.
fn answer(rt: &HostRuntime, title: &str, mut session: Session<Rig>, script: &str) {
    let mut out = Tray::new(4096);
    let served = serve(
        &mut session,
        &mut Feed::new(script.as_bytes(), 4096),
        &mut out,
    );
    let _ = println!(rt; "{title}:");
    let _ = rt.stdout().write_all(out.text());
    if let Err(fault) = served {
        let _ = println!(rt; "{fault:?}");
    }
}

/// Runs each script in a session of its own, once all the sessions are made.
pub fn run(rt: &HostRuntime) -> Option<()> {
    let mut sessions = sessions(rt)?.into_iter();
    answer(
        rt,
        "a block over its return address",
        sessions.next()?,
        BLOCK,
    );
    answer(rt, "two exchanges", sessions.next()?, EXCHANGES);
    answer(rt, "a card", sessions.next()?, CARD);
    answer(rt, "a line", sessions.next()?, LINE);
    answer(rt, "a watched cell", sessions.next()?, WATCH);
    answer(rt, "watched registers", sessions.next()?, WATCHES);
    Some(())
}
