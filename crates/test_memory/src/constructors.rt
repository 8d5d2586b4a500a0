//! Calls each constructor, and prints its result.
ghost use Rattle.std.specs.Prelude.{◌≡◌, ◌<◌, All, IfSome, Ok};

use pp_arguments::read_arguments;
use pp_files::load_deck;
use pp_history::Session;
use pp_lines::Feed;
use pp_machine::{Central, CentralSize, Memory12, Printer};
use pp_rig::{Rig, Setup};
use std::alloc::{AllocError, Global};
use std::fmt::Debug;

/// The largest number of actions in an undo history.
const KEPT: u32 = 10_000;

/// Prints the result of a constructor.
pub fn report<T, E: Debug + Drop>(rt: &HostRuntime, call: &str, outcome: Result<T, E>) -> Option<T>
    ensures { IfSome result (λ made. outcome ≡ Ok made) }
{
    match outcome {
        Ok(made) => {
            let _ = println!(rt; "{call} made");
            Some(made)
        }
        Err(fault) => {
            let _ = println!(rt; "{call} {fault:?}");
            None
        }
    }
}

/// Makes the parts of a machine that take memory.
pub fn parts(rt: &HostRuntime) -> Option<()> {
    let _memory = report(rt, "Memory12::new", Memory12::new(rt.alloc()))?;
    let _central = report(
        rt,
        "Central::new",
        Central::new(rt.alloc(), CentralSize::K128),
    )?;
    let _printer = report(rt, "Printer::new", Printer::new(rt.alloc()))?;
    Some(())
}

/// Returns a command line with every option. Three options have the name of a file.
fn words(alloc: Global) -> Result<Vec<String>, AllocError> {
    let line =
        "pp6600 --history=7 --central=64 --deck=cards --reader=0 --printer=1 --panel=dead lines";
    let mut words = Vec::new(alloc);
    for word in line.split_whitespace() {
        words.push(String::from_str(alloc, word)?)?;
    }
    Ok(words)
}

/// Returns the deck of the lines of a file.
fn deck(rt: &HostRuntime, lines: &[u8]) -> Option<Vec<[u16; 80]>>
    ensures { IfSome result (λ deck. All (All (λ word. word < 0o10000)) deck.items) }
{
    let mut file = Feed::new(lines, 4096);
    report(rt, "load_deck", load_deck(rt.alloc(), &mut file))
}

/// Loads a deck that grows more than once, and reads the options of the words of a command line.
pub fn files_and_arguments(rt: &HostRuntime) -> Option<()> {
    let _nine_cards = deck(rt, b"1\n2\n3\n4\n5\n6\n7\n10\n11\n")?;
    let words = report(rt, "words", words(rt.alloc()))?;
    let _options = report(rt, "read_arguments", read_arguments(rt.alloc(), words))?;
    Some(())
}

/// Returns a session of a new machine with a card in its reader. If the constructor fails, it is called again with
/// the machine that it returned.
pub fn session(rt: &HostRuntime) -> Option<Session<Rig>> {
    let setup = Setup {
        central: CentralSize::K128,
        reader: 0o12,
        printer: 0o13,
        deck: deck(rt, b"1 2 3\n")?,
        panel: None,
    };
    let rig = report(rt, "Rig::new", Rig::new(rt.alloc(), setup))?;
    match Session::new(rt.alloc(), rig, KEPT) {
        Ok(session) => report::<_, ()>(rt, "Session::new", Ok(session)),
        Err(unmade) => {
            let _ = println!(rt; "Session::new Unmade");
            let again = Session::new(rt.alloc(), unmade.machine, KEPT);
            report(rt, "Session::new", again.map_err(|_| "Unmade again"))
        }
    }
}
