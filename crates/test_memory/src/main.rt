//! A program only for `tests/memory`. It calls each constructor that takes memory, prints each result, and then runs
//! scripts, which take no memory. If a constructor fails the program ends, except for a session: that is made again
//! from the machine that the failed call returned.
#![tactic(auto)]

mod constructors;
mod scripts;

use std::io::Read;
use std::process::ExitCode;

/// Requests memory once, and returns whether the request was granted.
fn request(rt: &HostRuntime) -> bool {
    vec![in rt.alloc(); 0u8; 1].is_ok()
}

/// Makes a request for each byte of standard input. They shift which of the later requests has the number that the
/// toolchain refuses.
fn spend(rt: &HostRuntime) {
    let mut input = rt.stdin();
    let mut byte = [0; 1];
    for _ in 0..u64::MAX {
        let Ok(1) = input.read(&mut byte) else {
            return;
        };
        let _granted = request(rt);
    }
}

fn perform(rt: &HostRuntime) -> Option<()> {
    constructors::parts(rt)?;
    constructors::files_and_arguments(rt)?;
    scripts::run(rt)?;
    if !request(rt) {
        let _ = println!(rt; "the request after all scripts refused");
        return None;
    }
    let _ = println!(rt; "the request after all scripts granted");
    Some(())
}

fn main(rt: HostRuntime) -> ExitCode {
    spend(&rt);
    match perform(&rt) {
        Some(()) => ExitCode::SUCCESS,
        None => ExitCode::FAILURE,
    }
}
