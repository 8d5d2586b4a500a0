//! The calls of `pp_step`: one step, and its undoing.

use pp_machine::{Central, CentralSize, Channels, Frame, Memory12, Place, Pp};
use pp_step::{decode, step, undo};

/// Loads 5 into A by an instruction, and undoes the step.
pub fn show(rt: &HostRuntime) -> Option<()> {
    let mut memory = Memory12::new(rt.alloc()).ok()?;
    let mut central = Central::new(rt.alloc(), CentralSize::K32).ok()?;
    let (mut channels, mut frame, mut pp) = (Channels::new(), Frame::new(), Pp::new());
    memory.set(0o100, 0o1405);
    pp.p = 0o100;
    let back = step(
        &mut pp,
        &mut memory,
        &mut channels,
        &mut central,
        &mut frame,
    );
    let (d, a, p) = (decode(0o1405).d, pp.a, pp.p);
    let was = back.was(0, &Place::RegA { pp: 0 });
    undo(
        back,
        &mut pp,
        &mut memory,
        &mut channels,
        &mut central,
        &mut frame,
    );
    let before = pp.p;
    let _ = println!(rt; "d {d}, A {a} was {was:?}, P {p:o} and {before:o}");
    Some(())
}
