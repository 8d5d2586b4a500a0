//! Where each number that a turn writes comes from: an operation, and the places that it reads.
#![tactic(auto)]

mod control;
mod devices;
mod kept;
mod kind;
mod laws;
mod reading;
mod recording;

pub use control::{MOST_CONTROL, next_control};
pub use kept::kept_origins;
pub use kind::TurnKind;
pub use laws::{device_reads_are_enough, parts_come_from_their_origins, reads_decide_the_turn};
pub use pp_origins::{Field, Link, MOST_LINKS, NOTHING, Operation};
pub use pp_rig::Old;
pub use reading::{NextTurn, next_origins};
pub use recording::{MOST_TURN_LINKS, Made, Recorded, coming, record_origins};
