//! Why a line or an action is rejected.
ghost use Rattle.std.specs.Prelude.{◌≡◌};
ghost use Rattle.pp_console.specs.Refusals.{fault_text, action_fault_text};

use pp_command::LineFault;
use pp_rig::ActionFault;

/// Returns the answer to a line that is not a command.
#[tactic(auto, unfolding(crate::specs::Refusals::fault_text))]
pub fn fault_text(fault: LineFault) -> &'static [u8]
    ensures { result.now ≡ fault_text fault }
{
    match fault {
        LineFault::NotACommand => b"ERR 01 NOT A COMMAND\n",
        LineFault::WordCount => b"ERR 02 WORDS\n",
        LineFault::NotANumber => b"ERR 03 NUMBER\n",
        LineFault::OutOfRange => b"ERR 04 RANGE\n",
        LineFault::TooLong => b"ERR 05 LINE TOO LONG\n",
        LineFault::NotAscii => b"ERR 06 NOT ASCII\n",
    }
}

/// Returns the answer to an action that the machine does not admit.
#[tactic(auto, unfolding(crate::specs::Refusals::action_fault_text))]
pub fn action_fault_text(fault: ActionFault) -> &'static [u8]
    ensures { result.now ≡ action_fault_text fault }
{
    match fault {
        ActionFault::Range => fault_text(LineFault::OutOfRange),
        ActionFault::WatchesFull => b"ERR 11 WATCHES FULL\n",
        ActionFault::AlreadyWatched => b"ERR 12 ALREADY WATCHED\n",
        ActionFault::NotWatched => b"ERR 13 NOT WATCHED\n",
        ActionFault::NoPanel => b"ERR 14 NO PANEL\n",
    }
}
