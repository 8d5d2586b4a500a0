//! The ranges that every machine keeps.
ghost use Rattle.std.specs.Prelude.{All};
ghost use Rattle.pp_rig.specs.WellFormed.{IsProcessor, IsWellFormed};

use super::Rig;
use crate::processor::Processor;
use pp_machine::devices_keep_ranges;

/// Theorem: each processor is well formed.
fn keep_ranges(processors: &[Processor])
    ensures { All IsProcessor processors.now }
{
    for processor in processors {
        processor.keeps_ranges();
    }
}

impl Rig {
    /// Theorem: every machine is well formed after any sequence of calls. Each number is in its range, the paper is
    /// zero past its length, a card is left if one is being read, the watched places are distinct places of the
    /// machine, the panel has twelve words, and reader and printer have data channels of their own. The function does
    /// nothing.
    pub fn keeps_ranges(&self)
        ensures { IsWellFormed self.now }
    {
        keep_ranges(self.processors.as_slice());
        let _clock = self.channels.clock();
        let _word = self.central.get(0);
        let _package = self.frame.package();
        devices_keep_ranges(&self.devices);
    }
}
