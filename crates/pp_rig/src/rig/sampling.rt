//! The processor in the slot, as a row of numbers.

use super::Rig;
use crate::turn_rows::TurnRow;
use pp_history::Sampled;

impl Sampled for Rig {
    type Sample = TurnRow;

    ghost use Rattle.pp_rig.specs.TurnRows.{row_before};

    ghost sample_of = { row_before };

    #[inline(always)]
    fn sample(&self) -> TurnRow {
        let processor = &self.processors[self.slot as usize];
        let pp = &processor.pp;
        TurnRow {
            processor: u16::from(self.slot),
            p: pp.p,
            a: pp.a,
            q: pp.q,
            phase: pp.phase,
            word: processor.memory.get(pp.p),
            m: processor.memory.get((pp.p + 1) % 4096),
        }
    }
}
