//! The parts of the starting machine that need memory, without the devices.
ghost use Rattle.std.specs.Prelude.{◌≡◌, IfOk, replicate};
ghost use Rattle.pp_machine.specs.CentralSizes.{words_of};
ghost use Rattle.pp_rig.specs.Starting.{blank_processor};
ghost use Rattle.pp_machine.specs.Ranges.{processor_count};

use crate::processor::Processor;
use pp_machine::{Central, CentralSize, MakeFault};
use std::alloc::Global;

/// Creates ten processors whose numbers are all 0.
fn blank_processors(alloc: Global) -> Result<Vec<Processor>, MakeFault>
    ensures { IfOk result (λ v. v.items ≡ replicate processor_count blank_processor) }
{
    let mut processors = Vec::new(alloc);
    for _i in 0..10u8 {
        processors.push(Processor::new(alloc)?)?;
    }
    Ok(processors)
}

/// Creates the processors and central memory, with every number 0.
pub(super) fn allocate(
    alloc: Global,
    central_size: CentralSize,
) -> Result<(Vec<Processor>, Central), MakeFault>
    ensures processors { IfOk result (λ parts. parts.0.items ≡ replicate processor_count blank_processor) }
    ensures central { IfOk result (λ parts. parts.1 ≡ replicate (words_of central_size) 0) }
{
    let processors = blank_processors(alloc)?;
    let central = Central::new(alloc, central_size)?;
    Ok((processors, central))
}
