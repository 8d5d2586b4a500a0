//! Undo records, rebuilt with another number in every field that they do not use. The contracts of all calls mention
//! only a record's pairs, and a rebuilt record has the same pairs.

ghost use Rattle.std.specs.Prelude.{◌≡◌, ℕ, length};
ghost use Rattle.pp_step.specs.Pairs.{pairs, Fits};
ghost use Rattle.pp_step.specs.Step.{pp_pairs, FitsPp};

use super::*;
use pp_machine::ChannelState::{Empty, Full};
use pp_machine::{Place, Unaligned32, Unaligned64};
use pp_step::{ExchangeRecord, Target};

/// Returns another state.
fn other(state: ChannelState) -> ChannelState {
    if state == Full { Empty } else { Full }
}

/// Returns the record with another number for each register that it does not write.
fn with_other_registers(r: StepRecord) -> StepRecord
    ensures pairs { pairs result ≡ pairs r }
    ensures fits { (size : ℕ) → Fits size r → Fits size result }
{
    StepRecord {
        p: if r.target.writes_p() { r.p } else { !r.p },
        a: if r.writes_a {
            r.a
        } else {
            Unaligned32::new(!r.a.get())
        },
        q: if r.writes_q { r.q } else { !r.q },
        phase: if r.writes_phase { r.phase } else { !r.phase },
        ..r
    }
}

/// Returns the record with another number in each field that its target does not use. Every field has its line.
fn with_other_rest(r: StepRecord) -> StepRecord
    ensures pairs { pairs result ≡ pairs r }
    ensures fits { (size : ℕ) → Fits size r → Fits size result }
{
    let x = StepRecord {
        writes_a: r.writes_a,
        writes_q: r.writes_q,
        writes_phase: r.writes_phase,
        target: r.target,
        channel: !r.channel,
        state: other(r.state),
        p: r.p,
        q: r.q,
        phase: r.phase,
        value: !r.value,
        address: Unaligned32::new(!r.address.get()),
        a: r.a,
        word: Unaligned64::new(!r.word.get()),
    };
    let address = r.address;
    let with_value = StepRecord {
        value: r.value,
        ..x
    };
    let with_state = StepRecord {
        channel: r.channel,
        state: r.state,
        ..x
    };
    let StepRecord { value, word, .. } = r;
    match r.target {
        Target::Wait | Target::Nothing => x,
        Target::Cell => StepRecord {
            address,
            ..with_value
        },
        Target::Cells | Target::Word => StepRecord { address, word, ..x },
        Target::State => with_state,
        Target::Channel => StepRecord {
            value,
            ..with_state
        },
        Target::CellAndState => StepRecord {
            address,
            value,
            ..with_state
        },
    }
}

/// Returns the rebuilt record. The record of an exchange uses every field.
#[tactic(auto, unfolding(pp_step::specs::Step::pp_pairs, pp_step::specs::Step::FitsPp))]
fn rebuilt(back: PpRecord) -> PpRecord
    ensures pairs { pp_pairs result ≡ pp_pairs back }
    ensures fits { (size : ℕ) → FitsPp size back → FitsPp size result }
{
    match back {
        PpRecord::Step(r) => PpRecord::Step(with_other_rest(with_other_registers(r))),
        PpRecord::Exchange(x) => {
            let ExchangeRecord {
                p,
                size,
                central,
                registers,
                words,
            } = x;
            PpRecord::Exchange(ExchangeRecord {
                p,
                size,
                central,
                registers,
                words,
            })
        }
    }
}

/// Puts numbers other than zero wherever the steps below read and write.
fn put_numbers(m: &mut Machine, phase: u16, word: u16, a: u32) {
    put_cells(m, 0, &[0o7070, 1, 2, 3, 4, 5]);
    put_cells(m, 0o20, &[0o300, 0o11, 0o12, 0o13, 0o14]);
    put_cells(m, 0o100, &[word, 0o200, 0o21, 0o22, 0o23, 0o24]);
    put_word(m, 8, 0o12345670123456701234);
    put_channel(m, 3, Full, 0o1234);
    put_channel(m, 4, Empty, 0o4321);
    put_registers(m, 0o100, a);
    m.pp.q = 0o17;
    put_phase(m, phase);
    for i in 0..16 {
        put_package(m, i, (u64::from(i) + 1) << 20);
    }
}

/// A phase, a word and A, and a place with the old number that the record has.
type Step = (u16, u16, u32, Place, Option<u64>);

/// Exchanges are second and last.
const STEPS: [Step; 13] = [
    (0, 0o7403, 8, Place::RegP { pp: 4 }, None),
    (0, 0o2600, 8, Place::FrameWord { i: 1 }, Some(2 << 20)),
    (0, 0o1605, 8, Place::RegA { pp: 4 }, Some(8)),
    (0, 0o3520, 8, Place::Cell { pp: 4, a: 0o20 }, Some(0o300)),
    (0, 0o6020, 8, Place::Cell { pp: 4, a: 0o24 }, Some(0o14)),
    (0, 0o6220, 9, Place::Central { a: 9 }, Some(0)),
    (0, 0o7003, 8, Place::ChannelMode { c: 3 }, Some(2)),
    (0, 0o7204, 8, Place::ChannelWord { c: 4 }, Some(0o4321)),
    (0, 0o6120, 8, Place::RegQ { pp: 4 }, Some(0o17)),
    (0o7103, 0, 0, Place::Phase { pp: 4 }, Some(0o7103)),
    (0o6320, 0, 0o777777, Place::RegA { pp: 4 }, Some(0o777777)),
    (0o7103, 0, 8, Place::Cell { pp: 4, a: 0o100 }, Some(0)),
    (0, 0o2600, 8, Place::RegA { pp: 4 }, None),
];

/// Performs a step, which writes its record over the record of the step before.
fn forward_into(m: &mut Machine, back: &mut PpRecord)
    ensures { FitsPp (length m.new.central) back.new }
{
    step_into(
        &mut m.pp,
        &mut m.memory,
        &mut m.channels,
        &mut m.central,
        &mut m.frame,
        back,
    );
}

/// Performs a step and undoes it by its rebuilt record. Returns whether the machine is as it should be each time. Only a
/// wait changes nothing.
fn is_undone(m: &mut Machine, twin: &Machine, back: &mut PpRecord, step: &Step) -> bool {
    let (_, word, _, place, number) = step;
    forward_into(m, back);
    let is_done = is_same(m, twin) == (*word == 0o7403);
    let has_number = rebuilt(*back).was(4, place) == *number;
    take_back(m, rebuilt(*back));
    is_done && has_number && is_same(m, twin)
}

fn step_is_undone(alloc: Global, back: &mut PpRecord, step: &Step) -> Result<bool, Fail> {
    let (phase, word, a, _, _) = *step;
    let mut twins = make_twins(alloc, CentralSize::K32)?;
    put_numbers(&mut twins.machine, phase, word, a);
    put_numbers(&mut twins.twin, phase, word, a);
    let undone = is_undone(&mut twins.machine, &twins.twin, back, step);
    drop(twins);
    Ok(undone)
}

/// Writes the record of each target over the record of the step before, and looks up a place.
#[test]
fn undo_by_rebuilt_records(rt: HostRuntime) -> Result<(), Fail> {
    let mut back = PpRecord::Step(StepRecord::nothing());
    for i in 0..STEPS.len() {
        let undone = step_is_undone(rt.alloc(), &mut back, &STEPS[i])?;
        assert!(rt; undone, "row {i}");
    }
    Ok(())
}

/// The size of a record in bytes. All records except an exchange's are small.
#[test]
fn sizes(rt: HostRuntime) {
    assert!(rt; size_of::<StepRecord>() <= 30);
    assert!(rt; size_of::<PpRecord>() <= 280);
}
