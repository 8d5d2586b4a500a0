//! One turn of the barrel, and its undoing.
ghost use Rattle.std.specs.Prelude.{◌≡◌, ◌<◌, ◌≤◌, IsTrue, false, None};
ghost use Rattle.pp_history.specs.Tails.{IsKept};
ghost use Rattle.pp_machine.specs.Inner.AllDevices.{all_model};
ghost use Rattle.pp_machine.specs.Inner.PartWrites.{ArePerformed};
ghost use Rattle.pp_machine.specs.Prelude.{over};
ghost use Rattle.pp_rig.specs.Inner.IsMachine.{IsMachine};
ghost use Rattle.pp_rig.specs.Turn.{pp_of};
ghost use Rattle.pp_rig.specs.Inner.Short.{IsTurned, unpacked, whole_turn};
ghost use Rattle.pp_rig.specs.Inner.TurnRecords.{AreDevicesStepped, FitsRest, FitsTurn, KeepsSlot, end_old_values, end_parts};
ghost use Rattle.pp_rig.specs.Inner.TurnRecords.{rest_of_turn, rest_pairs, turn_pairs};
ghost use Rattle.pp_step.specs.Step.{IsExchange};
ghost use Rattle.pp_machine.specs.Ranges.{cell_count, processor_count};

use super::{Rig, RigRecord, ShortTurn, TurnRecord, TurnRest};
use pp_actions::Action;
use pp_history::Tails;
use pp_machine::{AllRecords, Devices};
use pp_step::{step_into, step_short, undo_by, undo_short};

impl Rig {
    /// Steps the devices. Most turns do not call it: if it is inlined, `STEP` takes 1 to 2 per cent more instructions. It is
    /// cold, so the compiler lays out the other turns in line.
    #[cold]
    #[inline(never)]
    fn step_called_devices(&mut self, back: &mut TurnRest)
        ensures { AreDevicesStepped self.old self.new back.new }
    {
        back.are_devices_called = true;
        back.devices = self.devices.step(&mut self.channels);
    }

    /// Steps the devices, if the channel of one is active. If none is, they do nothing.
    #[inline(always)]
    fn step_devices(&mut self, back: &mut TurnRest)
        ensures { AreDevicesStepped self.old self.new back.new }
    {
        if self.devices.are_called(&self.channels) {
            self.step_called_devices(back);
        } else {
            back.are_devices_called = false;
        }
    }

    /// Undoes the steps of the devices. It is a separate function for the same reason as `step_called_devices`.
    #[inline(never)]
    fn undo_devices(&mut self, back: &AllRecords)
        requires { all_model.Fits back.now self.old }
        ensures undoes { self.new ≡ over self.old (all_model.pairs back.now) }
        ensures keeps_slot { KeepsSlot self.old self.new }
    {
        self.devices.undo(back, &mut self.channels);
    }

    /// Advances the clock, in the turn of the last processor alone, and then the slot. Writes what they were over `back`,
    /// the clock in that turn alone. Takes the slot, so a turn reads it once.
    #[inline(always)]
    fn end_turn(&mut self, slot: u8, back: &mut TurnRest)
        requires { slot ≡ self.old.slot }
        ensures performed { ArePerformed end_parts self.old self.new (end_old_values back.new) }
        ensures called { back.new.are_devices_called ≡ back.old.are_devices_called }
        ensures devices { back.new.devices ≡ back.old.devices }
        ensures slot { back.new.slot ≡ self.old.slot }
        ensures small_slot { back.new.slot < processor_count }
        ensures small_clock { back.new.slot ≡ 0o11 → back.new.clock < cell_count }
        ensures setup { self.new.setup ≡ self.old.setup }
        ensures machine { IsMachine self.new }
    {
        back.slot = slot;
        if slot == 9 {
            let clock = self.channels.clock();
            back.clock = clock;
            self.channels.set_clock((clock + 1) % 4096);
            self.slot = 0;
        } else {
            self.slot = slot + 1;
        }
    }

    /// Performs the part of a turn after the processor's step.
    #[inline(always)]
    #[tactic(auto, using(crate::proofs::Stepped::rest_fits))]
    fn finish_turn(&mut self, slot: u8, back: &mut TurnRest)
        requires { slot ≡ self.old.slot }
        ensures performed { ArePerformed rest_of_turn self.old self.new (rest_pairs back.new) }
        ensures fits { FitsRest back.new self.new }
        ensures slot { back.new.slot ≡ self.old.slot }
        ensures setup { self.new.setup ≡ self.old.setup }
        ensures machine { IsMachine self.new }
    {
        self.step_devices(back);
        self.end_turn(slot, back);
    }

    #[inline(always)]
    fn undo_end(&mut self, back: &TurnRest)
        requires slot { back.now.slot < processor_count }
        requires clock { back.now.slot ≡ 0o11 → back.now.clock < cell_count }
        ensures undoes { self.new ≡ over self.old (end_old_values back.now) }
        ensures setup { self.new.setup ≡ self.old.setup }
    {
        self.slot = back.slot;
        if back.slot == 9 {
            self.channels.set_clock(back.clock);
        }
    }

    #[inline(always)]
    #[tactic(auto, using(crate::proofs::Stepped::rest_undone))]
    fn undo_rest(&mut self, back: &TurnRest)
        requires { FitsRest back.now self.old }
        ensures undoes { self.new ≡ over self.old (rest_pairs back.now) }
        ensures setup { self.new.setup ≡ self.old.setup }
    {
        self.undo_end(back);
        if back.are_devices_called {
            self.undo_devices(&back.devices);
        }
    }

    /// Performs one turn of the barrel, and writes its undo record over `back`.
    pub(super) fn turn(&mut self, back: &mut TurnRecord)
        ensures { IsTurned self.old self.new back.new }
    {
        let slot = self.slot;
        let processor = &mut self.processors[slot as usize];
        step_into(
            &mut processor.pp,
            &mut processor.memory,
            &mut self.channels,
            &mut self.central,
            &mut self.frame,
            &mut back.pp,
        );
        self.finish_turn(slot, &mut back.rest);
    }

    /// Performs one turn of the barrel, unless the processor would perform an exchange, and writes its undo record over
    /// `back`. Returns `false` if the processor would perform an exchange; nothing has changed then.
    #[inline(always)]
    pub(super) fn turn_short(&mut self, back: &mut ShortTurn) -> bool
        ensures turns { IsTrue result → IsTurned self.old self.new (whole_turn back.new) }
        ensures unchanged { result ≡ false → self.new ≡ self.old }
        ensures is_exchange { result ≡ false → IsExchange (pp_of self.old.slot self.old) }
    {
        let slot = self.slot;
        let processor = &mut self.processors[slot as usize];
        let is_done = step_short(
            &mut processor.pp,
            &mut processor.memory,
            &mut self.channels,
            &mut self.central,
            &self.frame,
            &mut back.pp,
        );
        if is_done {
            self.finish_turn(slot, &mut back.rest);
        }
        is_done
    }

    /// Performs one turn of the barrel and keeps it: in `head`, or in a tail if the processor makes an exchange.
    #[inline(always)]
    pub(super) fn perform_turn(
        &mut self,
        head: &mut Option<ShortTurn>,
        tails: &mut Tails<Action, RigRecord>,
    )
        requires { 1 ≤ tails.old.ring.capacity }
        ensures turns { (back : TurnRecord) × IsTurned self.old self.new back
            × IsKept unpacked head.new Action.Turn (RigRecord.Turn back) tails.old tails.new }
        ensures is_exchange { head.new ≡ None → IsExchange (pp_of self.old.slot self.old) }
    {
        if head.is_none() {
            *head = Some(ShortTurn::default());
        }
        if let Some(turn) = head {
            if self.turn_short(turn) {
                return;
            }
        }
        *head = None;
        self.turn_with_tail(tails);
    }

    /// Performs a turn and keeps it in a tail, in place. With a copy, a loop of exchanges takes 1.8 times as many instructions.
    #[cold]
    #[inline(never)]
    fn turn_with_tail(&mut self, tails: &mut Tails<Action, RigRecord>)
        requires { 1 ≤ tails.old.ring.capacity }
        ensures { (back : TurnRecord) × IsTurned self.old self.new back
            × IsKept unpacked None Action.Turn (RigRecord.Turn back) tails.old tails.new }
    {
        tails.push(Action::Turn, RigRecord::Turn(TurnRecord::blank()));
        let tail = tails.newest().unwrap();
        match &mut tail.back {
            Some(RigRecord::Turn(turn)) => self.turn(turn),
            _ => unreachable!(),
        }
    }

    /// Undoes a turn that has a tail.
    pub(super) fn undo_turn(&mut self, back: &TurnRecord)
        requires { FitsTurn back.now self.old }
        ensures { self.new ≡ over self.old (turn_pairs back.now) }
    {
        self.undo_rest(&back.rest);
        let processor = &mut self.processors[back.rest.slot as usize];
        undo_by(
            &back.pp,
            &mut processor.pp,
            &mut processor.memory,
            &mut self.channels,
            &mut self.central,
            &mut self.frame,
        );
    }

    /// Undoes a turn that has a head. If its record is made whole first, `BACK` takes up to 7 times as many instructions.
    #[inline(always)]
    pub(super) fn undo_turn_short(&mut self, back: &ShortTurn)
        requires { FitsTurn (whole_turn back.now) self.old }
        ensures { self.new ≡ over self.old (turn_pairs (whole_turn back.now)) }
    {
        let slot = back.rest.slot;
        self.undo_rest(&back.rest);
        let processor = &mut self.processors[slot as usize];
        undo_short(
            &back.pp,
            &mut processor.pp,
            &mut processor.memory,
            &mut self.channels,
            &mut self.central,
        );
    }
}
