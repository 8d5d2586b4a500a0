//! Turns of the barrel, the clock and dead start.
#![tactic(auto, unfolding(pp_step::specs::Step::pp_writes, pp_rig::specs::Turn::turn, pp_actions::specs::Deadstart::deadstart_write_list))]

ghost use Rattle.std.specs.Prelude.{◌≡◌, ℕ, [], ◌∷◌, None, length};
ghost use Rattle.pp_machine.specs.declared.place.Place.TheVariants.{CardColumn, Cell, ChannelMode, ChannelWord, Clock, PaperColumn};
ghost use Rattle.pp_machine.specs.declared.place.Place.TheVariants.{PaperLength, PaperSymbol, Phase, PrinterMode, ReaderMode, RegA};
ghost use Rattle.pp_machine.specs.declared.place.Place.TheVariants.{RegP, Slot};
ghost use Rattle.pp_actions.specs.Deadstart.{deadstart_write_list};
ghost use Rattle.pp_rig.specs.Starting.{starting};
ghost use Rattle.pp_actions.specs.declared.setup.Setup.{Setup};
ghost use Rattle.pp_worked.specs.Devices.{card};
ghost use Rattle.pp_worked.specs.Machines.{Leads, Shows, after, at_rest, blank, blank_of, dead_started};

/// The machine of these rows is the starting machine, which is 0 at every place.
pub fn starts_blank()
    ensures { (setup : Setup) → starting setup ≡ blank_of setup }
{}

/// The ten processors step in turn, 00 to 11 and then 00 again.
pub fn turns_of_the_barrel()
    ensures one { Leads at_rest ((RegP 0, 0o200) ∷ (Cell 0 0o200, 0o300) ∷ []) 1 ((RegP 0, 0o200) ∷ (RegP 1, 0) ∷ (Slot, 1) ∷ []) }
    ensures all { Leads at_rest ((RegP 0, 0o200) ∷ (Cell 0 0o200, 0o300) ∷ []) 0o12
        ((RegP 0, 0o200) ∷ (RegP 1, 1) ∷ (RegP 9, 1) ∷ (Slot, 0) ∷ []) }
    ensures twice { Leads at_rest ((RegP 0, 0o200) ∷ (Cell 0 0o200, 0o300) ∷ []) 0o24
        ((RegP 0, 0o200) ∷ (RegP 1, 2) ∷ (RegP 9, 2) ∷ (Slot, 0) ∷ []) }
{}

/// The clock increases by 1 only in the turn of slot 11, after the step of its processor. 7777 is followed by 0000.
pub fn clock_ticks()
    ensures round_the_end { Leads at_rest ((Slot, 0o11) ∷ (Clock, 0o7777) ∷ []) 1 ((Slot, 0) ∷ (Clock, 0) ∷ []) }
    ensures not_before { Leads at_rest ((Slot, 0o10) ∷ (Clock, 0o7777) ∷ []) 1 ((Slot, 0o11) ∷ (Clock, 0o7777) ∷ []) }
    ensures read_before_it_ticks { Leads at_rest
        ((Slot, 0o11) ∷ (Clock, 0o1234) ∷ (RegP 0o11, 0o100) ∷ (Cell 0o11 0o100, 0o7014) ∷ []) 1
        ((RegA 0o11, 0o1234) ∷ (RegP 0o11, 0o101) ∷ (Clock, 0o1235) ∷ (Slot, 0) ∷ []) }
    ensures read { Leads at_rest ((RegP 0, 0o100) ∷ (Cell 0 0o100, 0o2400) ∷ (Cell 0 0o101, 0o7014) ∷ []) 0o13
        ((RegA 0, 1) ∷ (RegP 0, 0o102) ∷ (Clock, 1) ∷ (Slot, 1) ∷ []) }
    ensures block { Leads at_rest ((RegA 0, 2) ∷ (RegP 0, 0o100) ∷ (Cell 0 0o100, 0o7114) ∷ (Cell 0 0o101, 0o300) ∷ []) 0o37
        ((RegA 0, 0) ∷ (RegP 0, 0o102) ∷ (Phase 0, 0) ∷ (Cell 0 0o300, 1) ∷ (Cell 0 0o301, 2) ∷ (Clock, 3) ∷ (Slot, 1) ∷ []) }
{}

/// 7712 0001 7412 7012 starts the reader, activates its channel and reads a column. The reader steps after the
/// processor in the same turn, and so the next column is in the channel at once.
pub fn card_through_a_program()
    ensures column { Leads (blank (card (0o1234 ∷ 0o4321 ∷ []) ∷ []) None)
        ((RegP 0, 0o100) ∷ (Cell 0 0o100, 0o7712) ∷ (Cell 0 0o101, 1) ∷ (Cell 0 0o102, 0o7412) ∷ (Cell 0 0o103, 0o7012) ∷ []) 0o25
        ((RegA 0, 0o1234) ∷ (RegP 0, 0o104) ∷ (ChannelMode 0o12, 2) ∷
        (ChannelWord 0o12, 0o4321) ∷ (CardColumn, 2) ∷ (ReaderMode, 1) ∷ []) }
{}

/// 7713 0001 7413 7213 7513 7713 0003 prints a line of two symbols and ends it.
pub fn line_through_a_program()
    ensures line { Leads at_rest
        ((RegA 0, 0o0102) ∷ (RegP 0, 0o100) ∷ (Cell 0 0o100, 0o7713) ∷
        (Cell 0 0o101, 1) ∷ (Cell 0 0o102, 0o7413) ∷ (Cell 0 0o103, 0o7213) ∷
        (Cell 0 0o104, 0o7513) ∷ (Cell 0 0o105, 0o7713) ∷ (Cell 0 0o106, 3) ∷ []) 0o51
        ((RegP 0, 0o107) ∷ (ChannelMode 0o13, 0) ∷ (PaperSymbol 0, 0o01) ∷ (PaperSymbol 1, 0o02) ∷ (PaperSymbol 2, 0o100) ∷
        (PaperLength, 3) ∷ (PaperColumn, 0) ∷ (PrinterMode, 1) ∷ []) }
{}

/// A dead start writes 114 places, for any panel. Processor 00 begins at the panel, and each other one waits to read
/// 10000 words from its own channel. The clock continues from its number.
pub fn dead_start()
    ensures places { (a b c d e f g h i j k l : ℕ) →
        length (deadstart_write_list (a ∷ b ∷ c ∷ d ∷ e ∷ f ∷ g ∷ h ∷ i ∷ j ∷ k ∷ l ∷ [])) ≡ 0o114 }
    ensures first { Shows (dead_started [])
        ((RegP 0, 1) ∷ (RegA 0, 0) ∷ (Phase 0, 0) ∷ (Cell 0 0, 0) ∷ (Cell 0 1, 0o1405) ∷ (Cell 0 2, 0o3420) ∷ (Cell 0 3, 0o300) ∷
        (Cell 0 0o15, 0) ∷ (RegA 1, 0o10000) ∷ (RegP 1, 0) ∷ (Phase 1, 0o7101) ∷ (RegA 0o11, 0o10000) ∷ (Phase 0o11, 0o7111) ∷
        (ChannelMode 0, 0) ∷ (ChannelMode 1, 1) ∷ (ChannelMode 0o11, 1) ∷
        (ChannelMode 0o12, 0) ∷ (ChannelMode 0o13, 0) ∷ (Slot, 0) ∷ []) }
    ensures runs { Shows (after 1 (dead_started []))
        ((RegP 0, 2) ∷ (RegA 0, 5) ∷ (RegP 1, 0) ∷ (RegA 1, 0o10000) ∷ (Phase 1, 0o7101) ∷ (Slot, 1) ∷ []) }
    ensures clock_stays { Shows (dead_started ((Clock, 0o1234) ∷ (Slot, 5) ∷ [])) ((Clock, 0o1234) ∷ (Slot, 0) ∷ []) }
    ensures clock_goes_on { Shows (after 0o12 (dead_started ((Clock, 0o1234) ∷ (Slot, 5) ∷ [])))
        ((Clock, 0o1235) ∷ (Slot, 0) ∷ []) }
{}
