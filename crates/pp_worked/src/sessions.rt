//! Undo and redo.
#![tactic(auto, unfolding(pp_step::specs::Step::pp_writes, pp_rig::specs::Turn::turn, pp_rig::specs::Stopping::stopped, pp_actions::specs::Watches::watched_at))]

ghost use Rattle.std.specs.Prelude.{◌≡◌, [], ◌∷◌, None, Some};
ghost use Rattle.pp_history.specs.SessionValue.{after_back, after_forward};
ghost use Rattle.pp_machine.specs.Machine.{number};
ghost use Rattle.pp_machine.specs.declared.place.Place.TheVariants.{Cell, Clock, RegA, RegQ};
ghost use Rattle.pp_rig.specs.Stopping.{stopped};
ghost use Rattle.pp_actions.specs.declared.action.Action.TheVariants.{SetA, SetCells, SetP, SetQ, Turn};
ghost use Rattle.pp_actions.specs.declared.watched.Watched.TheVariants.{Cell as WatchedCell};
ghost use Rattle.pp_worked.specs.Sessions.{back_w, machine, seen_to_change, session, storing};

/// BACK undoes the newest actions in the undo history, and FORWARD redoes them.
pub fn taken_back()
    ensures back { number
        (machine (after_back (session 4 (SetA 0 1 ∷ SetA 0 2 ∷ SetA 0 3 ∷ SetA 0 4 ∷ SetA 0 5 ∷ [])) 4)) (RegA 0) ≡ 1 }
    ensures kept { (session 4 (SetA 0 1 ∷ SetA 0 2 ∷ SetA 0 3 ∷ SetA 0 4 ∷ SetA 0 5 ∷ [])).kept ≡ 4 }
    ensures forward { number
        (machine (after_forward (after_back (session 4 (SetA 0 1 ∷ SetA 0 2 ∷ SetA 0 3 ∷ [])) 2) 1)) (RegA 0) ≡ 2 }
    ensures forward_all { number
        (machine (after_forward (after_back (session 4 (SetA 0 1 ∷ SetA 0 2 ∷ SetQ 0 7 ∷ [])) 3) 3)) (RegQ 0) ≡ 7 }
{}

/// BACK W goes back to the latest change of a watched number. Storing the same number again is not a change, and a
/// change whose record is no longer in the undo history does not count.
pub fn latest_change()
    ensures store { back_w (session 0o100 (SetA 0 5 ∷ SetCells 0 0o100 (0o3450 ∷ []) ∷ SetP 0 0o100 ∷ Turn ∷ Turn ∷ Turn ∷ []))
        (Cell 0 0o50 ∷ []) ≡ Some 3 }
    ensures same_number { back_w
        (session 0o100 (SetCells 0 0o50 (5 ∷ []) ∷ SetA 0 5 ∷ SetCells 0 0o100 (0o3450 ∷ []) ∷ SetP 0 0o100 ∷ Turn ∷ []))
        (Cell 0 0o50 ∷ []) ≡ Some 5 }
    ensures tick { back_w (session 0o100 (Turn ∷ Turn ∷ Turn ∷ Turn ∷ Turn ∷ Turn ∷ Turn ∷ Turn ∷ Turn ∷ Turn ∷ []))
        (Clock ∷ []) ≡ Some 1 }
    ensures no_tick { back_w (session 0o100 (Turn ∷ Turn ∷ Turn ∷ Turn ∷ Turn ∷ Turn ∷ Turn ∷ Turn ∷ Turn ∷ []))
        (Clock ∷ []) ≡ None }
    ensures not_kept { back_w (session 2 (SetA 0 1 ∷ SetQ 0 1 ∷ SetQ 0 2 ∷ [])) (RegA 0 ∷ []) ≡ None }
    ensures kept { back_w (session 3 (SetA 0 1 ∷ SetQ 0 1 ∷ SetQ 0 2 ∷ [])) (RegA 0 ∷ []) ≡ Some 3 }
{}

/// A run of turns ends with the first one that changes a watched number. The program 1405 2400 3450 stores its five in
/// the third turn of processor 00, which is turn 25 in all.
pub fn first_change()
    ensures turns { (stopped 0o30 storing).turns ≡ 0o25 }
    ensures hit { (stopped 0o30 storing).hit ≡ Some (seen_to_change (WatchedCell 0 0o50) 0 5) }
    ensures none { (stopped 0o24 storing).hit ≡ None }
{}
