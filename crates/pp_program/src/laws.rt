//! The theorem to read first, the contract of a function that does nothing.
ghost use Rattle.pp_program.specs.Outside.{Outside};
ghost use Rattle.pp_program.specs.Run.{IsCutShort, IsRun, IsWhole};
ghost use Rattle.pp_program.specs.Traces.{AreEnded};
ghost use Rattle.std.specs.Prelude.{◌≡◌, ◌⊎◌, ◌≤◌, ℕ};

/// A run with status 0 or 1 took the whole course that the program has for what its words mean, and read each file that it
/// opened, and standard input if it performs it, to its end. A run that was cut short ends with status 2 or 3.
///
/// `run` says of each run that it is an `IsRun`.
#[tactic(auto, using(crate::proofs::Status::whole_run, crate::proofs::Status::cut_run))]
pub fn only_whole_runs_end_with_0_or_1()
    ensures whole { (before after : Outside) (status : ℕ) (run : IsRun before after status) →
        status ≤ 1 →
        IsWhole before.files.known run.given run.readings run.ended run.course }
    ensures to_the_end { (before after : Outside) (status : ℕ) (run : IsRun before after status) → status ≤ 1 →
        AreEnded run.course run.ended }
    ensures cut_short { (before after : Outside) (status : ℕ) (run : IsRun before after status) →
        IsCutShort before.files.known run.given run.readings run.typed run.ended run.course →
        (status ≡ 2) ⊎ (status ≡ 3) }
{}
