//! What a handle holds.
ghost use Rattle.pp_history.specs.SessionValue.{after_back, after_forward};
ghost use Rattle.pp_library.specs.Moving.{MovesOr};
ghost use Rattle.std.specs.Prelude.{length};

use crate::status::{DONE, REFUSED};
use pp_history::Session;
use pp_rig::Rig;

/// The console of one session.
#[derive(Drop)]
pub struct Console {
    pub session: Session<Rig>,
}

impl Console {
    /// Undoes the newest actions, all of them or none.
    pub fn back(&mut self, count: u32) -> u32
        ensures { MovesOr count (length self.old.session.records) (λ v. after_back v count)
            self.old.session self.new.session result }
    {
        match self.session.back(count) {
            Ok(()) => DONE,
            Err(_) => REFUSED,
        }
    }

    /// Performs actions ahead again, all of them or none.
    pub fn forward(&mut self, count: u32) -> u32
        ensures { MovesOr count (length self.old.session.ahead) (λ v. after_forward v count)
            self.old.session self.new.session result }
    {
        match self.session.forward(count) {
            Ok(()) => DONE,
            Err(_) => REFUSED,
        }
    }
}
