//! A command of the console.
ghost use Rattle.std.specs.Prelude.{◌≡◌};
ghost use Rattle.pp_command.specs.Ranges.{IsInRange};

use crate::request::Request;
use std::marker::Model;

/// A command of the console: a request whose numbers are in range, with central addresses below
/// 400000 (octal). Only `parse` creates one.
#[derive(Drop)]
pub struct Command {
    request: Request,
}

impl Model for Command {
    ghost use Rattle.pp_command.specs.Ranges.{IsInRange};
    ghost use Rattle.pp_command.specs.declared.request.Request.{Request};

    ghost Value = { Request };

    ghost view = { λ command. command.request };

    ghost invariant = { λ command. IsInRange command.request };
}

impl Command {
    /// Returns the command of a request.
    pub(crate) fn new(request: Request) -> Command
        requires { IsInRange request }
        ensures { result ≡ request }
    {
        Command { request }
    }

    /// Returns the request of the command.
    pub fn request(&self) -> &Request
        ensures value { result.now ≡ self.now }
        ensures in_range { IsInRange result.now }
    {
        &self.request
    }
}
