//! Commands.

ghost use Rattle.std.specs.Prelude.{◌≡◌, ◌↔◌, IsTrue};
ghost use Rattle.std.specs.Cmp.{partial_equiv_from_equiv};
ghost use Rattle.sessions.specs.Same.{same_command, same_command_equiv};

use crate::request::Request;
use std::alloc::AllocError;

/// What stands at a place of a list that is executed.
#[derive(Drop)]
pub enum Command {
    /// Nothing is asked for: it fills a gap.
    NoOp,
    /// What a client asked for.
    Request(Request),
}

impl Clone for Command {
    ghost is_clone = { λ original copy. copy ≡ original };

    fn clone(&self) -> Result<Command, AllocError> {
        match self {
            Command::NoOp => Ok(Command::NoOp),
            Command::Request(request) => Ok(Command::Request(request.clone()?)),
        }
    }
}

impl PartialEq for Command {
    ghost eq = { same_command };

    ghost laws = { partial_equiv_from_equiv same_command_equiv };

    fn eq(&self, other: &Command) -> bool
        ensures value { result ≡ same_command self.now other.now }
        ensures same { IsTrue result ↔ (self.now ≡ other.now) }
    {
        match (self, other) {
            (Command::NoOp, Command::NoOp) => true,
            (Command::Request(request), Command::Request(other_request)) => request
                == other_request,
            _ => false,
        }
    }
}

impl Eq for Command {
    ghost laws = { same_command_equiv };
}
