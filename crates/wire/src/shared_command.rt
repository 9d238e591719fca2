//! A command that lies apart.

ghost use Rattle.std.specs.Prelude.{◌≡◌, ◌↔◌, IfOk, IsTrue};
ghost use Rattle.std.specs.Cmp.{partial_equiv_from_equiv};
ghost use Rattle.sessions.specs.Same.{same_command, same_command_equiv};

use sessions::Command;
use std::alloc::{AllocError, Global};
use std::marker::Model;
use std::rc::Rc;

/// A command that lies apart, so that little is moved where it is handed on: from what was told to what is learnt, and to those who
/// are told of that. Many may hold one command, which then lies there once.
pub struct SharedCommand {
    command: Rc<Command>,
}

// By hand, so that a crate that drops one proves nothing of what lies within.
impl Drop for SharedCommand {
    fn drop(self) {
        let SharedCommand { command } = self;
        drop(command);
    }
}

impl Model for SharedCommand {
    ghost use Rattle.sessions.specs.declared.command.Command.{Command};

    ghost Value = { Command };

    ghost view = { λ held. held.command.value };
}

impl SharedCommand {
    /// A copy of the command is held.
    pub fn copy_of(alloc: Global, command: &Command) -> Result<SharedCommand, AllocError>
        ensures { IfOk result (λ held. held ≡ command.now) }
    {
        SharedCommand::new(alloc, command.clone()?)
    }

    /// The command is held.
    pub fn new(alloc: Global, command: Command) -> Result<SharedCommand, AllocError>
        ensures { IfOk result (λ held. held ≡ command) }
    {
        let command = Rc::new(alloc, command)?;
        Ok(SharedCommand { command })
    }

    /// The same command, which lies where it lay: no memory is wanted for it. `AllocError` comes only where as many hold it as can
    /// be counted.
    pub fn share(&self) -> Result<SharedCommand, AllocError>
        ensures { IfOk result (λ held. held ≡ self.now) }
    {
        let command = self.command.clone()?;
        Ok(SharedCommand { command })
    }

    /// What is held.
    pub fn command(&self) -> &Command
        ensures { result.now ≡ self.now }
    {
        &self.command
    }
}

impl PartialEq for SharedCommand {
    ghost eq = { same_command };

    ghost laws = { partial_equiv_from_equiv same_command_equiv };

    fn eq(&self, other: &SharedCommand) -> bool
        ensures value { result ≡ same_command self.now other.now }
        ensures same { IsTrue result ↔ (self.now ≡ other.now) }
    {
        self.command() == other.command()
    }
}

impl Eq for SharedCommand {
    ghost laws = { same_command_equiv };
}

impl Clone for SharedCommand {
    ghost is_clone = { λ original copy. copy ≡ original };

    fn clone(&self) -> Result<SharedCommand, AllocError> {
        self.share()
    }
}
