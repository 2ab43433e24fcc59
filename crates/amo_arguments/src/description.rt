//! Commands that are described step by step.
ghost use Rattle.std.specs.Prelude.{◌≡◌};
ghost use Rattle.amo_arguments.specs.Commands.{HasOneMore, HasOneUnder};

use clap::{Arg, Command};
use std::alloc::AllocError;

/// A command as it is described, or that there was no memory for it: so that is looked at once, behind all of it.
pub(crate) struct Description<'a> {
    pub(crate) command: Result<Command<'a>, AllocError>,
}

impl<'a> Description<'a> {
    /// With one argument more.
    pub(crate) fn arg(self, arg: Arg<'a>) -> Description<'a>
        ensures { HasOneMore self.entry.command arg.entry result.command }
    {
        let command = match self.into_command() {
            Ok(command) => command.arg(arg),
            Err(AllocError) => Err(AllocError),
        };
        Description { command }
    }

    /// With one command more under it.
    pub(crate) fn subcommand(self, under: Description<'a>) -> Description<'a>
        ensures { HasOneUnder self.entry.command under.entry.command result.command }
    {
        let command = match (self.into_command(), under.into_command()) {
            (Ok(command), Ok(under)) => command.subcommand(under),
            (Ok(_command), Err(_refused)) => Err(AllocError),
            (Err(_refused), _under) => Err(AllocError),
        };
        Description { command }
    }

    /// The command that was described.
    pub(crate) fn into_command(self) -> Result<Command<'a>, AllocError>
        ensures { result ≡ self.entry.command }
    {
        let Description { command } = self;
        command
    }
}
