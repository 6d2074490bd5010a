use crate::words::argument::Argument;
use clap::Command;
use std::alloc::{AllocError, Global};

/// The name and the help of a command.
#[derive(Clone, Copy)]
pub(crate) struct CommandText {
    pub name: &'static str,
    /// Names of the same command in other tools, which the help does not show.
    pub aliases: &'static [&'static str],
    /// One sentence, without a full stop.
    pub about: &'static str,
    /// What `--help` says in its place, if there is more to say.
    pub details: Option<&'static str>,
    /// The usage line.
    pub usage: &'static str,
    /// The examples at the end, with their title.
    pub examples: &'static str,
}

impl CommandText {
    /// Makes the command of `clap` with these arguments, which its help shows in this order.
    pub(crate) fn with<'w>(
        &self,
        alloc: Global,
        arguments: &[Argument],
    ) -> Result<Command<'w>, AllocError> {
        let mut built = Vec::new(alloc);
        for argument in arguments {
            built.push(argument.build(alloc)?)?;
        }
        self.command(alloc).aliases(self.aliases)?.args(built)
    }

    /// Makes the command without arguments.
    fn command<'w>(&self, alloc: Global) -> Command<'w> {
        let command = Command::new(alloc, self.name)
            .about(self.about)
            .override_usage(self.usage)
            .after_help(self.examples);
        match self.details {
            Some(details) => command.long_about(details),
            None => command,
        }
    }
}
