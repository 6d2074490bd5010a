use clap::builder::ValueParser;
use clap::{Arg, ArgAction};
use std::alloc::{AllocError, Global};

/// A flag of a command, or one of its words.
#[derive(Clone, Copy)]
pub(crate) struct Argument {
    /// Its name; a flag is written with two hyphens before it.
    pub id: &'static str,
    /// Whether it is a flag or a word, and what it takes.
    pub kind: Kind,
    /// What the help says of it.
    pub help: &'static str,
    /// Names of the same flag in other tools, which the help does not show.
    pub aliases: &'static [&'static str],
    /// The arguments that are refused beside it.
    pub conflicts: &'static [&'static str],
    /// The arguments without which it is refused.
    pub needs: &'static [&'static str],
}

/// What an argument is. Its name is that in a usage line.
#[derive(Clone, Copy)]
pub(crate) enum Kind {
    /// A flag without a value.
    Flag,
    /// A flag with a number of at most `most`.
    Number {
        name: &'static str,
        most: u32,
        default: Option<&'static str>,
    },
    /// A flag with a text that is not empty.
    Text(&'static str),
    /// A flag with a text that is not empty. It can be given several times.
    Texts(&'static str),
    /// A word without which the command line is invalid.
    Word(&'static str),
    /// A word that can be left out.
    OptionalWord(&'static str),
    /// A word that can be left out beside the flag.
    WordUnless {
        name: &'static str,
        flag: &'static str,
    },
    /// One word or more.
    Words(&'static str),
}

impl Argument {
    /// Creates an argument that neither needs nor excludes another.
    pub(crate) fn new(id: &'static str, kind: Kind, help: &'static str) -> Argument {
        Argument {
            id,
            kind,
            help,
            aliases: &[],
            conflicts: &[],
            needs: &[],
        }
    }

    /// Makes the argument of `clap`.
    pub(crate) fn build<'w>(&self, alloc: Global) -> Result<Arg<'w>, AllocError> {
        let argument = Arg::new(alloc, self.id).help(self.help);
        self.kind
            .apply(self.id, argument)?
            .aliases(self.aliases)?
            .conflicts_with_all(self.conflicts)?
            .requires_all(self.needs)
    }
}

impl Kind {
    /// Makes an argument one of this kind.
    fn apply<'w>(self, id: &'static str, argument: Arg<'w>) -> Result<Arg<'w>, AllocError> {
        match self {
            Kind::Flag => Ok(argument.long(id).action(ArgAction::SetTrue)),
            Kind::Number {
                name,
                most,
                default,
            } => Ok(with_number(argument.long(id).value_name(name), most, default)),
            Kind::Text(name) => Ok(with_text(argument.long(id).value_name(name))),
            Kind::Texts(name) => Ok(with_text(argument.long(id).value_name(name)).action(
                ArgAction::Append,
            )),
            Kind::Word(name) => Ok(argument.value_name(name).required(true)),
            Kind::OptionalWord(name) => Ok(argument.value_name(name)),
            Kind::WordUnless { name, flag } => argument
                .value_name(name)
                .required_unless_present(flag),
            Kind::Words(name) => Ok(argument.value_name(name).num_args(1..).required(true)),
        }
    }
}

/// Makes the value of an argument a number of at most `most`.
fn with_number<'w>(argument: Arg<'w>, most: u32, default: Option<&'static str>) -> Arg<'w> {
    let argument = argument.value_parser(ValueParser::Unsigned(0, u64::from(most)));
    match default {
        Some(number) => argument.default_value(number),
        None => argument,
    }
}

/// Makes the value of an argument a text that is not empty.
fn with_text<'w>(argument: Arg<'w>) -> Arg<'w> {
    argument.value_parser(ValueParser::NonEmptyString)
}

/// A flag without a value.
pub(crate) fn flag(name: &'static str, help: &'static str) -> Argument {
    Argument::new(name, Kind::Flag, help)
}

/// `--workers` of a command that checks files; `most` bounds it.
pub(crate) fn workers_that_read(most: u32) -> Argument {
    let number = Kind::Number {
        name: "N",
        most,
        default: None,
    };
    Argument::new(
        "workers",
        number,
        "How many workers run at once, at most 64; 0 means 3",
    )
}

/// `--no-wait`
pub(crate) fn no_wait() -> Argument {
    flag(
        "no-wait",
        "Refused at once (99) if another process has locked the folder",
    )
}

/// `--no-sync`
pub(crate) fn no_sync() -> Argument {
    flag(
        "no-sync",
        "Does not wait for the disk. A power cut may then leave torn files, even after status 0",
    )
}

/// `--hint`
pub(crate) fn hint() -> Argument {
    flag(
        "hint",
        "Explains an error in a second line, as on a terminal",
    )
}

/// `--json`
pub(crate) fn json() -> Argument {
    flag(
        "json",
        "Prints one JSON document; an error is one on stderr",
    )
}
