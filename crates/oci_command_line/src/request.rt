use crate::changing::{CopyWords, PruneWords, RepairWords, Selection, Shown, TagWords, UntagWords};
use crate::explain::{Explanations, find_explanations};
use crate::memory::{Algorithm, MemWords};
use crate::words::command;
use clap::error::ErrorKind;
use clap::{ArgMatches, Error};
use std::alloc::{AllocError, Global};

/// A valid command line.
#[derive(Drop)]
pub struct CommandLine<'w> {
    /// The command with its words and flags, or a text to print.
    pub request: Request<'w>,
    /// Whether `--json` was given: whether the command prints its result, or its refusal, as one
    /// JSON document. It is false for [`Request::Text`].
    pub as_json: bool,
    /// Whether a second line explains a refusal: if stderr is a terminal or `--hint` was given, but
    /// not with `--json`.
    pub hints: bool,
}

/// The command of a command line, with its words and flags, or a text to print.
#[derive(Drop)]
pub enum Request<'w> {
    /// `--help` or `--version`, with the text to print and its last line feed.
    Text(String),
    /// `explain`, with the explanations to print.
    Explain(Explanations),
    /// `mem`, with its items and flags.
    Mem(MemWords<'w>),
    /// `copy`, with its folders, references and flags.
    Copy(CopyWords<'w>),
    /// `copy --archive`, whose destination is a file, or `-` for the standard output. It has neither
    /// `--descend` nor `--prune`.
    Archive(CopyWords<'w>),
    /// `tag`, with its folder, reference, tag and flags.
    Tag(TagWords<'w>),
    /// `untag`, with its folder, tag and flags.
    Untag(UntagWords<'w>),
    /// `prune`, with its folder and flags.
    Prune(PruneWords<'w>),
    /// `repair`, with its folder, sources and flags.
    Repair(RepairWords<'w>),
    /// A command that reads the layout in a folder.
    Query(&'w str, Query<'w>),
}

/// A command that reads one layout and does not change it.
#[derive(Drop)]
pub enum Query<'w> {
    /// `tags`.
    Tags {
        /// Whether the blobs of entries without a tag are listed too.
        lists_all: bool,
    },
    /// `resolve`.
    Resolve {
        /// The reference.
        reference: &'w str,
        /// The platform whose manifest is picked from the index that the reference names.
        platform: Option<&'w str>,
    },
    /// `predecessors`.
    Predecessors {
        /// The reference.
        reference: &'w str,
        /// The artifact types of the referrers that are listed. Empty: every predecessor is listed.
        types: Vec<&'w str>,
    },
    /// `tree`.
    Tree {
        /// The reference.
        reference: &'w str,
        /// The platform whose manifest is picked from the index that the reference names.
        platform: Option<&'w str>,
        /// Whether the referrers are shown too.
        shows_referrers: bool,
    },
    /// `cat`.
    Cat {
        /// The reference.
        reference: &'w str,
        /// The platform whose manifest is picked from the index that the reference names.
        platform: Option<&'w str>,
    },
    /// `verify`.
    Verify {
        /// The reference whose blob is checked with all that it reaches. `None`: the whole layout is.
        reference: Option<&'w str>,
        /// Whether the tags of which a blob is missing or damaged are listed too. It is false with a
        /// reference.
        lists_broken: bool,
        /// The number of workers; 0 means the default number. `None`: one for each processor.
        workers: Option<u32>,
        /// Whether a line on the terminal shows how much was checked so far.
        shows_progress: bool,
    },
}

/// Why parsing failed.
#[derive(Drop)]
pub enum CommandLineFault {
    /// The command line is invalid. The text says why, and has the usage.
    Usage(String),
    /// Out of memory.
    Memory,
}

impl From<AllocError> for CommandLineFault {
    fn from(_refused: AllocError) -> CommandLineFault {
        CommandLineFault::Memory
    }
}

impl<'w> CommandLine<'w> {
    /// Parses the words after the program's name. `on_terminal` says whether stderr is a terminal.
    ///
    /// # Errors
    ///
    /// - `Usage` if the command line is invalid, also if it has more workers than `most_workers`.
    /// - `Memory` if memory ran out.
    pub fn parse(
        alloc: Global,
        words: &'w [String],
        on_terminal: bool,
        most_workers: u32,
    ) -> Result<CommandLine<'w>, CommandLineFault> {
        let matches = match command(alloc, most_workers)?.try_get_matches_from(words) {
            Ok(matches) => matches,
            Err(error) => return text_or_usage(alloc, &error),
        };
        match matches.subcommand() {
            Some((name, matches)) => Ok(CommandLine {
                request: request_of(alloc, name, matches, on_terminal, most_workers)?,
                as_json: matches.get_flag("json"),
                hints: hints(matches, on_terminal),
            }),
            None => Ok(CommandLine {
                request: Request::Mem(MemWords::none(alloc)),
                as_json: false,
                hints: on_terminal,
            }),
        }
    }
}

/// Turns an error of `clap` into the requested text, or into an invalid command line.
fn text_or_usage<'w>(alloc: Global, error: &Error) -> Result<CommandLine<'w>, CommandLineFault> {
    match error.kind() {
        ErrorKind::OutOfMemory => Err(CommandLineFault::Memory),
        ErrorKind::DisplayHelp | ErrorKind::DisplayVersion => Ok(CommandLine {
            request: Request::Text(text_of(alloc, error)?),
            as_json: false,
            hints: false,
        }),
        _ => Err(CommandLineFault::Usage(text_of(alloc, error)?)),
    }
}

fn text_of(alloc: Global, error: &Error) -> Result<String, AllocError> {
    format!(in alloc; "{error}")
}

/// The request of a command and its words.
fn request_of<'w>(
    alloc: Global,
    name: &str,
    matches: &ArgMatches<'w>,
    on_terminal: bool,
    most_workers: u32,
) -> Result<Request<'w>, CommandLineFault> {
    match name {
        "explain" => explanation_of(alloc, word(matches, "error"), most_workers),
        "copy" => copy_of(alloc, matches, on_terminal),
        "tag" => Ok(Request::Tag(tag_words(matches))),
        "untag" => Ok(Request::Untag(untag_words(matches))),
        "prune" => Ok(Request::Prune(prune_words(matches))),
        "repair" => Ok(Request::Repair(repair_words(alloc, matches, on_terminal)?)),
        "tags" => Ok(of_folder(
            matches,
            Query::Tags {
                lists_all: matches.get_flag("all"),
            },
        )),
        "resolve" => Ok(of_folder(matches, resolve_of(matches))),
        "predecessors" => Ok(of_folder(matches, predecessors_of(alloc, matches)?)),
        "tree" => Ok(of_folder(matches, tree_of(matches))),
        "cat" => Ok(of_folder(matches, cat_of(matches))),
        "verify" => Ok(of_folder(matches, verify_of(matches, on_terminal))),
        _ => Ok(Request::Mem(mem_words(alloc, matches)?)),
    }
}

/// Whether a second line explains a refusal.
fn hints(matches: &ArgMatches<'_>, on_terminal: bool) -> bool {
    (on_terminal || matches.get_flag("hint")) && !matches.get_flag("json")
}

/// The word for an argument, or the empty text if there is none.
fn word<'w>(matches: &ArgMatches<'w>, id: &str) -> &'w str {
    matches.get_str(id).unwrap_or("")
}

/// The texts for an argument, in their order.
fn texts<'w>(
    alloc: Global,
    matches: &ArgMatches<'w>,
    id: &str,
) -> Result<Vec<&'w str>, AllocError> {
    let mut texts = Vec::new(alloc);
    texts.extend_from_slice(matches.get_strs(id).unwrap_or(&[]))?;
    Ok(texts)
}

/// The request for a query of the layout in the named folder.
fn of_folder<'w>(matches: &ArgMatches<'w>, query: Query<'w>) -> Request<'w> {
    Request::Query(word(matches, "folder"), query)
}

/// The query for the key of the named reference.
fn resolve_of<'w>(matches: &ArgMatches<'w>) -> Query<'w> {
    Query::Resolve {
        reference: word(matches, "reference"),
        platform: matches.get_str("platform"),
    }
}

/// The query for the predecessors of the named reference.
fn predecessors_of<'w>(
    alloc: Global,
    matches: &ArgMatches<'w>,
) -> Result<Query<'w>, CommandLineFault> {
    Ok(Query::Predecessors {
        reference: word(matches, "reference"),
        types: texts(alloc, matches, "artifact-type")?,
    })
}

/// The query for the tree of the named reference.
fn tree_of<'w>(matches: &ArgMatches<'w>) -> Query<'w> {
    Query::Tree {
        reference: word(matches, "reference"),
        platform: matches.get_str("platform"),
        shows_referrers: matches.get_flag("referrers"),
    }
}

/// The query for the bytes of the named reference.
fn cat_of<'w>(matches: &ArgMatches<'w>) -> Query<'w> {
    Query::Cat {
        reference: word(matches, "reference"),
        platform: matches.get_str("platform"),
    }
}

/// The query for what is wrong with a layout, or with what the named reference reaches.
fn verify_of<'w>(matches: &ArgMatches<'w>, on_terminal: bool) -> Query<'w> {
    Query::Verify {
        reference: matches.get_str("reference"),
        lists_broken: matches.get_flag("tags"),
        workers: matches.get_one("workers"),
        shows_progress: on_terminal,
    }
}

/// The request for the explanations of a number or a name. An unknown one makes the command line invalid.
fn explanation_of<'w>(
    alloc: Global,
    word: &str,
    most_workers: u32,
) -> Result<Request<'w>, CommandLineFault> {
    match find_explanations(alloc, word)? {
        Some(explanations) => Ok(Request::Explain(explanations)),
        None => {
            let error = unknown_error(alloc, word, most_workers)?;
            Err(CommandLineFault::Usage(text_of(alloc, &error)?))
        }
    }
}

/// The error of a command line with a word that no error has as its number or its name.
fn unknown_error(alloc: Global, word: &str, most_workers: u32) -> Result<Error, AllocError> {
    let message = format!(in alloc; "no error has the number or the name '{word}'")?;
    command(alloc, most_workers)?.error(ErrorKind::InvalidValue, &message)
}

fn mem_words<'w>(
    alloc: Global,
    matches: &ArgMatches<'w>,
) -> Result<MemWords<'w>, CommandLineFault> {
    Ok(MemWords {
        items: texts(alloc, matches, "item")?,
        workers: matches.get_one("workers"),
        algorithm: algorithm(matches),
    })
}

/// The algorithm of the items' digests.
fn algorithm(matches: &ArgMatches<'_>) -> Algorithm {
    if matches.get_flag("sha512") {
        Algorithm::Sha512
    } else {
        Algorithm::Sha256
    }
}

/// The request of `copy`, into a folder or with `--archive` into a file.
fn copy_of<'w>(
    alloc: Global,
    matches: &ArgMatches<'w>,
    on_terminal: bool,
) -> Result<Request<'w>, CommandLineFault> {
    let words = copy_words(alloc, matches, on_terminal)?;
    if matches.get_flag("archive") {
        Ok(Request::Archive(words))
    } else {
        Ok(Request::Copy(words))
    }
}

fn copy_words<'w>(
    alloc: Global,
    matches: &ArgMatches<'w>,
    on_terminal: bool,
) -> Result<CopyWords<'w>, CommandLineFault> {
    let (selection, destination) = selection_and_destination(alloc, matches)?;
    Ok(CopyWords {
        source: word(matches, "source"),
        selection,
        destination,
        workers: matches.get_one("workers").unwrap_or(0),
        referrers: referrers(matches),
        types: texts(alloc, matches, "artifact-type")?,
        shown: shown(matches, on_terminal),
        is_dry: matches.get_flag("dry-run"),
        brings_untagged: matches.get_flag("untagged"),
        descends: matches.get_flag("descend"),
        prunes: matches.get_flag("prune"),
        waits: waits(matches),
        syncs: syncs(matches),
    })
}

fn tag_words<'w>(matches: &ArgMatches<'w>) -> TagWords<'w> {
    TagWords {
        folder: word(matches, "folder"),
        reference: word(matches, "reference"),
        tag: word(matches, "tag"),
        waits: waits(matches),
        syncs: syncs(matches),
    }
}

fn untag_words<'w>(matches: &ArgMatches<'w>) -> UntagWords<'w> {
    UntagWords {
        folder: word(matches, "folder"),
        tag: word(matches, "tag"),
        waits: waits(matches),
        syncs: syncs(matches),
    }
}

fn prune_words<'w>(matches: &ArgMatches<'w>) -> PruneWords<'w> {
    PruneWords {
        folder: word(matches, "folder"),
        removes_untagged: matches.get_flag("untagged"),
        only_leftovers: matches.get_flag("leftovers"),
        is_dry: matches.get_flag("dry-run"),
        waits: waits(matches),
        syncs: syncs(matches),
    }
}

fn repair_words<'w>(
    alloc: Global,
    matches: &ArgMatches<'w>,
    on_terminal: bool,
) -> Result<RepairWords<'w>, CommandLineFault> {
    Ok(RepairWords {
        folder: word(matches, "folder"),
        sources: texts(alloc, matches, "source")?,
        workers: matches.get_one("workers"),
        shows_progress: on_terminal,
        is_dry: matches.get_flag("dry-run"),
        waits: waits(matches),
        syncs: syncs(matches),
    })
}

/// Whether a command waits for the lock of a folder.
fn waits(matches: &ArgMatches<'_>) -> bool {
    !matches.get_flag("no-wait")
}

/// Whether a command waits until what it writes is on the disk.
fn syncs(matches: &ArgMatches<'_>) -> bool {
    !matches.get_flag("no-sync")
}

/// The progress to show. `--progress` decides first.
fn shown(matches: &ArgMatches<'_>, on_terminal: bool) -> Shown {
    match (matches.get_flag("progress"), on_terminal) {
        (true, _) => Shown::EachBlob,
        (false, true) => Shown::Line,
        (false, false) => Shown::Nothing,
    }
}

/// The blobs to start from, and the destination's folder. With `--all` the folder is the second
/// word.
fn selection_and_destination<'w>(
    alloc: Global,
    matches: &ArgMatches<'w>,
) -> Result<(Selection<'w>, &'w str), AllocError> {
    let second = word(matches, "source-reference");
    if matches.get_flag("all") {
        let patterns = texts(alloc, matches, "match")?;
        return Ok((Selection::AllTags { patterns }, second));
    }
    let selection = Selection::Reference {
        source: second,
        destination: word(matches, "destination-reference"),
        platform: matches.get_str("platform"),
    };
    Ok((selection, word(matches, "destination")))
}

/// The number of levels up to which referrers are copied too. `None`: they are not copied.
fn referrers(matches: &ArgMatches<'_>) -> Option<u32> {
    if matches.get_flag("referrers") {
        Some(matches.get_one("depth").unwrap_or(0))
    } else {
        None
    }
}
