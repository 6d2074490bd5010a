mod argument;
mod copying;
mod memory;
mod pruning;
mod queries;
mod repair;
mod tagging;
mod text;

use crate::words::argument::{Argument, hint, json};
use crate::words::copying::{COPY, copy_arguments};
use crate::words::memory::{MEM, mem_arguments};
use crate::words::pruning::{PRUNE, prune_arguments};
use crate::words::queries::{
    CAT, EXPLAIN, PREDECESSORS, RESOLVE, TAGS, TREE, VERIFY, explained_error, folder, platform,
    predecessors_type, reference, tags_all, tree_referrers, verify_arguments,
};
use crate::words::repair::{REPAIR, repair_arguments};
use crate::words::tagging::{TAG, UNTAG, tag_arguments, untag_arguments};
use crate::words::text::CommandText;
use clap::Command;
use std::alloc::{AllocError, Global};

/// The version that `--version` prints.
const VERSION: &str = "0.28.0";

/// The `clap` command; `most_workers` bounds `--workers`.
pub(crate) fn command<'w>(alloc: Global, most_workers: u32) -> Result<Command<'w>, AllocError> {
    let commands: [(CommandText, &[Argument]); 13] = [
        (COPY, &copy_arguments(most_workers)),
        (TAG, &tag_arguments()),
        (UNTAG, &untag_arguments()),
        (PRUNE, &prune_arguments()),
        (REPAIR, &repair_arguments(most_workers)),
        (TAGS, &[tags_all(), hint(), json(), folder()]),
        (
            RESOLVE,
            &[platform(), hint(), json(), folder(), reference()],
        ),
        (
            PREDECESSORS,
            &[predecessors_type(), hint(), json(), folder(), reference()],
        ),
        (
            TREE,
            &[
                tree_referrers(),
                platform(),
                hint(),
                json(),
                folder(),
                reference(),
            ],
        ),
        (CAT, &[platform(), hint(), json(), folder(), reference()]),
        (VERIFY, &verify_arguments(most_workers)),
        (MEM, &mem_arguments(most_workers)),
        (EXPLAIN, &[hint(), json(), explained_error()]),
    ];
    let mut built = Vec::new(alloc);
    for (text, arguments) in &commands {
        built.push(text.with(alloc, arguments)?)?;
    }
    program(alloc).subcommands(built)
}

/// The `clap` command without its subcommands.
fn program<'w>(alloc: Global) -> Command<'w> {
    Command::new(alloc, "ocicp")
        .version(VERSION)
        .about(
            "Copies container images and the artifacts attached to them between OCI image layouts",
        )
        .after_help(
            "`ocicp COMMAND --help` shows a command's flags and examples. With --json a command prints JSON.",
        )
        .no_binary_name(true)
        .subcommand_required(true)
}
