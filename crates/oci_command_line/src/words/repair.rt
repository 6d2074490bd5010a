use crate::words::argument::{
    Argument, Kind, flag, hint, json, no_sync, no_wait, workers_that_read,
};
use crate::words::pruning::folder;
use crate::words::text::CommandText;

const EXAMPLES: &str = "\
Examples:
  ocicp repair --dry-run mirror build    prints what a repair from `build` would write
  ocicp repair mirror build              makes the blobs of `mirror` whole that `build` has
  ocicp repair mirror build backup.tar   takes from the archive what `build` does not have";

/// `repair [--dry-run] [--workers N] [--no-wait] [--no-sync] FOLDER FROM..`
pub(crate) const REPAIR: CommandText = CommandText {
    name: "repair",
    aliases: &[],
    about: "Makes the missing and damaged blobs of a layout whole, from other layouts",
    details: Some(
        "Makes the missing and damaged blobs of a layout whole, from other layouts.\n\n\
         Checks each blob that `index.json` reaches against its digest, as `verify` does. For each one that \
         is missing or damaged, takes the file of the first FROM that has it whole. Then looks at what a \
         repaired manifest lists, and so on. Without --workers one worker runs for each processor.\n\n\
         A FROM may itself be damaged. Each file under its `blobs` counts, also one that its `index.json` \
         does not reach.\n\n\
         `index.json` and whole files are not changed. A damaged file that no FROM has stays as it is. An \
         empty folder in the place of a blob is removed, but none with contents.\n\n\
         Prints `repaired` with the digest, the size and the media type of each blob that it has made \
         whole, and `missing` with those of each that no FROM has. The last line counts the blobs that are \
         whole (`held`), `repaired` and `missing`, and the `bytes` written. Then reports each unreadable \
         entry of `index.json` (73). The status is 1 if a blob is missing or an entry unreadable.\n\n\
         What a manifest lists that nobody has whole is not checked. FOLDER is not created, and cannot be \
         an archive (95). A damaged `index.json` is refused (73).\n\n\
         After a kill or a refusal each file is as it was or whole. Run it again for the rest.",
    ),
    usage: "ocicp repair [OPTIONS] <FOLDER> <FROM>...",
    examples: EXAMPLES,
};

/// The arguments of `repair`; `most_workers` bounds `--workers`.
pub(crate) fn repair_arguments(most_workers: u32) -> [Argument; 8] {
    [
        flag(
            "dry-run",
            "Changes nothing and locks nothing. Prints what would be written or removed, but no tags that would be set",
        ),
        workers_that_read(most_workers),
        hint(),
        json(),
        no_wait(),
        no_sync(),
        folder(),
        source(),
    ]
}

/// `FROM`
fn source() -> Argument {
    let help =
        "The layouts to take blobs from, folders or tar archives, in the order in which they are asked; `-` is an archive from stdin";
    Argument::new("source", Kind::Words("FROM"), help)
}
