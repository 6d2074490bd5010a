use crate::words::argument::{Argument, Kind, flag, hint, json, workers_that_read};
use crate::words::text::CommandText;

/// `tags [--all] FOLDER`
pub(crate) const TAGS: CommandText = CommandText {
    name: "tags",
    aliases: &["ls"],
    about: "Lists the tags of a layout, each with the digest, size and media type it resolves to",
    details: Some(
        "Lists the tags of a layout in byte order, each with the digest, the size and the media type of the \
         blob that it resolves to. A tag whose blob is missing or damaged, or whose entry is unreadable, is \
         left out.\n\n\
         Then reports each unreadable entry of `index.json` (73), and each damaged manifest of the layout \
         (75, 77). The status is then 1.",
    ),
    usage: "ocicp tags [OPTIONS] <FOLDER>",
    examples: "Examples:\n  ocicp tags mirror\n  ocicp tags --all mirror",
};

/// `resolve [--json] FOLDER REF`
pub(crate) const RESOLVE: CommandText = CommandText {
    name: "resolve",
    aliases: &[],
    about: "Prints the digest, size and media type that a reference resolves to",
    details: None,
    usage: "ocicp resolve [OPTIONS] <FOLDER> <REF>",
    examples: "Examples:\n  ocicp resolve mirror v1\n  ocicp resolve --platform linux/arm64 mirror v1",
};

/// `predecessors [--json] FOLDER REF`
pub(crate) const PREDECESSORS: CommandText = CommandText {
    name: "predecessors",
    aliases: &[],
    about: "Lists the manifests that list a blob: indexes, and referrers such as signatures",
    details: Some(
        "Lists the manifests that list the blob of a reference: indexes, and referrers such as signatures. \
         Each line is a digest, a size and a media type. `tree --referrers` shows also their predecessors, \
         and tags.\n\n\
         Then reports each unreadable entry of `index.json` (73), and each damaged manifest of the layout \
         (75, 77), since they may list the blob too. The status is then 1.",
    ),
    usage: "ocicp predecessors [OPTIONS] <FOLDER> <REF>",
    examples: "Examples:\n  ocicp predecessors mirror v1\n  ocicp predecessors --artifact-type application/spdx+json mirror v1",
};

/// `tree [--referrers] FOLDER REF`
pub(crate) const TREE: CommandText = CommandText {
    name: "tree",
    aliases: &[],
    about: "Shows the blobs that a reference reaches as a tree, for people to read",
    details: Some(
        "Shows the blobs that a reference reaches as a tree, for people to read. Scripts should use \
         `resolve` and `predecessors`, which print whole digests.\n\n\
         Each line is the beginning of a digest, a size, a media type, and the tags of that blob in \
         brackets. Below a manifest are the blobs that it lists. An image of an index has its platforms \
         before its tags. A blob that was shown before is marked `(shown above)`, and its list is not \
         repeated. One that is missing or damaged is marked `(absent)`.",
    ),
    usage: "ocicp tree [OPTIONS] <FOLDER> <REF>",
    examples: "Examples:\n  ocicp tree mirror v1\n  ocicp tree --referrers mirror v1",
};

/// `cat [--platform PLATFORM] FOLDER REF`
pub(crate) const CAT: CommandText = CommandText {
    name: "cat",
    aliases: &[],
    about: "Writes the bytes of a blob, such as a manifest, to the standard output",
    details: Some(
        "Writes the bytes of the blob that a reference resolves to, and nothing else, to the standard \
         output. A tag resolves to a manifest, which lists the digests of the config and the layers.\n\n\
         Look at the status: a file of over 4 MiB with other bytes is refused (21) only at its end, after \
         they were written. A smaller one is refused at once, and so is one of another size (75).\n\n\
         With --json only a refusal is JSON.",
    ),
    usage: "ocicp cat [OPTIONS] <FOLDER> <REF>",
    examples: "Examples:\n  ocicp cat mirror v1\n  ocicp cat mirror sha256:44136fa355b3678a1146ad16f7e8649e94fb4fc21fe77e8310c060f61caaff8a",
};

/// `verify [--tags] [--workers N] [--json] FOLDER [REF]`
pub(crate) const VERIFY: CommandText = CommandText {
    name: "verify",
    aliases: &[],
    about: "Checks each blob of a layout or a tag against its digest, and that no listed blob is missing",
    details: Some(
        "Checks each blob that `index.json` reaches against its digest, and that no listed blob is missing. \
         With REF only the blobs that REF reaches are read, and all below is said of these alone; if REF's \
         own blob is missing or damaged, it is refused (36, 75, 77). \
         What only a damaged manifest lists is not checked. A layout without `index.json` counts as empty. \
         Without --workers one worker runs for each processor.\n\n\
         Prints `absent` for each entry of `index.json` whose blob has no file. `corrupt` is for each blob \
         whose file does not match, and each manifest that cannot be read. `corrupt-foreign` is for such \
         files of layers that are not to be distributed. `open` has the first manifest that lists a blob \
         without a file, and that blob. `shadowed` has an entry whose tag a later one has too: no problem. \
         `held` counts the blobs with a file. Then, without REF, reports each unreadable entry of \
         `index.json` (73). The status is 1 for a problem.",
    ),
    usage: "ocicp verify [OPTIONS] <FOLDER> [REF]",
    examples: "Examples:\n  ocicp verify mirror\n  ocicp verify --tags mirror\n  ocicp verify mirror v1",
};

/// `explain [--json] ERROR`
pub(crate) const EXPLAIN: CommandText = CommandText {
    name: "explain",
    aliases: &[],
    about: "Explains the number or the name of an error: what it means, and what to do",
    details: None,
    usage: "ocicp explain [OPTIONS] <ERROR>",
    examples: "Examples:\n  ocicp explain 53\n  ocicp explain DestinationOpen",
};

/// `--all` of `tags`
pub(crate) fn tags_all() -> Argument {
    flag(
        "all",
        "Then lists the blobs of the entries of `index.json` without a tag, with `-` in place of the tag",
    )
}

/// `--referrers` of `tree`
pub(crate) fn tree_referrers() -> Argument {
    flag(
        "referrers",
        "Then shows, below `referrers:`, the manifests that list the blob, with those that list them in turn. Then what is attached to the blob, and to others that `copy --referrers` would bring. An artifact type is in parentheses. Then reports each unreadable entry of `index.json` (73), and each damaged manifest of the layout (75, 77), with status 1",
    )
}

/// The arguments of `verify`; `most_workers` bounds `--workers`.
pub(crate) fn verify_arguments(most_workers: u32) -> [Argument; 6] {
    [
        verify_tags(),
        workers_that_read(most_workers),
        hint(),
        json(),
        folder(),
        checked_reference(),
    ]
}

/// `--tags` of `verify`
fn verify_tags() -> Argument {
    let help =
        "Then prints `broken` for each tag that reaches a missing or damaged blob, in byte order, with the \
         first such blob by media type and digest. Not with REF";
    Argument {
        conflicts: &["reference"],
        ..flag("tags", help)
    }
}

/// `--artifact-type` of `predecessors`
pub(crate) fn predecessors_type() -> Argument {
    let help =
        "Lists only manifests of this type whose `subject` is the blob. The type is `artifactType`, or else \
         the config's media type. Can be repeated";
    Argument::new("artifact-type", Kind::Texts("TYPE"), help)
}

/// `--platform`
pub(crate) fn platform() -> Argument {
    let help =
        "Takes the first manifest of the named index for this platform, in place of the index. \
         `linux/arm64` fits any variant, `linux/arm64/v8` one. Refused if there is none (107), or if it is \
         missing (96) or damaged (75, 77)";
    Argument::new("platform", Kind::Text("PLATFORM"), help)
}

/// `FOLDER`
pub(crate) fn folder() -> Argument {
    let help = "A layout: a folder, or a tar archive; `-` is an archive from stdin";
    Argument::new("folder", Kind::Word("FOLDER"), help)
}

/// `REF`
pub(crate) fn reference() -> Argument {
    let help = "A tag of the layout, or the digest of one of its blobs";
    Argument::new("reference", Kind::Word("REF"), help)
}

/// `REF` of `verify`
fn checked_reference() -> Argument {
    let help =
        "A tag of the layout, or the digest of one of its blobs. Only what it reaches is checked";
    Argument::new("reference", Kind::OptionalWord("REF"), help)
}

/// `ERROR`
pub(crate) fn explained_error() -> Argument {
    let help =
        "A number or a name of an error line, such as 53 or NotFound in `ocicp: 81 Plan 53 NotFound ..`; the last \
         one is the most specific. If several numbers have the name, all are explained";
    Argument::new("error", Kind::Word("ERROR"), help)
}
