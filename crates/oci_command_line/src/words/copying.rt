use crate::words::argument::{Argument, Kind, flag, hint, json, no_sync, no_wait};
use crate::words::text::CommandText;

const EXAMPLES: &str = "\
Examples:
  ocicp copy build v1 mirror                   copies an image
  ocicp copy --all --referrers build mirror    copies every tag with signatures
  ocicp copy --all --prune --referrers build mirror    makes a mirror
  ocicp copy --archive --all --referrers build all.tar    writes an archive";

/// `copy [FLAGS] SRC SRCREF DST [DSTREF]` and `copy --all [FLAGS] SRC DST`, and both with `--archive`
/// and a file for DST
pub(crate) const COPY: CommandText = CommandText {
    name: "copy",
    aliases: &[],
    about: "Copies an image, or every tag, from one layout into another",
    details: Some(
        "Copies an image or another blob, with everything that it reaches, and tags it in DST. Signatures \
         and SBOMs come only with --referrers. Layers that are not to be distributed never come. DST is \
         created if it is not a layout.\n\n\
         The image's entry in `index.json` replaces DST's entries of the tag.\n\n\
         Each copied blob is checked. Layers that DST has are not read: only `verify` and `repair` see \
         changed bytes.\n\n\
         Prints `copied` for each tag, and counts blobs: missing (`planned`), arrived (`pushed`), requested \
         but there (`skipped`). Notes on stderr count what stays in SRC: attached manifests, with --all \
         images without a tag, and layers not to be distributed that DST lacks.\n\n\
         A refused copy sets no tag and loses no blob. But after 79 and 94 the tags are set, and after 74 \
         perhaps. Only --prune deletes blobs. A power cut leaves the old layout or the new one.",
    ),
    usage: "ocicp copy [OPTIONS] <SRC> <SRCREF> <DST> [DSTREF]\n       \
         ocicp copy --all [OPTIONS] <SRC> <DST>",
    examples: EXAMPLES,
};

/// The arguments of `copy`; `most_workers` bounds `--workers`. With `--all` the second word is the
/// destination's folder, and there is no third one.
pub(crate) fn copy_arguments(most_workers: u32) -> [Argument; 21] {
    [
        archive(),
        all(),
        matching(),
        untagged(),
        platform(),
        referrers(),
        depth(),
        artifact_type(),
        flag(
            "descend",
            "Also copies what is missing below blobs that DST has, damaged manifests, and layers and configs of another size. Without it such a DST is refused (80)",
        ),
        prune(),
        Argument::new(
            "workers",
            workers(most_workers),
            "How many workers run at once, at most 64; 0 means 3",
        ),
        flag(
            "progress",
            "Prints each `pushed` or `skipped` blob to stderr",
        ),
        flag(
            "dry-run",
            "Changes nothing and locks nothing. Prints what would be written or removed, but no tags that would be set",
        ),
        hint(),
        json(),
        no_wait(),
        no_sync(),
        Argument::new(
            "source",
            Kind::Word("SRC"),
            "A layout: a folder, or a tar archive; `-` is an archive from stdin",
        ),
        Argument::new(
            "source-reference",
            Kind::Word("SRCREF"),
            "A tag of SRC, or the digest of a blob; not with --all",
        ),
        Argument::new(
            "destination",
            Kind::WordUnless {
                name: "DST",
                flag: "all",
            },
            "The folder to copy into; with --archive a file, or `-`",
        ),
        Argument::new(
            "destination-reference",
            Kind::OptionalWord("DSTREF"),
            "The tag to set; without it SRCREF, even a digest",
        ),
    ]
}

/// The number of levels of `--depth`.
const DEPTH: Kind = Kind::Number {
    name: "D",
    most: u32::MAX,
    default: Some("0"),
};

/// The number of `--workers`.
fn workers(most_workers: u32) -> Kind {
    Kind::Number {
        name: "N",
        most: most_workers,
        default: Some("0"),
    }
}

/// `--archive`
fn archive() -> Argument {
    let help =
        "Writes a new uncompressed tar archive DST, whole or not at all. Refused if DST exists (95). `-` is \
         stdout, where a refusal may cut it off. Not with --descend or --prune";
    Argument {
        conflicts: &["descend", "prune"],
        ..flag("archive", help)
    }
}

/// `--all`
fn all() -> Argument {
    let help =
        "Copies every tag of SRC, and overwrites those that DST has. Images without a tag come only with \
         --untagged. Refused if SRC has no tag (97), or a tag's entry is unreadable (73), or its blob missing or \
         damaged (96). Not with --platform";
    Argument {
        conflicts: &["destination", "destination-reference"],
        ..flag("all", help)
    }
}

/// `--match`. It conflicts with the destination's own word, as `--all` does.
fn matching() -> Argument {
    let help =
        "With --all: copies only tags that match GLOB. `*` is any text, `?` any character. Quote it. Can be \
         repeated. Refused if none matches (108)";
    Argument {
        conflicts: &["destination"],
        needs: &["all"],
        ..Argument::new("match", Kind::Texts("GLOB"), help)
    }
}

/// `--untagged` of `copy`. It conflicts with the destination's own word, as `--all` does.
fn untagged() -> Argument {
    Argument {
        conflicts: &["destination", "prune"],
        needs: &["all"],
        ..flag(
            "untagged",
            "With --all, but not --prune: also copies the images that no tag names. Refused if any entry of SRC is \
             unreadable (73), or its blob missing or damaged (96)",
        )
    }
}

/// `--platform`
fn platform() -> Argument {
    let help =
        "Takes the first manifest of the named index for this platform, in place of the index. \
         `linux/arm64` fits any variant, `linux/arm64/v8` one. Refused if there is none (107), or if it is \
         missing (96) or damaged (75, 77)";
    Argument {
        conflicts: &["all"],
        ..Argument::new("platform", Kind::Text("PLATFORM"), help)
    }
}

/// `--referrers`
fn referrers() -> Argument {
    let help = "Also copies what is attached to any copied blob, by `subject` or by a tag such as \
         `sha256-DIGITS.sig`. Without --prune, --platform and --artifact-type also the indexes that list it. \
         Refused if SRC has a damaged manifest (75, 77) or an unreadable entry (73)";
    Argument {
        aliases: &["recursive"],
        ..flag("referrers", help)
    }
}

/// `--depth`
fn depth() -> Argument {
    let help =
        "With --referrers, but not --artifact-type, --platform or --prune: looks at most D levels up for \
         indexes and referrers; 0 means no limit";
    Argument {
        conflicts: &["prune", "platform"],
        ..Argument::new("depth", DEPTH, help)
    }
}

/// `--artifact-type`
fn artifact_type() -> Argument {
    let help =
        "With --referrers, but not --prune: of what is attached, copies only referrers of this type, with \
         what belongs to them, but no tags. The type is `artifactType`, or else the config's media type. \
         Can be repeated";
    Argument {
        conflicts: &["depth", "prune"],
        needs: &["referrers"],
        ..Argument::new("artifact-type", Kind::Texts("TYPE"), help)
    }
}

/// `--prune`. It conflicts with the destination's own word, as `--all` does: `clap` does not ask for a
/// required argument that conflicts with a given one.
fn prune() -> Argument {
    let help =
        "With --all: makes DST a mirror: deletes its tags that SRC does not have, and what no tag needs. \
         With --referrers also what is attached only in DST. With --match, tags of DST \
         that match no pattern stay. With both, one made of a digest stays only if SRC has it or another of \
         these needs its image. Refused if SRC has an unreadable entry (73) or a damaged manifest (96; with \
         --referrers 75, 77), or lacks an entry's blob (96), or DST has blobs but no `index.json` (109)";
    Argument {
        conflicts: &["destination"],
        needs: &["all"],
        ..flag("prune", help)
    }
}
