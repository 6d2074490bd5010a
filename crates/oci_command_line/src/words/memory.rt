use crate::words::argument::{Argument, Kind, flag, hint, json};
use crate::words::text::CommandText;

const EXAMPLES: &str = "\
Example:
  ocicp mem application/vnd.oci.empty.v1+json=config.json \\
            application/vnd.oci.image.manifest.v1+json=manifest.json";

/// `mem [--workers N] [--sha512] TYPE=PATH..`
pub(crate) const MEM: CommandText = CommandText {
    name: "mem",
    aliases: &[],
    about: "Copies between two stores in memory, and lists the blobs that arrived",
    details: Some(
        "Copies between two stores in memory, and lists the blobs that arrived.\n\n\
         Each file is put into the first store under its media type, digest and size. Then the blob of the \
         last item is copied into the second store, with everything that it reaches. Without --workers one \
         thread copies.\n\n\
         Prints the digest, the size and the media type of each blob that arrived, ordered by media type \
         and then by digest. The last line has the numbers of blobs planned, pushed and skipped.",
    ),
    usage: "ocicp mem [OPTIONS] <TYPE=PATH>...",
    examples: EXAMPLES,
};

/// The arguments of `mem`; `most_workers` bounds `--workers`.
pub(crate) fn mem_arguments(most_workers: u32) -> [Argument; 5] {
    let workers = Kind::Number {
        name: "N",
        most: most_workers,
        default: None,
    };
    [
        Argument::new(
            "workers",
            workers,
            "How many workers run at once, at most 64; 0 means 3",
        ),
        flag(
            "sha512",
            "Uses SHA-512 digests; without it, they are SHA-256",
        ),
        hint(),
        json(),
        Argument::new(
            "item",
            Kind::Words("TYPE=PATH"),
            "A media type and a file; the last one is copied, with all that it reaches",
        ),
    ]
}
