use crate::words::argument::{Argument, Kind, flag, hint, json, no_sync, no_wait};
use crate::words::text::CommandText;

const EXAMPLES_OF_PRUNE: &str = "\
Examples:
  ocicp prune --dry-run mirror   prints what a prune would remove
  ocicp prune mirror             removes the files that no entry of index.json needs
  ocicp prune --untagged mirror  also removes the images without a tag
  ocicp prune --leftovers mirror removes only the files that killed copies left";

/// `prune [--dry-run] [--untagged | --leftovers] [--no-wait] [--no-sync] FOLDER`
pub(crate) const PRUNE: CommandText = CommandText {
    name: "prune",
    aliases: &["gc"],
    about: "Removes the files of a layout that `index.json` does not need, to free their space",
    details: Some(
        "Removes the files of a layout that `index.json` does not need, to free their space.\n\n\
         Everything that an entry of `index.json` reaches is kept, with a tag or without: the config and \
         the layers of an image, the images of an index, a signature with its subject. A file in \
         `blobs/sha256` or `blobs/sha512` whose name is a digest is removed if no kept blob has that \
         digest, and none lists a blob that has it. Files that a killed copy left are removed too, and all \
         other files stay. So a layer that is not to be distributed stays with its image. A manifest of a \
         type that `copy` does not read, such as Docker's schema 1, counts as a blob that lists nothing.\n\n\
         With --untagged, what no tag needs is removed too, with its entries in `index.json`. Every tagged \
         blob is kept, and that of each earlier entry of a tag, with everything that it reaches. With each \
         kept blob what is attached to it is kept, such as signatures and SBOMs, with everything that this \
         reaches: by `subject`, or by a tag made of its digest. Such a tag keeps nothing else, and goes with \
         that blob. An index is not kept because it lists a kept blob. With --leftovers only files that \
         killed copies left are removed.\n\n\
         Prints `untagged` with each tag that goes and its blob. Prints `removed` with the digest, the size \
         and the media type of each blob that is removed, and `removed-file` with the path and the length of \
         each other file. The last line counts the blobs `kept` and `removed`, and all `files` that are \
         removed, with their `bytes`. If images without a tag stay, it counts them after `untagged`: no \
         manifest lists them but as its `subject`, and their own subject is not there.\n\n\
         Refused, before anything is changed, but not with --leftovers: a damaged manifest, or a missing \
         blob that is an entry of `index.json` or a manifest that a kept manifest lists (96), since it is \
         not known what it needs; an entry of `index.json` that is no descriptor (73); a folder `blobs`, \
         `blobs/sha256` or `blobs/sha512` that is a symbolic link, or has a blob that is a link to another \
         one (98), since more may need the files there; a folder with blobs and no `index.json`, or one \
         without entries (109); with --untagged a layout without a tag that stays (97). FOLDER is not \
         created, and cannot be an archive (95).\n\n\
         Files that no blob of the layout has go first. Then `index.json` is saved, if a blob is removed, \
         and is on the disk before a file of such a blob goes, unless --no-sync is given. If the prune is \
         killed, or a file cannot be removed (79), no tag has lost anything, and the next prune removes \
         the rest. If `index.json` cannot be saved (74), all blobs stay, and what went is printed. The \
         other entries of `index.json` keep all that other tools wrote into them.\n\n\
         Locks FOLDER, but not for --dry-run. While another process on the same machine has the lock, it \
         waits. Other tools do not heed the lock: no prune may run while one of them writes into FOLDER.",
    ),
    usage: "ocicp prune [OPTIONS] <FOLDER>",
    examples: EXAMPLES_OF_PRUNE,
};

/// The arguments of `prune`.
pub(crate) fn prune_arguments() -> [Argument; 8] {
    [
        flag(
            "dry-run",
            "Changes nothing and locks nothing. Prints what would be written or removed, but no tags that would be set",
        ),
        flag(
            "untagged",
            "Removes also what no tag needs, such as images without a tag",
        ),
        leftovers(),
        hint(),
        json(),
        no_wait(),
        no_sync(),
        folder(),
    ]
}

/// `--leftovers`
fn leftovers() -> Argument {
    Argument {
        conflicts: &["untagged"],
        ..flag(
            "leftovers",
            "Removes only the files that killed copies left",
        )
    }
}

/// `FOLDER` of a command that writes into it.
pub(crate) fn folder() -> Argument {
    Argument::new(
        "folder",
        Kind::Word("FOLDER"),
        "The folder of an image layout",
    )
}
