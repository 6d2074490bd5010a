use crate::words::argument::{Argument, Kind, hint, json, no_sync, no_wait};
use crate::words::pruning::folder;
use crate::words::queries::reference;
use crate::words::text::CommandText;

/// `tag [--no-wait] [--no-sync] FOLDER REF NEWTAG`
pub(crate) const TAG: CommandText = CommandText {
    name: "tag",
    aliases: &[],
    about: "Sets a tag of a layout to the blob that a reference resolves to",
    details: Some(
        "Sets a tag of a layout to the blob that a reference resolves to. If NEWTAG names another blob \
         already, it moves, and that blob stays until a `prune --untagged`.\n\n\
         Prints `tagged` with the digest, the size and the media type of the blob. An empty NEWTAG or REF \
         (35), and a REF that no tag and no blob has (36), are refused, and nothing is changed. FOLDER is \
         not created, and cannot be an archive (95).\n\n\
         The new entry in `index.json` keeps what other tools wrote into that of REF, such as `platform` \
         and annotations. A power cut leaves the old file or the new one.",
    ),
    usage: "ocicp tag [OPTIONS] <FOLDER> <REF> <NEWTAG>",
    examples: "Examples:\n  ocicp tag mirror v1 stable\n  ocicp tag mirror sha256:2c26b46b68ffc68ff99b453c1d30413413422d706483bfa0f98a5e886266e7ae v1",
};

/// The arguments of `tag`.
pub(crate) fn tag_arguments() -> [Argument; 7] {
    let tag = "The tag to set; it is never read as the digest of a blob";
    [
        hint(),
        json(),
        no_wait(),
        no_sync(),
        folder(),
        reference(),
        Argument::new("tag", Kind::Word("NEWTAG"), tag),
    ]
}

/// `untag [--no-wait] [--no-sync] FOLDER TAG`
pub(crate) const UNTAG: CommandText = CommandText {
    name: "untag",
    aliases: &["rm"],
    about: "Removes a tag from a layout, with all that belongs to it alone",
    details: Some(
        "Removes a tag from a layout, with all that belongs to it alone: its image, or its index with the \
         images, and what is attached to these, such as signatures, also under tags made of their digests. \
         Their files stay until a `prune`.\n\n\
         What belongs to another tag stays, and so does what an earlier entry of a tag or an image without a \
         tag needs. A tag that is made of the digest of another manifest is no such tag. While an entry of \
         `index.json`, or a manifest that a blob lists, is missing or damaged, or an entry is no \
         descriptor, only the tag itself goes.\n\n\
         Prints `untagged` with the digest, the size and the media type of the blob of each entry of \
         `index.json` that had the tag. The last one is what the tag named. An entry that is no descriptor \
         has `-` in their place. The other entries that go follow.\n\n\
         A tag whose blob is missing or damaged is removed too. An empty tag (35) and a tag that no entry \
         has (36) are refused, and nothing is changed. FOLDER is not created, and cannot be an archive (95).\n\n\
         `index.json` is written anew, without these entries. The other entries keep all that \
         other tools wrote into them, such as `platform` and annotations. The command ends once it is on \
         the disk, so that a power cut leaves the old one or the new one, unless --no-sync is given.\n\n\
         Locks FOLDER. While another process on the same machine has the lock, it waits.",
    ),
    usage: "ocicp untag [OPTIONS] <FOLDER> <TAG>",
    examples: "Example:\n  ocicp untag mirror v1",
};

/// The arguments of `untag`.
pub(crate) fn untag_arguments() -> [Argument; 6] {
    let tag = "The tag to remove; it is never read as the digest of a blob";
    [
        hint(),
        json(),
        no_wait(),
        no_sync(),
        folder(),
        Argument::new("tag", Kind::Word("TAG"), tag),
    ]
}
