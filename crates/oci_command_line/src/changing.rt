/// The blobs that a copy starts from.
#[derive(Drop)]
pub enum Selection<'w> {
    /// The blob that a reference resolves to.
    Reference {
        /// The reference in the source.
        source: &'w str,
        /// The tag to set in the destination. If it is empty, the source's reference is set.
        destination: &'w str,
        /// The platform whose manifest is picked from the index that the reference names.
        platform: Option<&'w str>,
    },
    /// The blob of each tag of the source.
    AllTags {
        /// A tag counts if it matches one of these patterns. If there are none, each tag counts.
        patterns: Vec<&'w str>,
    },
}

/// The progress that is shown on stderr during a copy.
#[derive(Clone, Copy)]
pub enum Shown {
    /// No progress.
    Nothing,
    /// A line for each blob when it arrives.
    EachBlob,
    /// One line on a terminal, with the blobs and bytes that have arrived so far.
    Line,
}

/// The words of `copy`.
#[derive(Drop)]
pub struct CopyWords<'w> {
    /// The folder to copy from.
    pub source: &'w str,
    /// The blobs to start from.
    pub selection: Selection<'w>,
    /// The folder to copy into, or the file of an archive.
    pub destination: &'w str,
    /// The number of workers; 0 means the default number.
    pub workers: u32,
    /// The number of levels up to which referrers are copied too, 0 for no limit. `None`: they are
    /// not copied.
    pub referrers: Option<u32>,
    /// The artifact types of the referrers that are copied. Empty: those of every type are. Only
    /// with `referrers`, and then without a limit of levels.
    pub types: Vec<&'w str>,
    /// The progress to show.
    pub shown: Shown,
    /// Whether the copy is only planned and printed.
    pub is_dry: bool,
    /// Whether the images that no tag names are copied too. Only with `Selection::AllTags`.
    pub brings_untagged: bool,
    /// Whether the copy also looks below the blobs that the destination has.
    pub descends: bool,
    /// Whether the tags that the source does not have are removed afterwards, with what no tag of
    /// the destination then needs. With patterns, those that match none stay; with referrers, a tag
    /// that is made of a digest then goes with the blob of that digest. Only with
    /// `Selection::AllTags`.
    pub prunes: bool,
    /// Whether the copy waits while another process has the lock of the destination's folder.
    pub waits: bool,
    /// Whether the copy waits until what it writes is on the disk.
    pub syncs: bool,
}

/// The words of `tag`.
#[derive(Clone, Copy)]
pub struct TagWords<'w> {
    /// The folder of the layout.
    pub folder: &'w str,
    /// The reference to the blob.
    pub reference: &'w str,
    /// The tag to set.
    pub tag: &'w str,
    /// Whether the command waits while another process has the folder's lock.
    pub waits: bool,
    /// Whether the command waits until what it writes is on the disk.
    pub syncs: bool,
}

/// The words of `untag`.
#[derive(Clone, Copy)]
pub struct UntagWords<'w> {
    /// The folder of the layout.
    pub folder: &'w str,
    /// The tag to remove.
    pub tag: &'w str,
    /// Whether the command waits while another process has the folder's lock.
    pub waits: bool,
    /// Whether the command waits until what it writes is on the disk.
    pub syncs: bool,
}

/// The words of `prune`.
#[derive(Clone, Copy)]
pub struct PruneWords<'w> {
    /// The folder of the layout.
    pub folder: &'w str,
    /// Whether the blobs that no tag needs are removed too, though an entry of the index reaches them.
    pub removes_untagged: bool,
    /// Whether only the files that killed copies left are removed.
    pub only_leftovers: bool,
    /// Whether the prune is only planned and printed.
    pub is_dry: bool,
    /// Whether the command waits while another process has the folder's lock.
    pub waits: bool,
    /// Whether the command waits until what it writes is on the disk.
    pub syncs: bool,
}

/// The words of `repair`.
#[derive(Drop)]
pub struct RepairWords<'w> {
    /// The folder of the layout.
    pub folder: &'w str,
    /// The folders or archives to take blobs from, in the order in which they are asked, at least
    /// one.
    pub sources: Vec<&'w str>,
    /// The number of workers; 0 means the default number. `None`: one for each processor.
    pub workers: Option<u32>,
    /// Whether a line on the terminal shows how much was checked so far.
    pub shows_progress: bool,
    /// Whether the repair is only planned and printed.
    pub is_dry: bool,
    /// Whether the command waits while another process has the folder's lock.
    pub waits: bool,
    /// Whether the command waits until what it writes is on the disk.
    pub syncs: bool,
}
