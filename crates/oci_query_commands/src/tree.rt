use oci_dir::Dir;
use oci_layout_store::Layout;
use oci_manifest::Key;
use oci_plan::climb;
use oci_program::ProgramFault;
use oci_progress::Readable;
use oci_prune::belonging_of;
use platforms::Platforms;
use serde::Serialize;
use stated::Stated;
use std::alloc::Global;
use std::collections::BTreeSet;
use std::fmt;
use walk::Walk;

mod labels;
mod platforms;
mod stated;
mod walk;

pub(crate) use labels::Labels;

/// The blobs that a key reaches and its referrers, each as a list of nodes with depths. Below a
/// manifest are the blobs that it lists, and then its layers that are not to be distributed. Of the
/// referrers, those that list the blob come first, and then each blob to which something more is
/// attached, with that below it. `Display` prints a node a line, and a title above the referrers if
/// they were asked for.
#[derive(Drop, Serialize)]
pub(crate) struct Tree<'l> {
    blobs: Vec<Node<'l>>,
    referrers: Vec<Node<'l>>,
    #[serde(skip)]
    shows_referrers: bool,
}

impl<'l> Tree<'l> {
    /// Returns the blobs that a key reaches, and its referrers if they are asked for.
    ///
    /// The time and the memory grow with the nodes, and with the digests and tags of the layout.
    /// Each manifest that the key reaches is read once, for its layers that are not to be distributed,
    /// and an index also for the platforms that it states. With referrers each manifest of the layout
    /// is read for its subject, one at a time, and those in their nodes once more for their type. No
    /// other content is read. A deep graph needs no stack, since the blobs to visit are in a list.
    pub(crate) fn of<D: Dir>(
        alloc: Global,
        layout: &Layout<D>,
        labels: &'l Labels,
        root: &Key,
        shows_referrers: bool,
    ) -> Result<Tree<'l>, ProgramFault> {
        let mut walk = Walk::new(alloc, layout, labels);
        let blobs = walk.blobs(root)?;
        let referrers = if shows_referrers {
            let climbed = climb(alloc, layout, root, 0)?;
            let belonging = belonging_of(alloc, layout, &climbed, &layout.tags()?)?;
            walk.referrers(root, &belonging)?
        } else {
            Vec::new(alloc)
        };
        Ok(Tree {
            blobs,
            referrers,
            shows_referrers,
        })
    }
}

impl fmt::Display for Tree<'_> {
    fn fmt<W: fmt::Write>(&self, f: &mut fmt::Formatter<W>) -> fmt::Result {
        print_nodes(&self.blobs, f)?;
        if !self.shows_referrers {
            return Ok(());
        }
        if self.referrers.is_empty() {
            return writeln!(f, "referrers: none");
        }
        writeln!(f, "referrers:")?;
        print_nodes(&self.referrers, f)
    }
}

/// Prints each node on a line of its own.
fn print_nodes<W: fmt::Write>(nodes: &[Node<'_>], f: &mut fmt::Formatter<W>) -> fmt::Result {
    for node in nodes {
        writeln!(f, "{node}")?;
    }
    Ok(())
}

/// A blob of a tree. The blobs below it follow it, with a greater depth.
#[derive(Drop, Serialize)]
struct Node<'l> {
    /// The number of steps from the blob of the tree.
    depth: usize,
    descriptor: Key,
    /// The platforms that the index above it states of the blob.
    #[serde(skip_serializing_if = "BTreeSet::is_empty")]
    platforms: BTreeSet<String>,
    /// The tags of the blob, in byte order.
    tags: &'l [String],
    /// Whether an earlier node has the blob. The blobs below it follow only that one.
    repeated: bool,
    /// Whether the layout does not have the blob.
    absent: bool,
    /// `false` for a layer that is not to be distributed, whose file is not looked for, and `None` for
    /// any other blob.
    #[serde(skip_serializing_if = "Option::is_none")]
    distributed: Option<bool>,
    /// The type that a referrer states.
    #[serde(rename = "artifactType", skip_serializing_if = "Option::is_none")]
    artifact_type: Option<String>,
    /// The beginning of the digest.
    #[serde(skip)]
    short_digest: String,
}

/// Prints the line of a node without a line feed: the indents, the beginning of the digest, the
/// size, the types, the platforms, the tags, and a mark.
impl fmt::Display for Node<'_> {
    fn fmt<W: fmt::Write>(&self, f: &mut fmt::Formatter<W>) -> fmt::Result {
        for _ in 0..self.depth {
            write!(f, "  ")?;
        }
        let short_digest = &self.short_digest;
        let size = Readable(self.descriptor.size());
        write!(f, "{short_digest} {size} {}", self.descriptor.media_type())?;
        if let Some(artifact_type) = &self.artifact_type {
            write!(f, " ({artifact_type})")?;
        }
        print_platforms(&self.platforms, f)?;
        print_tags(self.tags, f)?;
        write!(f, "{}", self.mark())
    }
}

impl Node<'_> {
    /// Returns the mark at the end of the line.
    fn mark(&self) -> &'static str {
        if self.distributed == Some(false) {
            " (not distributed)"
        } else if self.absent {
            " (absent)"
        } else if self.repeated {
            " (shown above)"
        } else {
            ""
        }
    }
}

/// Prints each platform after a space.
fn print_platforms<W: fmt::Write>(
    platforms: &BTreeSet<String>,
    f: &mut fmt::Formatter<W>,
) -> fmt::Result {
    for platform in platforms {
        write!(f, " {platform}")?;
    }
    Ok(())
}

/// Prints each tag in brackets after a space.
fn print_tags<W: fmt::Write>(tags: &[String], f: &mut fmt::Formatter<W>) -> fmt::Result {
    for tag in tags {
        write!(f, " [{tag}]")?;
    }
    Ok(())
}
