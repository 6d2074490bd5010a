use crate::set::set_of;
use crate::tree::{Labels, Node, Platforms, Stated};
use oci_digest::NoMemory;
use oci_manifest::{Key, Kind, artifact_type};
use oci_program::ProgramFault;
use oci_prune::Belonging;
use oci_store::{FetchFault, GraphSource, keys_of_set};
use std::alloc::Global;
use std::collections::BTreeSet;

/// A blob to visit.
#[derive(Drop)]
struct Visit {
    key: Key,
    depth: usize,
    /// The platforms that the index above it states of it.
    platforms: BTreeSet<String>,
    /// Whether it is no layer that the manifest above it lists and that is not to be distributed.
    is_distributed: bool,
}

/// Where a walk goes from a blob.
#[derive(Clone, Copy)]
enum Way<'b> {
    /// To the blobs that it lists.
    Down,
    /// To the manifests that list it.
    Up,
    /// To the manifests that are attached to it.
    Attached(&'b Belonging),
}

/// A walk over a graph that makes the nodes of a tree.
#[derive(Drop)]
pub(crate) struct Walk<'w, 'l, A> {
    alloc: Global,
    source: &'w A,
    labels: &'l Labels,
    /// The blobs that have a node.
    shown: BTreeSet<Key>,
}

impl<'w, 'l, A: GraphSource> Walk<'w, 'l, A> {
    /// Creates a walk that has no node yet.
    pub(crate) fn new(alloc: Global, source: &'w A, labels: &'l Labels) -> Walk<'w, 'l, A> {
        Walk {
            alloc,
            source,
            labels,
            shown: BTreeSet::new(alloc),
        }
    }

    /// Returns the nodes of a blob and of the blobs that it reaches.
    pub(crate) fn blobs(&mut self, root: &Key) -> Result<Vec<Node<'l>>, ProgramFault> {
        let mut pending = Vec::new(self.alloc);
        pending.push(Visit {
            key: root.try_clone()?,
            depth: 0,
            platforms: BTreeSet::new(self.alloc),
            is_distributed: true,
        })?;
        let mut nodes = Vec::new(self.alloc);
        self.add_nodes(pending, Way::Down, &mut nodes)?;
        Ok(nodes)
    }

    /// Returns the nodes of the manifests that list a blob, of those that list one of them, and so
    /// on. Then of the manifests that are attached to it and have no node yet, and of each other
    /// blob that belongs to the same keys and has such manifests, with these below it.
    pub(crate) fn referrers(
        &mut self,
        root: &Key,
        belonging: &Belonging,
    ) -> Result<Vec<Node<'l>>, ProgramFault> {
        let mut nodes = Vec::new(self.alloc);
        let mut pending = Vec::new(self.alloc);
        self.add_all(&mut pending, self.source.predecessors(root)?, 1)?;
        self.add_nodes(pending, Way::Up, &mut nodes)?;
        self.add_attached(root, 1, belonging, &mut nodes)?;
        self.add_members(belonging, &mut nodes)?;
        Ok(nodes)
    }

    /// Adds the node of each member to which something more is attached, with that below it: first
    /// those that are attached to no other one.
    fn add_members(
        &mut self,
        belonging: &Belonging,
        nodes: &mut Vec<Node<'l>>,
    ) -> Result<(), ProgramFault> {
        let attached = set_of(self.alloc, &belonging.attached)?;
        for key in &belonging.members {
            if !attached.contains(key) {
                self.add_member(key, belonging, nodes)?;
            }
        }
        for key in &belonging.attached {
            self.add_member(key, belonging, nodes)?;
        }
        Ok(())
    }

    /// Adds the node of a member and of what is attached to it, if something is that has no node.
    fn add_member(
        &mut self,
        key: &Key,
        belonging: &Belonging,
        nodes: &mut Vec<Node<'l>>,
    ) -> Result<(), ProgramFault> {
        if self.fresh_attached(key, belonging)?.is_empty() {
            return Ok(());
        }
        let visit = Visit {
            key: key.try_clone()?,
            depth: 1,
            platforms: BTreeSet::new(self.alloc),
            is_distributed: true,
        };
        nodes.push(self.node(visit)?)?;
        self.add_attached(key, 2, belonging, nodes)
    }

    /// Adds the nodes of what is attached to a key and has no node, at this depth, and of what is
    /// attached to these.
    fn add_attached(
        &mut self,
        key: &Key,
        depth: usize,
        belonging: &Belonging,
        nodes: &mut Vec<Node<'l>>,
    ) -> Result<(), ProgramFault> {
        let mut pending = Vec::new(self.alloc);
        self.add_all(&mut pending, self.fresh_attached(key, belonging)?, depth)?;
        self.add_nodes(pending, Way::Attached(belonging), nodes)
    }

    /// Returns the manifests that are attached to a key and have no node, in key order.
    fn fresh_attached(&self, key: &Key, belonging: &Belonging) -> Result<Vec<Key>, NoMemory> {
        let mut fresh = BTreeSet::new(self.alloc);
        for attached in belonging.attachments.attached_to(self.alloc, key)? {
            if !self.shown.contains(&attached) {
                fresh.insert(attached)?;
            }
        }
        keys_of_set(self.alloc, &fresh)
    }

    /// Adds the nodes of these blobs and of those to which this way leads from them. The last one is
    /// visited first.
    fn add_nodes(
        &mut self,
        pending: Vec<Visit>,
        way: Way<'_>,
        nodes: &mut Vec<Node<'l>>,
    ) -> Result<(), ProgramFault> {
        let mut pending = pending;
        for _ in 0..u64::MAX {
            let Some(visit) = pending.pop() else {
                break;
            };
            let node = match way {
                Way::Down => self.visit_blob(visit, &mut pending)?,
                Way::Up => self.visit_referrer(visit, None, &mut pending)?,
                Way::Attached(belonging) => {
                    self.visit_referrer(visit, Some(belonging), &mut pending)?
                }
            };
            nodes.push(node)?;
        }
        Ok(())
    }

    /// Returns the node of a blob, and adds the blobs that it lists to those to visit.
    fn visit_blob(
        &mut self,
        visit: Visit,
        pending: &mut Vec<Visit>,
    ) -> Result<Node<'l>, ProgramFault> {
        if !visit.is_distributed {
            return Ok(self.visit_undistributed(visit)?);
        }
        let depth = visit.depth;
        let mut node = self.node(visit)?;
        let Some(listed) = self.source.successors(&node.descriptor)? else {
            node.absent = true;
            return Ok(node);
        };
        if self.shown.insert(node.descriptor.try_clone()?)? {
            self.add_below(&node.descriptor, listed, depth.saturating_add(1), pending)?;
        } else {
            node.repeated = true;
        }
        Ok(node)
    }

    /// Returns the node of a layer that is not to be distributed. Its file is not looked for.
    fn visit_undistributed(&mut self, visit: Visit) -> Result<Node<'l>, NoMemory> {
        let mut node = self.node(visit)?;
        node.distributed = Some(false);
        node.repeated = !self.shown.insert(node.descriptor.try_clone()?)?;
        Ok(node)
    }

    /// Adds what a blob lists to the blobs to visit, at this depth: first these keys, and then the
    /// layers that it lists and that are not to be distributed.
    fn add_below(
        &self,
        key: &Key,
        listed: Vec<Key>,
        depth: usize,
        pending: &mut Vec<Visit>,
    ) -> Result<(), ProgramFault> {
        let Stated {
            platforms,
            undistributed,
        } = self.stated_below(key)?;
        let mut platforms = platforms;
        self.add_listed(pending, undistributed, depth, false, &mut platforms)?;
        self.add_listed(pending, listed, depth, true, &mut platforms)?;
        Ok(())
    }

    /// Adds the blobs that a blob lists to those to visit, each with its platforms. They are visited
    /// before all others, in their order.
    fn add_listed(
        &self,
        pending: &mut Vec<Visit>,
        listed: Vec<Key>,
        depth: usize,
        is_distributed: bool,
        platforms: &mut Platforms,
    ) -> Result<(), NoMemory> {
        for key in listed.into_iter().rev() {
            let platforms = platforms.take(self.alloc, &key);
            pending.push(Visit {
                key,
                depth,
                platforms,
                is_distributed,
            })?;
        }
        Ok(())
    }

    /// Reads what a manifest states of what it lists. A blob that is no manifest is not read, and an
    /// image that cannot be read states nothing.
    fn stated_below(&self, key: &Key) -> Result<Stated, ProgramFault> {
        let kind = Kind::of(key.media_type());
        if kind == Kind::Leaf {
            return Ok(Stated::nothing(self.alloc));
        }
        match self.source.fetch(key) {
            Ok(bytes) => Stated::read(self.alloc, key, bytes.as_slice()),
            Err(fault) if is_passed_over(kind, fault) => Ok(Stated::nothing(self.alloc)),
            Err(fault) => Err(ProgramFault::from(fault)),
        }
    }

    /// Returns the node of a referrer, and adds those above it to those to visit: the manifests that
    /// list it, or with `belonging` those that are attached to it and have no node.
    fn visit_referrer(
        &mut self,
        visit: Visit,
        belonging: Option<&Belonging>,
        pending: &mut Vec<Visit>,
    ) -> Result<Node<'l>, ProgramFault> {
        let depth = visit.depth;
        let mut node = self.node(visit)?;
        node.artifact_type = self.stated_type(&node.descriptor)?;
        if self.shown.insert(node.descriptor.try_clone()?)? {
            let above = match belonging {
                Some(belonging) => self.fresh_attached(&node.descriptor, belonging)?,
                None => self.source.predecessors(&node.descriptor)?,
            };
            self.add_all(pending, above, depth.saturating_add(1))?;
        } else {
            node.repeated = true;
        }
        Ok(node)
    }

    /// Adds these blobs to those to visit. They are visited before all others, in their order.
    fn add_all(
        &self,
        pending: &mut Vec<Visit>,
        keys: Vec<Key>,
        depth: usize,
    ) -> Result<(), NoMemory> {
        let mut none = Platforms::none(self.alloc);
        self.add_listed(pending, keys, depth, true, &mut none)
    }

    /// Returns the node of a blob without an artifact type and a mark.
    fn node(&self, visit: Visit) -> Result<Node<'l>, NoMemory> {
        let Visit {
            key,
            depth,
            platforms,
            is_distributed: _,
        } = visit;
        Ok(Node {
            depth,
            platforms,
            tags: self.labels.tags(&key),
            repeated: false,
            absent: false,
            distributed: None,
            artifact_type: None,
            short_digest: self.labels.short_digest(self.alloc, &key)?,
            descriptor: key,
        })
    }

    /// Reads the type that a referrer states. One that is no manifest states none, and is not read.
    fn stated_type(&self, key: &Key) -> Result<Option<String>, ProgramFault> {
        let kind = Kind::of(key.media_type());
        if kind == Kind::Leaf {
            return Ok(None);
        }
        let bytes = self.source.fetch(key)?;
        Ok(artifact_type(self.alloc, kind, bytes.as_slice())?)
    }
}

/// Returns whether a manifest of this kind that could not be fetched is taken as one that states
/// nothing. An index is not, since its lines would lack the platforms.
fn is_passed_over(kind: Kind, fault: FetchFault) -> bool {
    fault != FetchFault::Memory && !matches!(kind, Kind::Index | Kind::DockerList)
}
