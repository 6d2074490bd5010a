/// A directory from which blobs are brought. Folders and archives can be mixed.
#[derive(Drop)]
pub enum RepairSource<F, A> {
    /// A folder.
    Folder(F),
    /// An archive.
    Archive(A),
}
