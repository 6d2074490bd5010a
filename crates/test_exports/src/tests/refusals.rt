//! Archives that are not written whole.

use crate::tests::archives::LENGTH;
use crate::tests::layouts::{archive, image_layout, opened, told};
use oci_export::{ExportFault, write_archive};
use oci_layout::{Dir, Layout, LayoutFault, MemDir, blob_path};
use oci_pool::NoHooks;
use oci_store::FetchFault;
use std::alloc::Global;
use std::io::{self, ErrorKind, Write};
use std::process::Abort;
use std::test::Fail;
use test_support::Sample;

/// The length of the archive after the header of the last blob: one block, and the end.
const REST: usize = 1536;

/// The bytes in the file of the last blob, `foo` by its SHA-512 digest, and the written ones.
const DAMAGES: [(&str, &str); 4] = [("oof", "oof"), ("fo", "fo"), ("food", ""), ("", "")];

/// Returns the layout, after the file of its last blob got other bytes.
fn damaged(alloc: Global, layout: Layout<MemDir>, bytes: &str) -> Result<Layout<MemDir>, Fail> {
    let mut dir = layout.into_dir();
    let key = Sample::FooBySha512.key(alloc)?;
    dir.put(&blob_path(alloc, key.digest())?, bytes.as_bytes())?;
    opened(alloc, dir)
}

/// Writes the archive of a layout. Returns the written bytes, and the result as text.
fn written(alloc: Global, layout: &Layout<MemDir>) -> Result<(Vec<u8>, String), Fail> {
    let mut out = Vec::new(alloc);
    let answer = write_archive(alloc, layout, layout, &NoHooks, &mut out);
    Ok((out, told(alloc, answer)?))
}

/// Returns the archive up to the last blob, whose content is begun.
fn begun(alloc: Global, layout: &Layout<MemDir>, content: &str) -> Result<Vec<u8>, Fail> {
    let mut bytes = archive(alloc, layout, layout)?;
    bytes.truncate(bytes.len().saturating_sub(REST));
    bytes.extend_from_slice(content.as_bytes())?;
    Ok(bytes)
}

fn assert_damaged<R: AllocGlobal + Abort>(rt: &R, row: (&str, &str)) -> Result<(), Fail> {
    let alloc = rt.alloc();
    let (content, added) = row;
    let layout = image_layout(alloc)?;
    let wanted = begun(alloc, &layout, added)?;
    let (bytes, told) = written(alloc, &damaged(alloc, layout, content)?)?;
    let key = Sample::FooBySha512.key(alloc)?;
    let fault = format!(in alloc; "88 Fetch {key} 21 Corrupt")?;
    assert_eq!(rt; told, fault, "{content}");
    assert!(rt; bytes == wanted, "{content}");
    Ok(())
}

/// A blob that does not match its key is refused, and the two blocks of the end are not written. No
/// more bytes of the blob are written than its header states.
#[test]
fn damaged_blobs(rt: HostRuntime) -> Result<(), Fail> {
    for row in DAMAGES {
        assert_damaged(&rt, row)?;
    }
    Ok(())
}

/// A writer that takes some bytes, and then fails.
#[derive(Drop)]
struct Limited {
    bytes: Vec<u8>,
    /// The number of bytes that it still takes.
    room: usize,
    kind: ErrorKind,
}

impl Write for Limited {
    fn write(&mut self, buf: &[u8]) -> io::Result<usize> {
        let count = buf.len().min(self.room);
        if count == 0 {
            return Err(io::Error::from(self.kind));
        }
        self.bytes.extend_from_slice(&buf[..count])?;
        self.room -= count;
        Ok(count)
    }

    fn flush(&mut self) -> io::Result<()> {
        Ok(())
    }
}

/// The number of bytes that a writer takes, why it fails, and the result.
const WRITERS: [(usize, ErrorKind, &str); 5] = [
    (0, ErrorKind::StorageFull, "94 Output"),
    (513, ErrorKind::StorageFull, "94 Output"),
    (LENGTH - 1, ErrorKind::StorageFull, "94 Output"),
    (LENGTH - 1, ErrorKind::OutOfMemory, "memory"),
    (LENGTH, ErrorKind::StorageFull, "done"),
];

fn assert_limited<R: AllocGlobal + Abort>(
    rt: &R,
    layout: &Layout<MemDir>,
    row: (usize, ErrorKind, &str),
) -> Result<(), Fail> {
    let alloc = rt.alloc();
    let (room, kind, wanted) = row;
    let mut out = Limited {
        bytes: Vec::new(alloc),
        room,
        kind,
    };
    let answer = write_archive(alloc, layout, layout, &NoHooks, &mut out);
    let mut begun = archive(alloc, layout, layout)?;
    begun.truncate(room);
    assert_eq!(rt; told(alloc, answer)?.as_str(), wanted, "{room}");
    assert!(rt; out.bytes == begun, "{room}");
    Ok(())
}

/// A writer that fails has the beginning of the archive.
#[test]
fn failing_writers(rt: HostRuntime) -> Result<(), Fail> {
    let layout = image_layout(rt.alloc())?;
    for row in WRITERS {
        assert_limited(&rt, &layout, row)?;
    }
    Ok(())
}

/// The text of a fault has its number, its key and the fault below it.
#[test]
fn texts_of_faults(rt: HostRuntime) -> Result<(), Fail> {
    let bar = Sample::Bar.key(rt.alloc())?;
    let rows = [
        (
            ExportFault::Layout(LayoutFault::NoLayoutFile),
            "70 NoLayoutFile",
        ),
        (ExportFault::Layout(LayoutFault::Device), "74 Device"),
        (
            ExportFault::Fetch(bar, FetchFault::NotFound),
            "88 Fetch sha256:fcde2b2edba56bf408601fb721fe9b5c338d10ee429ea04fae5511b68fbf8fb9 3 \
             application/vnd.oci.image.layer.v1.tar 20 NotFound",
        ),
        (ExportFault::Output, "94 Output"),
        (ExportFault::Exists, "95 Exists"),
        (ExportFault::Memory, "memory"),
    ];
    for (fault, wanted) in rows {
        assert_eq!(rt; told(rt.alloc(), Err(fault))?.as_str(), wanted);
    }
    Ok(())
}
