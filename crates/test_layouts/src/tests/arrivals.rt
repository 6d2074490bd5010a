//! The parts of a content that the watchers of `fetch_into` and of `repair` and the hooks of a copy
//! are told of.

use crate::tests::faulty::{Failing, FaultyDir};
use crate::tests::layouts::{created, filled, opened, push, save_named};
use crate::tests::texts::blob;
use bytes::Bytes;
use oci_copy::{Options, copy_graph};
use oci_digest::{Digest, NoMemory};
use oci_layout::{Dir, Layout, MemDir};
use oci_manifest::Key;
use oci_pool::Hooks;
use oci_repair::{RepairSource, repair};
use oci_store::{ClosedStore, Dest, Drafting, MemoryStore, PartWatcher, Source, fetch_into};
use std::alloc::Global;
use std::cell::RefCell;
use std::fmt::{Display, Write};
use std::process::Abort;
use std::sync::Wait;
use std::sync::atomic::{AtomicU64, Ordering};
use std::test::Fail;
use std::thread::Threads;
use test_support::LAYER;

/// A watcher that writes down the lengths of the parts.
#[derive(Drop)]
struct Lengths {
    told: RefCell<String>,
}

impl Lengths {
    fn new(alloc: Global) -> Lengths {
        Lengths {
            told: RefCell::new(String::new(alloc)),
        }
    }

    /// Returns the lengths and the result as text: the word for a success, or the fault.
    fn with_result<E: Display + Drop>(
        self,
        answer: Result<(), E>,
        done: &str,
    ) -> Result<String, Fail> {
        let mut told = self.told.into_inner();
        match answer {
            Ok(()) => told.push_str(done)?,
            Err(fault) => write!(told, "{fault}")?,
        }
        Ok(told)
    }
}

impl PartWatcher for Lengths {
    fn part_arrived(&self, length: usize) {
        if let Ok(mut told) = self.told.try_borrow_mut() {
            let _ = write!(told, "{length} ");
        }
    }
}

/// A draft whose last write fails.
#[derive(Drop)]
struct Breaking {
    /// The number of writes that are left.
    writes: u64,
}

impl Drafting for Breaking {
    ghost use Rattle.std.specs.Prelude.{◌≡◌, ⊤};

    ghost drafted = { λ d bytes. ⊤ };

    ghost is_lost = { λ d. d.writes ≡ 0 };

    fn append(&mut self, _part: &[u8]) -> Result<(), NoMemory> {
        self.writes = self.writes.saturating_sub(1);
        Ok(())
    }

    fn is_broken(&self) -> bool {
        self.writes == 0
    }
}

/// The number of bytes that are read at a time.
const PART: usize = 1_048_576;

/// A layer that is read into a draft, and the lengths and the result as text.
struct Reading {
    size: usize,
    /// The number of bytes that its file has.
    file: usize,
    /// The number of the write that fails.
    failing: u64,
    /// The most reads of the file.
    reads: u64,
    told: &'static str,
}

static READINGS: [Reading; 5] = [
    // A read of no bytes is a part too.
    Reading {
        size: 0,
        file: 0,
        failing: 9,
        reads: 1,
        told: "0 read",
    },
    Reading {
        size: PART + 1,
        file: PART + 1,
        failing: 9,
        reads: 2,
        told: "1048576 1 read",
    },
    // After a failed write nothing is read.
    Reading {
        size: 2 * PART + 1,
        file: 2 * PART + 1,
        failing: 2,
        reads: 2,
        told: "1048576 read",
    },
    // A byte too many is no part.
    Reading {
        size: 3,
        file: 4,
        failing: 9,
        reads: 2,
        told: "21 Corrupt",
    },
    Reading {
        size: 3,
        file: 2,
        failing: 9,
        reads: 2,
        told: "2 21 Corrupt",
    },
];

/// The first 251 bytes.
fn period(alloc: Global) -> Result<Vec<u8>, Fail> {
    let mut period = Vec::with_capacity(alloc, 251)?;
    for number in 0..251u8 {
        period.push(number)?;
    }
    Ok(period)
}

/// Returns this many bytes. Byte `n` is `n % 251`, so that no two parts are equal.
fn bytes_of(alloc: Global, size: usize) -> Result<Vec<u8>, Fail> {
    let period = period(alloc)?;
    let mut bytes = Vec::with_capacity(alloc, size)?;
    for _ in 0..size.div_ceil(251) {
        let missing = size.saturating_sub(bytes.len());
        bytes.extend_from_slice(&period[..missing.min(period.len())])?;
    }
    Ok(bytes)
}

/// Returns the key of a layer with these bytes.
fn key_of(alloc: Global, bytes: &[u8]) -> Result<Key, Fail> {
    let media_type = String::from_str(alloc, LAYER)?;
    Ok(Key::new(media_type, Digest::of(bytes), bytes.len() as u64)?)
}

/// Pushes a layer of this many bytes. Returns its key.
fn push_layer<D: Dest>(alloc: Global, store: &mut D, size: usize) -> Result<Key, Fail> {
    let bytes = bytes_of(alloc, size)?;
    let key = key_of(alloc, &bytes)?;
    push(alloc, store, &key, Bytes::from_vec(bytes)?)?;
    Ok(key)
}

/// Returns a layout of one layer whose file has the first `file` bytes of a long layer, and the
/// key.
fn layer_in_file(
    alloc: Global,
    size: usize,
    file: usize,
) -> Result<(Layout<FaultyDir>, Key), Fail> {
    let mut layout = created(alloc, MemDir::new(alloc))?;
    let key = push_layer(alloc, &mut layout, size)?;
    save_named(&mut layout, &key, "layer")?;
    let mut dir = layout.into_dir();
    dir.put(&blob(alloc, &key)?, &bytes_of(alloc, file)?)?;
    let dir = FaultyDir::failing(dir, Failing::Nothing);
    Ok((opened(alloc, dir)?, key))
}

/// Reads the layer. Returns the lengths and the result, and the number of reads.
fn told_of_reading(alloc: Global, reading: &Reading) -> Result<(String, u64), Fail> {
    let (source, key) = layer_in_file(alloc, reading.size, reading.file)?;
    let mut draft = Breaking {
        writes: reading.failing,
    };
    let lengths = Lengths::new(alloc);
    let opened = source.dir().reads();
    let read = fetch_into(&source, &key, &mut draft, &lengths);
    let reads = source.dir().reads().saturating_sub(opened);
    Ok((lengths.with_result(read, "read")?, reads))
}

fn assert_reading<R: AllocGlobal + Abort>(rt: &R, reading: &Reading) -> Result<(), Fail> {
    let (told, reads) = told_of_reading(rt.alloc(), reading)?;
    let Reading { size, file, .. } = reading;
    assert_eq!(rt; told.as_str(), reading.told, "{file} bytes for {size}");
    assert!(rt;
        reads <= reading.reads,
        "{file} bytes for {size}: {reads} reads"
    );
    Ok(())
}

/// `fetch_into` calls the watcher once for each part, in order. The lengths add up to the size of
/// the key, and to no more if the file is longer. A part that could not be written is not counted,
/// and is the last one that is read.
#[test]
fn arrivals_of_a_read(rt: HostRuntime) -> Result<(), Fail> {
    for reading in &READINGS {
        assert_reading(&rt, reading)?;
    }
    Ok(())
}

/// Brings a layer into a layout. Returns the lengths and the result.
fn told_of_layer(
    alloc: Global,
    layout: &mut Layout<MemDir>,
    key: Key,
    bytes: &[u8],
) -> Result<String, Fail> {
    let mut dir = MemDir::new(alloc);
    dir.put(&blob(alloc, &key)?, bytes)?;
    let mut sources: Vec<RepairSource<MemDir, MemDir>> = Vec::new(alloc);
    sources.push(RepairSource::Archive(dir))?;
    let mut mends = Vec::new(alloc);
    mends.push((key, 0))?;
    let lengths = Lengths::new(alloc);
    let answer = repair(alloc, layout, &sources, &mends, &lengths);
    lengths.with_result(answer, "repaired")
}

/// Brings a layer of this many bytes into a new layout. Returns the lengths and the result.
fn told_of_repair(alloc: Global, size: usize) -> Result<String, Fail> {
    let bytes = bytes_of(alloc, size)?;
    let key = key_of(alloc, &bytes)?;
    let mut layout = created(alloc, MemDir::new(alloc))?;
    told_of_layer(alloc, &mut layout, key, &bytes)
}

/// The sizes of a layer, and the lengths of the parts that a repair reads, with its result.
static REPAIRED: [(usize, &str); 3] = [
    (0, "0 repaired"),
    (1, "1 repaired"),
    (PART + 1, "1048576 1 repaired"),
];

/// A repair calls its watcher for each part.
#[test]
fn arrivals_of_a_repair(rt: HostRuntime) -> Result<(), Fail> {
    for (size, want) in &REPAIRED {
        let told = told_of_repair(rt.alloc(), *size)?;
        assert_eq!(rt; told.as_str(), *want);
    }
    Ok(())
}

/// Hooks that count the parts and their bytes.
#[derive(Drop)]
struct Counting {
    parts: AtomicU64,
    bytes: AtomicU64,
}

impl Hooks for Counting {
    fn pre_copy(&self, _key: &Key) {}

    fn part_arrived(&self, _key: &Key, length: usize) {
        self.parts.fetch_add(1, Ordering::SeqCst);
        self.bytes.fetch_add(length as u64, Ordering::SeqCst);
    }

    fn post_copy(&self, _key: &Key) {}

    fn skipped(&self, _key: &Key) {}
}

/// Pushes a layer of one part and one byte into a store, and copies it by three workers. Returns the
/// report, and the numbers of parts and of bytes.
fn told_of_copy<
    A: Source + Dest + Drop + Sync,
    D: Dest + Drop + Send,
    R: AllocGlobal + Threads + Wait + Sync,
>(rt: &R, mut source: A, destination: D) -> Result<String, Fail>
where
    D::Draft: Send,
{
    let alloc = rt.alloc();
    let mut roots = Vec::new(alloc);
    roots.push(push_layer(alloc, &mut source, PART + 1)?)?;
    let counting = Counting {
        parts: AtomicU64::new(0),
        bytes: AtomicU64::new(0),
    };
    let options = Options::default();
    let (_, copied) = copy_graph(rt, alloc, &source, destination, &roots, &options, &counting);
    let report = copied?;
    let parts = counting.parts.load(Ordering::SeqCst);
    let bytes = counting.bytes.load(Ordering::SeqCst);
    Ok(format!(in alloc; "{report}, {parts} parts, {bytes} bytes")?)
}

/// Between layouts a layer arrives in parts of 1 MiB, and between stores in memory each content is
/// one part.
#[test]
fn arrivals_of_a_copy(rt: HostRuntime) -> Result<(), Fail> {
    let alloc = rt.alloc();
    let (source, destination) = (filled(alloc, &[])?, filled(alloc, &[])?);
    let told = told_of_copy(&rt, source, destination)?;
    assert_eq!(rt;
        told.as_str(),
        "planned 1 pushed 1 skipped 0, 2 parts, 1048577 bytes"
    );
    let told = told_of_copy(&rt, MemoryStore::new(alloc), ClosedStore::new(alloc))?;
    assert_eq!(rt;
        told.as_str(),
        "planned 1 pushed 1 skipped 0, 1 parts, 1048577 bytes"
    );
    Ok(())
}
