//! The lock of a folder.

use crate::tests::host::Host;
use crate::tests::locks::Call::{Lock, MakeAndLock, MakeAndTryLock, TryLock};
use oci_layout::FolderLock;
use std::io::ErrorKind;
use std::process::Abort;
use std::test::Fail;
use std::{env, fs, io, rt};

/// A call that locks a folder.
#[derive(Clone, Copy)]
enum Call {
    Lock,
    TryLock,
    MakeAndLock,
    MakeAndTryLock,
}

/// Locks a folder with this call.
fn locked<R: Host>(rt: &R, call: Call, folder: &str) -> io::Result<Option<FolderLock<R>>> {
    match call {
        Lock => Ok(Some(FolderLock::lock(rt, folder)?)),
        TryLock => FolderLock::try_lock(rt, folder),
        MakeAndLock => Ok(Some(FolderLock::make_and_lock(rt, folder)?)),
        MakeAndTryLock => FolderLock::make_and_try_lock(rt, folder),
    }
}

/// Returns what becomes of a call. A lock that it returns is dropped.
fn told_of<R: Host>(rt: &R, call: Call, folder: &str) -> &'static str {
    match locked(rt, call, folder) {
        Ok(Some(_)) => "free",
        Ok(None) => "taken",
        Err(error) => match error.kind() {
            ErrorKind::NotFound => "not found",
            ErrorKind::NotADirectory => "no folder",
            ErrorKind::AlreadyExists => "exists",
            _ => "failed",
        },
    }
}

/// A call that is made with each of these folders, and what becomes of it each time.
struct Row<'a>(Call, &'a [&'a str], &'a str);

fn assert_rows<R: Host + Abort>(rt: &R, rows: &[Row<'_>]) {
    for Row(call, folders, want) in rows {
        for folder in *folders {
            assert_eq!(rt; told_of(rt, *call, folder), *want, "{folder}");
        }
    }
}

/// Locks a folder with this call, and compares the rows while the lock is held.
fn assert_held<R: Host + Abort>(
    rt: &R,
    call: Call,
    folder: &str,
    rows: &[Row<'_>],
) -> Result<(), Fail> {
    let Some(lock) = locked(rt, call, folder)? else {
        return Err(Fail::from("the folder is locked already"));
    };
    assert_rows(rt, rows);
    lock.remove_leftovers(rt)?;
    drop(lock);
    Ok(())
}

/// The paths of one folder.
const PATHS: &[&str] = &["locks/folder", "locks/../locks/folder/", "locks/link"];

/// The folder is locked, and the one above it is free.
const TAKEN: &[Row] = &[
    Row(TryLock, PATHS, "taken"),
    Row(MakeAndTryLock, PATHS, "taken"),
    Row(TryLock, &["locks"], "free"),
];

/// No folder is locked. A missing one is created only by the calls that say so, and a file cannot be
/// locked.
const FREE: &[Row] = &[
    Row(Lock, PATHS, "free"),
    Row(TryLock, PATHS, "free"),
    Row(Lock, &["locks/missing"], "not found"),
    Row(TryLock, &["locks/missing"], "not found"),
    Row(Lock, &["locks/file"], "no folder"),
    Row(TryLock, &["locks/file"], "no folder"),
    Row(MakeAndTryLock, &["locks/file"], "exists"),
    Row(MakeAndLock, &["locks/file/below"], "no folder"),
    Row(TryLock, &["locks/missing"], "not found"),
    Row(MakeAndTryLock, &["locks/new"], "free"),
    Row(TryLock, &["locks/new"], "free"),
];

fn assert_locks<R: Host + Abort>(rt: &R) -> Result<(), Fail> {
    fs::create_dir(rt, "locks")?;
    fs::write(rt, "locks/file", b"foo")?;
    rt::Files::symlink(rt, "folder", "locks/link")?;
    assert_held(rt, MakeAndLock, "locks/folder", TAKEN)?;
    assert_rows(rt, FREE);
    assert_held(rt, Lock, "locks/link", TAKEN)?;
    assert_held(rt, TryLock, "locks/folder", TAKEN)?;
    assert_held(rt, MakeAndTryLock, "locks/folder", TAKEN)
}

/// A folder has one lock at a time, by any path, until the lock is dropped.
#[test]
fn one_lock_at_a_time(rt: HostRuntime) -> Result<(), Fail> {
    let _ = fs::remove_dir_all(&rt, "locks");
    assert_locks(&rt)?;
    Ok(fs::remove_dir_all(&rt, "locks")?)
}

const CURRENT: &[Row] = &[
    Row(TryLock, &["", ".", "../current"], "taken"),
    Row(MakeAndTryLock, &["", ".", "../current"], "taken"),
];

/// The empty path is the current folder. The test changes into a folder of its own first.
#[test]
fn lock_of_the_current_folder(rt: HostRuntime) -> Result<(), Fail> {
    let _ = fs::remove_dir_all(&rt, "current");
    fs::create_dir(&rt, "current")?;
    env::set_current_dir(&rt, "current")?;
    let found = assert_held(&rt, MakeAndTryLock, "", CURRENT);
    let is_back = env::set_current_dir(&rt, "..").is_ok();
    found?;
    assert!(rt; is_back);
    Ok(fs::remove_dir_all(&rt, "current")?)
}
