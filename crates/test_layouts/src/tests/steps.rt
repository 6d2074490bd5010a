//! Steps with a directory and the layout in it, and their results as text.

use crate::save_and_open;
use crate::tests::copies::{Copying, copied};
use crate::tests::files::{FileStep, in_dir};
use crate::tests::host::Host;
use crate::tests::layouts::{LayoutStep, summary, with_layout};
use crate::tests::texts::assert_told;
use oci_layout::{Dir, FsDir, Layout, LayoutFault, MemDir};
use std::alloc::Global;
use std::fmt::{self, Display, Formatter, Write};
use std::fs;
use std::process::Abort;
use std::sync::Wait;
use std::test::Fail;
use std::thread::Threads;

/// How a directory becomes a layout.
pub(crate) enum Way {
    Create,
    Open,
    OpenAsIs,
    OpenOrCreate,
}

/// A step.
pub(crate) enum Step<'a> {
    /// Creates or opens the layout in the directory. Result: its contents, or the fault.
    Enter(Way),
    /// Saves the layout and opens it again. Result: its contents, or the fault.
    SaveAndOpen,
    /// Copies into the layout.
    Copy(Copying),
    /// Takes a step with the layout.
    With(LayoutStep<'a>),
    /// Takes a step with a file of the directory. The layout is dropped first.
    In(&'a str, FileStep<'a>),
}

/// A step and its expected result, which may have marks.
pub(crate) struct Row<'a>(pub(crate) Step<'a>, pub(crate) &'a str);

/// The directory of the steps.
pub(crate) enum Ground<'a> {
    /// A directory in memory.
    Memory,
    /// A directory in memory that allows this many puts and fails the next.
    Fuse(u64),
    /// A folder, which is removed before and afterwards.
    Folder(&'a str),
}

/// A name for failures, a ground, and steps.
pub(crate) struct Run<'a>(
    pub(crate) &'a str,
    pub(crate) Ground<'a>,
    pub(crate) &'a [Row<'a>],
);

/// The place of a row, as a failure prints it.
#[derive(Clone, Copy)]
struct Place<'a> {
    run: &'a str,
    row: usize,
}

impl<'a> Display for Place<'a> {
    fn fmt<W: Write>(&self, f: &mut Formatter<W>) -> fmt::Result {
        write!(f, "row {} of '{}'", self.row, self.run)
    }
}

/// A directory, or the layout in it.
struct Room<D: Dir> {
    files: Option<D>,
    held: Option<Layout<D>>,
}

/// Written out, so that a proof has one call where it is dropped.
impl<D: Dir + Drop> Drop for Room<D> {
    fn drop(self) {
        let Room {
            files: _files,
            held: _held,
        } = self;
    }
}

impl<D: Dir + Drop> Room<D> {
    /// Takes the directory out, and drops the layout.
    fn take_dir(&mut self) -> Result<D, Fail> {
        if let Some(layout) = self.held.take() {
            return Ok(layout.into_dir());
        }
        match self.files.take() {
            Some(dir) => Ok(dir),
            None => Err(Fail::from("there is no directory")),
        }
    }

    fn take_layout(&mut self) -> Result<Layout<D>, Fail> {
        match self.held.take() {
            Some(layout) => Ok(layout),
            None => Err(Fail::from("there is no layout")),
        }
    }
}

/// Creates or opens the layout in a directory.
pub(crate) fn entered<D: Dir + Drop>(
    alloc: Global,
    dir: D,
    way: &Way,
) -> Result<Layout<D>, (D, LayoutFault)> {
    match way {
        Way::Create => Layout::create(alloc, dir),
        Way::Open => Layout::open(alloc, dir),
        Way::OpenAsIs => Layout::open_as_is(alloc, dir),
        Way::OpenOrCreate => Layout::open_or_create(alloc, dir),
    }
}

/// Keeps the layout, or the directory that was returned with a fault. Returns the fault.
fn settle<D: Dir + Drop>(
    room: &mut Room<D>,
    answer: Result<Layout<D>, (D, LayoutFault)>,
) -> Option<LayoutFault> {
    match answer {
        Ok(layout) => {
            room.held = Some(layout);
            None
        }
        Err((dir, fault)) => {
            room.files = Some(dir);
            Some(fault)
        }
    }
}

fn enter<D: Dir + Drop>(alloc: Global, room: &mut Room<D>, way: &Way) -> Result<String, Fail> {
    let answer = entered(alloc, room.take_dir()?, way);
    match settle(room, answer) {
        None => held(alloc, room),
        Some(fault) => Ok(format!(in alloc; "{fault}")?),
    }
}

fn opened_again<D: Dir + Drop>(alloc: Global, room: &mut Room<D>) -> Result<String, Fail> {
    match save_and_open(alloc, room.take_layout()?) {
        Ok(layout) => {
            room.held = Some(layout);
            held(alloc, room)
        }
        Err(fault) => Ok(format!(in alloc; "{fault}")?),
    }
}

/// Returns the contents of the layout.
fn held<D: Dir>(alloc: Global, room: &Room<D>) -> Result<String, Fail> {
    match &room.held {
        Some(layout) => summary(alloc, layout),
        None => Err(Fail::from("there is no layout")),
    }
}

fn copied_into<D: Dir + Drop + Send, R: AllocGlobal + Threads + Wait + Sync>(
    rt: &R,
    room: &mut Room<D>,
    copying: &Copying,
) -> Result<String, Fail>
where
    D::Draft: Send,
{
    let (layout, told) = copied(rt, room.take_layout()?, copying)?;
    room.held = Some(layout);
    Ok(told)
}

fn with_held<D: Dir + Drop>(
    alloc: Global,
    room: &mut Room<D>,
    step: &LayoutStep<'_>,
) -> Result<String, Fail> {
    match &mut room.held {
        Some(layout) => with_layout(alloc, layout, step),
        None => Err(Fail::from("there is no layout")),
    }
}

fn in_room<D: Dir + Drop>(
    alloc: Global,
    room: &mut Room<D>,
    path: &str,
    step: &FileStep<'_>,
) -> Result<String, Fail> {
    let mut dir = room.take_dir()?;
    let told = in_dir(alloc, &mut dir, path, step);
    room.files = Some(dir);
    told
}

/// Takes a step. Returns its result.
fn taken<D: Dir + Drop + Send, R: AllocGlobal + Threads + Wait + Sync>(
    rt: &R,
    room: &mut Room<D>,
    step: &Step<'_>,
) -> Result<String, Fail>
where
    D::Draft: Send,
{
    match step {
        Step::Enter(way) => enter(rt.alloc(), room, way),
        Step::SaveAndOpen => opened_again(rt.alloc(), room),
        Step::Copy(copying) => copied_into(rt, room, copying),
        Step::With(step) => with_held(rt.alloc(), room, step),
        Step::In(path, step) => in_room(rt.alloc(), room, path, step),
    }
}

fn assert_row<D: Dir + Drop + Send, R: AllocGlobal + Threads + Wait + Sync + Abort>(
    rt: &R,
    room: &mut Room<D>,
    place: Place<'_>,
    row: &Row<'_>,
) -> Result<(), Fail>
where
    D::Draft: Send,
{
    let told = taken(rt, room, &row.0)?;
    assert_told(rt, &place, told.as_str(), row.1)
}

fn assert_each<D: Dir + Drop + Send, R: AllocGlobal + Threads + Wait + Sync + Abort>(
    rt: &R,
    room: &mut Room<D>,
    run: &str,
    rows: &[Row<'_>],
) -> Result<(), Fail>
where
    D::Draft: Send,
{
    for (number, row) in rows.iter().enumerate() {
        assert_row(rt, room, Place { run, row: number }, row)?;
    }
    Ok(())
}

/// Takes these steps with a directory. Asserts the result of each.
fn assert_rows<D: Dir + Drop + Send, R: AllocGlobal + Threads + Wait + Sync + Abort>(
    rt: &R,
    dir: D,
    run: &str,
    rows: &[Row<'_>],
) -> Result<(), Fail>
where
    D::Draft: Send,
{
    let mut room = Room {
        files: Some(dir),
        held: None,
    };
    assert_each(rt, &mut room, run, rows)
}

fn assert_in_folder<R: Host + Threads + Wait + Abort>(
    rt: &R,
    folder: &str,
    run: &str,
    rows: &[Row<'_>],
) -> Result<(), Fail> {
    let _ = fs::remove_dir_all(rt, folder);
    assert_rows(rt, FsDir::new(rt, folder)?, run, rows)?;
    Ok(fs::remove_dir_all(rt, folder)?)
}

fn assert_run<R: Host + Threads + Wait + Abort>(rt: &R, run: &Run<'_>) -> Result<(), Fail> {
    let Run(name, ground, rows) = run;
    match ground {
        Ground::Memory => assert_rows(rt, MemDir::new(rt.alloc()), name, rows),
        Ground::Fuse(puts) => assert_rows(rt, MemDir::with_fuse(rt.alloc(), *puts), name, rows),
        Ground::Folder(folder) => assert_in_folder(rt, folder, name, rows),
    }
}

/// Takes the steps of each run on its ground. Asserts the result of each.
pub(crate) fn assert_runs<R: Host + Threads + Wait + Abort>(
    rt: &R,
    runs: &[Run<'_>],
) -> Result<(), Fail> {
    for run in runs {
        assert_run(rt, run)?;
    }
    Ok(())
}
