//! Live stores of samples, and checks of their contents and of looks at them.
ghost use Rattle.std.specs.Prelude.{◌≡◌, IfOk};

use oci_copy::{CopyFault, Options, Report};
use oci_live::{LiveStore, Look};
use std::alloc::Global;
use std::sync::Wait;
use std::test::Fail;
use test_support::{Sample, closed, gives_sample};

/// Returns a live store that was opened on these samples, in this order.
pub(crate) fn live<R: Wait + Drop>(
    alloc: Global,
    rt: R,
    samples: &[Sample],
) -> Result<LiveStore<R>, Fail> {
    match LiveStore::open(rt, alloc, closed(alloc, samples)?) {
        Ok(live) => Ok(live),
        Err((_, fault)) => Err(Fail::from(fault)),
    }
}

/// Like `live`, with a look at the store.
pub(crate) fn looked_at<R: Wait + Drop>(
    alloc: Global,
    rt: R,
    samples: &[Sample],
) -> Result<(LiveStore<R>, Look), Fail>
    ensures { IfOk result (λ both. both.1.name ≡ both.0.name) }
{
    let mut live = live(alloc, rt, samples)?;
    let look = live.look()?;
    Ok((live, look))
}

/// Returns the options for this number of workers.
pub(crate) fn by(workers: u32) -> Options {
    Options {
        workers,
        ..Options::default()
    }
}

/// Returns how many contents a copy planned, pushed and skipped, or `None` if it failed.
pub(crate) fn numbers(copied: Result<Report, CopyFault>) -> Option<[u64; 3]> {
    let report = copied.ok()?;
    Some([report.planned, report.pushed, report.skipped])
}

/// Returns whether a live store has exactly these samples, by a copy of its contents.
pub(crate) fn has<R: Wait + Drop>(
    alloc: Global,
    live: &LiveStore<R>,
    samples: &[Sample],
) -> Result<bool, Fail> {
    let out = live.copy_out()?;
    for sample in samples {
        if !gives_sample(alloc, &out, *sample)? {
            return Ok(false);
        }
    }
    Ok(out.memory().len() == samples.len())
}

/// Returns whether a look returns a sample's bytes.
pub(crate) fn shows(alloc: Global, look: &mut Look, sample: Sample) -> Result<bool, Fail> {
    Ok(look.fetch(&sample.key(alloc)?)? == sample.bytes(alloc)?)
}

/// Returns whether a look returns a sample as the entry at a place.
pub(crate) fn shows_at(
    alloc: Global,
    look: &mut Look,
    place: usize,
    sample: Sample,
) -> Result<bool, Fail> {
    let Some((key, bytes)) = look.entry(place)? else {
        return Ok(false);
    };
    Ok(key == sample.key(alloc)? && bytes == sample.bytes(alloc)?)
}

/// Returns whether a look reports this number of entries.
pub(crate) fn counts(look: &mut Look, count: usize) -> bool
    ensures { look.new.name ≡ look.old.name }
{
    look.len() == Ok(count)
}
