ghost use Rattle.std.specs.Prelude.{◌≡◌, IfOk};
ghost use Rattle.oci_store.specs.Tags.{by_bytes};
ghost use Rattle.oci_copy_commands.specs.Printed.{
  fault_in,
  tags_of,
  IsCleanUpAnswer,
  IsCopyAnswer,
  IsPlannedCleanUpAnswer,
  IsRemovedAnswer,
};

use crate::behind::LeftBehind;
use oci_copy::Report;
use oci_digest::NoMemory;
use oci_layout_copy::{CleanUp, Copied, PlannedCleanUp};
use oci_manifest::Key;
use oci_program::Tagged;
use oci_prune_answer::PruneAnswer;
use oci_prune_fault::PruneFault;
use oci_selection::Selected;
use serde::Serialize;
use std::alloc::Global;
use std::fmt;
use std::fmt::Display;

/// What a copy did.
///
/// It prints a line `copied` with the key of each tag, and the line of the report. With `--prune` it
/// then prints what was removed.
#[derive(Drop, Serialize)]
pub(crate) struct CopyAnswer {
    /// The tags that the copy set, in the order in which it set them.
    copied: Vec<Tagged>,
    #[serde(flatten)]
    report: Report,
    /// What was removed, with `--prune`.
    #[serde(flatten)]
    removed: Option<CleanUpAnswer>,
    /// What was left behind. It has no line here: its lines are for stderr.
    #[serde(flatten)]
    pub(crate) behind: LeftBehind,
}

impl CopyAnswer {
    /// Returns what a copy of the selected tags did and left behind, and the fault of its prune, if it
    /// has one.
    ///
    /// # Errors
    ///
    /// Returns [`NoMemory`] if an allocation fails.
    pub(crate) fn of(
        alloc: Global,
        selected: Selected,
        done: Copied,
        behind: LeftBehind,
    ) -> Result<(CopyAnswer, Option<PruneFault>), NoMemory>
        ensures answer { IfOk result (λ it. IsCopyAnswer selected done behind it.0) }
        ensures fault { IfOk result (λ it. it.1 ≡ fault_in done.removed) }
    {
        let Copied { report, removed } = done;
        let copied = tagged(alloc, selected.into_tags())?;
        let (removed, fault) = removed_answer(alloc, removed)?;
        let answer = CopyAnswer {
            copied,
            report,
            removed,
            behind,
        };
        Ok((answer, fault))
    }
}

/// Returns the answer for what was removed, and the fault of the prune, if it has one.
fn removed_answer(
    alloc: Global,
    removed: Option<CleanUp>,
) -> Result<(Option<CleanUpAnswer>, Option<PruneFault>), NoMemory>
    ensures answer { IfOk result (λ it. IsRemovedAnswer removed it.0) }
    ensures fault { IfOk result (λ it. it.1 ≡ fault_in removed) }
{
    match removed {
        Some(removed) => {
            let (answer, fault) = CleanUpAnswer::of(alloc, removed)?;
            Ok((Some(answer), fault))
        }
        None => Ok((None, None)),
    }
}

impl Display for CopyAnswer {
    ghost use Rattle.std.specs.Prelude.{Some};
    ghost use Rattle.oci_copy_commands.specs.Printed.{copy_text};

    ghost output = { λ a. Some (copy_text a) };

    fn fmt<W: fmt::Write>(&self, f: &mut fmt::Formatter<W>) -> fmt::Result {
        for tagged in &self.copied {
            writeln!(f, "copied {}", tagged.descriptor)?;
        }
        writeln!(f, "{}", self.report)?;
        match &self.removed {
            Some(removed) => write!(f, "{removed}"),
            None => Ok(()),
        }
    }
}

/// What `copy --all --prune` removed from the destination, or would remove.
///
/// It prints a line `untagged` for each removed tag, with the key that the tag named, and then what
/// the prune removed.
#[derive(Drop, Serialize)]
pub(crate) struct CleanUpAnswer {
    /// The removed tags, in byte order.
    untagged: Vec<Tagged>,
    #[serde(flatten)]
    pruned: PruneAnswer,
}

impl CleanUpAnswer {
    /// Returns what was removed, and the fault of the prune, if it has one.
    ///
    /// # Errors
    ///
    /// Returns [`NoMemory`] if an allocation fails.
    fn of(alloc: Global, removed: CleanUp) -> Result<(CleanUpAnswer, Option<PruneFault>), NoMemory>
        ensures answer { IfOk result (λ it. IsCleanUpAnswer removed it.0) }
        ensures fault { IfOk result (λ it. it.1 ≡ removed.pruned.fault) }
    {
        let CleanUp {
            untagged,
            plan,
            pruned,
        } = removed;
        let answer = CleanUpAnswer {
            untagged: tagged(alloc, untagged)?,
            pruned: PruneAnswer::of(alloc, plan, &pruned, None)?,
        };
        Ok((answer, pruned.fault))
    }

    /// Returns what would be removed.
    ///
    /// # Errors
    ///
    /// Returns [`NoMemory`] if an allocation fails.
    pub(crate) fn planned(alloc: Global, planned: PlannedCleanUp) -> Result<CleanUpAnswer, NoMemory>
        ensures { IfOk result (IsPlannedCleanUpAnswer planned) }
    {
        let PlannedCleanUp { untagged, plan } = planned;
        Ok(CleanUpAnswer {
            untagged: tagged(alloc, untagged)?,
            pruned: PruneAnswer::planned(alloc, plan, None)?,
        })
    }
}

impl Display for CleanUpAnswer {
    ghost use Rattle.std.specs.Prelude.{Some};
    ghost use Rattle.oci_copy_commands.specs.Printed.{clean_up_text};

    ghost output = { λ a. Some (clean_up_text a) };

    fn fmt<W: fmt::Write>(&self, f: &mut fmt::Formatter<W>) -> fmt::Result {
        for Tagged { tag, descriptor } in &self.untagged {
            writeln!(f, "untagged {tag} {descriptor}")?;
        }
        write!(f, "{}", self.pruned)
    }
}

/// These tags, each with the key that it names.
fn tagged(alloc: Global, tags: Vec<(String, Key)>) -> Result<Vec<Tagged>, NoMemory>
    ensures { IfOk result (λ tagged. tags_of tagged.items ≡ by_bytes tags.items) }
{
    let mut tagged = Vec::new(alloc);
    for (tag, descriptor) in tags {
        tagged.push(Tagged { tag, descriptor })?;
    }
    Ok(tagged)
}
