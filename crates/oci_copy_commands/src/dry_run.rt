ghost use Rattle.std.specs.Prelude.{
  ◌≡◌,
  ◌⊎◌,
  ◌^◌,
  ◌-◌,
  [],
  true,
  length,
  min,
  Some,
  IfOk,
  OnOk,
};
ghost use Rattle.std.specs.Fmt.{DisplaysOnOk};
ghost use Rattle.std.specs.Io.KnownBytes.{Appends};
ghost use Rattle.oci_plan.specs.Plan.{keys_before};
ghost use Rattle.oci_layout_store.specs.Refusal.{IsOpenAsIsFault};
ghost use Rattle.oci_layout_copy.specs.Mirror.{is_exact, IsWholeSource};
ghost use Rattle.oci_copy_commands.specs.Printed.{
  keys_in,
  plan_counts,
  plan_text,
  sum_of_sizes,
  IsPlanAnswer,
  IsPlannedRemovedAnswer,
};
ghost use Rattle.oci_copy_commands.specs.Run.{
  IsAnsweredDryRun,
  IsPlannedBy,
  IsPlannedIn,
  IsPlannedWithout,
};
ghost use Rattle.oci_copy_commands.specs.declared.dry_run.PlanAnswer.{PlanAnswer as Answer};

use crate::answer::CleanUpAnswer;
use crate::copy::{check_index_if, check_source_if, goal_of, is_exact, options_of};
use oci_command_line::CopyWords;
use oci_digest::NoMemory;
use oci_dir::{Dir, MemDir, PrunableDir};
use oci_layout_copy::{PlannedCleanUp, plan_from, plan_mirror};
use oci_layout_store::{Layout, LayoutFault};
use oci_manifest::Key;
use oci_plan::Plan;
use oci_program::{Form, Outcome, ProgramFault, Sum, print_answer};
use oci_prune_fault::PruneFault;
use oci_selection::Selected;
use serde::Serialize;
use std::alloc::Global;
use std::fmt;
use std::fmt::Display;
use std::io::Write;

/// `copy --dry-run`: prints in this form the key of each blob that the copy would push, each after
/// the blobs that it lists. Then prints the number of these blobs, the number of their bytes, and
/// how many roots the destination already has. With `--prune` then prints what the copy would
/// remove, as the copy itself prints it.
///
/// Nothing is changed and nothing is locked. A destination without `oci-layout` counts as an empty
/// layout, and is not created. It is refused if it has another `index.json` than that of an empty
/// layout.
///
/// # Errors
///
/// Those of a copy before its first push, in the same order, but for those of a lock and of a
/// destination that cannot be created:
///
/// - 70 to 74 if one of the two is not a layout or cannot be read; 70 for the destination only if it
///   has another `index.json` than that of an empty layout.
/// - 73 `BadIndex` for an entry that is no descriptor: with `--all`, if SRC has one with a tag; with
///   `--referrers` or `--prune`, if SRC has any; with `--prune`, if DST has one that has no tag, or
///   one that matches no pattern, is not selected and does not go.
/// - 75 `Corrupt` and 77 `BadManifest` with `--referrers`, if any manifest of SRC is damaged.
///   77 `BadManifest` and 88 `Fetch` if one cannot be read after all.
/// - 35 `EmptyReference` and 36 `UnknownReference` for the reference; 75 `Corrupt` and 77
///   `BadManifest` if it is that of a damaged blob.
/// - 107 `NoPlatform` with `--platform`, if the reference names no index that lists a manifest for it;
///   96 `Unknown`, 75 `Corrupt` and 77 `BadManifest` if that manifest is missing or damaged; 21
///   `Corrupt` and 22 `Device` if the index cannot be read.
/// - 97 `NoTags` with `--all`, if SRC has no tag, and 96 `Unknown` if the blob of an entry of its
///   index that has a tag is missing or damaged. With `--match` only tags that match count, and 108
///   `NoMatch` is for a SRC whose tags do not.
/// - 96 `Unknown`, 98 `LinkedBlobs`, 109 `NoIndex`, 88 `Fetch` and 77 `BadManifest` with `--prune`, as of
///   [`run_copy`](crate::run_copy), and if DST could not be pruned after the copy.
/// - 75 `Corrupt`, 77 `BadManifest`, 80 `DestinationOpen` and 81 `Plan` if there is no plan.
/// - 94 `Output` if `out` cannot be written.
/// - Out of memory, at any point.
pub(crate) fn show_plan<S: Dir + Drop, D: PrunableDir + Drop, W: Write>(
    alloc: Global,
    source: S,
    destination: D,
    words: &CopyWords<'_>,
    form: Form,
    out: &mut W,
) -> Result<Outcome, ProgramFault>
    ensures { OnOk result ((answer : Answer) × IsAnsweredDryRun S.device D.device
        ⟦<MemDir as Dir>⟧.device words.now source destination answer × (form ≡ Form.Lines
        → Appends (W.contents out.old) (W.contents out.new) (plan_text answer))) }
{
    let source = Layout::open_as_is(alloc, source)?;
    let selected = Selected::of(alloc, &source, words)?;
    check_source_if(words.prunes, is_exact(words), &source)?;
    check_index_if(words.prunes, &destination)?;
    let (plan, clean_up) = plan_into_folder(alloc, &source, destination, &selected, words)?;
    let answer = PlanAnswer::of(alloc, &plan, clean_up)?;
    print_answer(alloc, &answer, form, out)
}

/// Plans a copy from an open layout into a directory, and what it would remove there, if it prunes.
fn plan_into_folder<S: Dir, D: PrunableDir + Drop>(
    alloc: Global,
    source: &Layout<S>,
    destination: D,
    selected: &Selected,
    words: &CopyWords<'_>,
) -> Result<(Plan, Option<PlannedCleanUp>), ProgramFault>
    requires whole { words.now.prunes ≡ true → IsWholeSource (is_exact words.now) source.now }
    ensures { IfOk result (λ planned. IsPlannedIn S.device D.device words.now source.now
        selected.now destination planned ⊎ IsPlannedWithout S.device D.device
        ⟦<MemDir as Dir>⟧.device words.now source.now selected.now destination planned) }
{
    match Layout::open_as_is(alloc, destination) {
        Ok(destination) => plan_into(alloc, source, destination, selected, words),
        Err((dir, LayoutFault::NoLayoutFile)) => {
            plan_without(alloc, source, dir, selected, words)
        }
        Err((_dir, fault)) => Err(ProgramFault::Destination(fault)),
    }
}

/// Plans a copy into a directory that has no layout, as into an empty one.
fn plan_without<S: Dir, D: PrunableDir + Drop>(
    alloc: Global,
    source: &Layout<S>,
    destination: D,
    selected: &Selected,
    words: &CopyWords<'_>,
) -> Result<(Plan, Option<PlannedCleanUp>), ProgramFault>
    requires whole { words.now.prunes ≡ true → IsWholeSource (is_exact words.now) source.now }
    requires absent { IsOpenAsIsFault (D.device destination) LayoutFault.NoLayoutFile }
    ensures { IfOk result (IsPlannedWithout S.device D.device ⟦<MemDir as Dir>⟧.device words.now
        source.now selected.now destination) }
{
    check_is_free(&destination, words.prunes)?;
    let empty = empty_layout(alloc)?;
    plan_into(alloc, source, empty, selected, words)
}

/// Refuses a directory in which no layout could be created, or if the copy prunes, one with a link to
/// a folder of blobs.
fn check_is_free<D: PrunableDir>(dir: &D, prunes: bool) -> Result<(), ProgramFault> {
    Layout::check_is_free(dir).map_err(ProgramFault::Destination)?;
    if !prunes {
        return Ok(());
    }
    match dir.linked() {
        Ok(Some(folder)) => Err(ProgramFault::Prune(PruneFault::LinkedBlobs(folder))),
        Ok(None) => Ok(()),
        Err(fault) => Err(ProgramFault::Destination(LayoutFault::from(fault))),
    }
}

/// Creates an empty layout in memory, which counts for a destination that is not a layout yet.
pub(crate) fn empty_layout(alloc: Global) -> Result<Layout<MemDir>, ProgramFault>
    ensures graph { IfOk result (λ layout. layout.graph ≡ []) }
    ensures tags { IfOk result (λ layout. layout.tags ≡ []) }
{
    match Layout::create(alloc, MemDir::new(alloc)) {
        Ok(layout) => Ok(layout),
        Err((_dir, fault)) => Err(ProgramFault::Destination(fault)),
    }
}

/// Plans a copy from an open layout into another one, and what it would remove there, if it prunes.
fn plan_into<S: Dir, D: PrunableDir + Drop>(
    alloc: Global,
    source: &Layout<S>,
    mut destination: Layout<D>,
    selected: &Selected,
    words: &CopyWords<'_>,
) -> Result<(Plan, Option<PlannedCleanUp>), ProgramFault>
    requires whole { words.now.prunes ≡ true → IsWholeSource (is_exact words.now) source.now }
    ensures { IfOk result (IsPlannedBy S.device D.device words.now source.now selected.now
        destination) }
{
    let options = options_of(words);
    let goal = goal_of(alloc, &mut destination, selected, words)?;
    match &goal {
        Some(goal) => {
            let exact = is_exact(words);
            let (plan, clean_up) = plan_mirror(
                alloc,
                source,
                &destination,
                selected,
                goal,
                exact,
                &options,
            )?;
            Ok((plan, Some(clean_up)))
        }
        None => {
            let plan = plan_from(alloc, source, &destination, selected.roots(), &options)?;
            Ok((plan, None))
        }
    }
}

/// What a copy would push, and with `--prune` what it would remove.
///
/// It prints the keys on a line each, and then a line with the counts. With `--prune` it then prints
/// what would be removed.
#[derive(Drop, Serialize)]
struct PlanAnswer<'p> {
    /// The keys, in the order of the plan.
    blobs: Vec<&'p Key>,
    /// The number of the keys.
    planned: usize,
    /// The sum of their sizes.
    bytes: Sum,
    /// The number of roots that the destination already has.
    skipped: usize,
    /// What would be removed, with `--prune`.
    #[serde(skip_serializing_if = "Option::is_none")]
    prune: Option<CleanUpAnswer>,
}

impl<'p> PlanAnswer<'p> {
    /// Returns what a plan would push, and what would be removed.
    ///
    /// # Errors
    ///
    /// Returns [`NoMemory`] if an allocation fails.
    fn of(
        alloc: Global,
        plan: &'p Plan,
        clean_up: Option<PlannedCleanUp>,
    ) -> Result<PlanAnswer<'p>, NoMemory>
        ensures { IfOk result (IsPlanAnswer plan.now clean_up) }
    {
        let blobs = keys_in_order(alloc, plan)?;
        let bytes = sum_of_sizes(&blobs);
        Ok(PlanAnswer {
            blobs,
            planned: plan.len(),
            bytes,
            skipped: plan.skipped().len(),
            prune: answer_of(alloc, clean_up)?,
        })
    }

    /// Prints the line of the counts.
    fn fmt_counts<W: fmt::Write>(&self, f: &mut fmt::Formatter<W>) -> fmt::Result
        ensures { DisplaysOnOk W.write_str_gives f.old result (Some (plan_counts self.now)) f.new }
    {
        let (planned, bytes, skipped) = (self.planned, self.bytes, self.skipped);
        writeln!(f, "planned {planned} bytes {bytes} skipped {skipped}")
    }
}

/// Returns the keys of a plan in its order.
fn keys_in_order(alloc: Global, plan: &Plan) -> Result<Vec<&Key>, NoMemory>
    ensures { IfOk result (λ keys. keys_in keys.items
        ≡ keys_before (length plan.now.keys) plan.now) }
{
    let mut keys: Vec<&Key> = Vec::new(alloc);
    for place in 0..plan.len() {
        let Some(key) = plan.key_in_order(place) else {
            unreachable!()
        };
        keys.push(key)?;
    }
    Ok(keys)
}

/// Returns the sum of the sizes of keys, or the greatest number if the sum is greater.
fn sum_of_sizes(keys: &[&Key]) -> Sum
    ensures { result.0 ≡ min (sum_of_sizes keys.now) (2 ^ 128 - 1) }
{
    let mut bytes = 0u128;
    for key in keys {
        bytes = bytes.saturating_add(u128::from(key.size()));
    }
    Sum(bytes)
}

/// Returns the answer of what would be removed.
fn answer_of(
    alloc: Global,
    clean_up: Option<PlannedCleanUp>,
) -> Result<Option<CleanUpAnswer>, NoMemory>
    ensures { IfOk result (IsPlannedRemovedAnswer clean_up) }
{
    match clean_up {
        Some(clean_up) => Ok(Some(CleanUpAnswer::planned(alloc, clean_up)?)),
        None => Ok(None),
    }
}

impl<'p> Display for PlanAnswer<'p> {
    ghost use Rattle.std.specs.Prelude.{Some};
    ghost use Rattle.oci_copy_commands.specs.Printed.{plan_text};

    ghost output = { λ a. Some (plan_text a) };

    fn fmt<W: fmt::Write>(&self, f: &mut fmt::Formatter<W>) -> fmt::Result {
        for key in &self.blobs {
            writeln!(f, "{key}")?;
        }
        self.fmt_counts(f)?;
        match &self.prune {
            Some(prune) => write!(f, "{prune}"),
            None => Ok(()),
        }
    }
}
