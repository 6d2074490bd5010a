ghost use Rattle.std.specs.Prelude.{◌≡◌, IfOk};
ghost use Rattle.oci_store.specs.Tags.{by_bytes};
ghost use Rattle.oci_prune_commands.specs.PruneText.{tags_of};

use oci_digest::NoMemory;
use oci_manifest::Key;
use oci_program::Tagged;
use oci_prune_answer::PruneAnswer;
use serde::Serialize;
use std::alloc::Global;
use std::fmt;
use std::fmt::Display;

/// What `prune` removed, or would remove.
///
/// It prints a line `untagged` for each tag that went, with the key that the tag named, and then what
/// else was removed.
#[derive(Drop, Serialize)]
pub struct FullAnswer {
    /// The tags that went, in byte order.
    #[serde(skip_serializing_if = "Vec::is_empty")]
    untagged: Vec<Tagged>,
    #[serde(flatten)]
    pruned: PruneAnswer,
}

impl FullAnswer {
    /// Returns the answer of a prune that also removed these tags.
    ///
    /// # Errors
    ///
    /// Returns [`NoMemory`] if an allocation fails.
    pub(crate) fn of(
        alloc: Global,
        tags: Vec<(String, Key)>,
        pruned: PruneAnswer,
    ) -> Result<FullAnswer, NoMemory>
        ensures tags { IfOk result (λ answer. tags_of answer.untagged.items ≡ by_bytes tags.items) }
        ensures pruned { IfOk result (λ answer. answer.pruned ≡ pruned) }
    {
        Ok(FullAnswer {
            untagged: tagged(alloc, tags)?,
            pruned,
        })
    }
}

impl Display for FullAnswer {
    ghost use Rattle.std.specs.Prelude.{Some};
    ghost use Rattle.oci_prune_commands.specs.PruneText.{full_text};

    ghost output = { λ a. Some (full_text a) };

    fn fmt<W: fmt::Write>(&self, f: &mut fmt::Formatter<W>) -> fmt::Result {
        for Tagged { tag, descriptor } in &self.untagged {
            writeln!(f, "untagged {tag} {descriptor}")?;
        }
        write!(f, "{}", self.pruned)
    }
}

/// These tags, each with the key that it names.
fn tagged(alloc: Global, tags: Vec<(String, Key)>) -> Result<Vec<Tagged>, NoMemory>
    ensures { IfOk result (λ tagged. tags_of tagged.items ≡ by_bytes tags.items) }
{
    let mut tagged = Vec::new(alloc);
    for (tag, descriptor) in tags {
        tagged.push(Tagged { tag, descriptor })?;
    }
    Ok(tagged)
}
