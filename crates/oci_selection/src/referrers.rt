ghost use Rattle.std.specs.Prelude.{◌≡◌};
ghost use Rattle.oci_selection.specs.Selected.{asks_platform, climbs, AreReferrersOf};

use oci_command_line::{CopyWords, Selection};

/// What a copy brings beside the blobs that it starts from, and what these reach.
#[derive(Clone, Copy)]
pub enum Referrers<'w> {
    /// Nothing.
    LeftOut,
    /// The keys that lead to them, at most this number of levels up (0 means no limit), and what is
    /// attached to what belongs to all these.
    Climbed(u32),
    /// What is attached to what belongs to them. Nothing is climbed.
    Attached,
    /// What is attached to what belongs to them, if of what is attached to what they reach only
    /// referrers of these types are wanted. Nothing is climbed, and no tag attaches a key.
    OfTypes(&'w [&'w str]),
}

/// Returns what the words of a copy bring beside the blobs that it starts from.
pub(crate) fn referrers_of<'w>(words: &'w CopyWords<'w>) -> Referrers<'w>
    ensures { AreReferrersOf words.now result }
{
    let Some(depth) = words.referrers else {
        return Referrers::LeftOut;
    };
    if !words.types.is_empty() {
        return Referrers::OfTypes(&words.types);
    }
    if climbs(words) {
        Referrers::Climbed(depth)
    } else {
        Referrers::Attached
    }
}

/// Returns whether a copy climbs. One that prunes, or asks for a platform, does not.
fn climbs(words: &CopyWords<'_>) -> bool
    ensures { result ≡ climbs words.now }
{
    !(words.prunes || asks_platform(&words.selection))
}

/// Returns whether a copy is of a manifest for a platform.
fn asks_platform(selection: &Selection<'_>) -> bool
    ensures { result ≡ asks_platform selection.now }
{
    match selection {
        Selection::Reference { platform, .. } => platform.is_some(),
        Selection::AllTags { .. } => false,
    }
}
