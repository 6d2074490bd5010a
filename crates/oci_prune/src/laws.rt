ghost use Rattle.oci_prune.specs.Laws.{BelongingIsReached, KeptIsReached};

/// States that without referrers the kept keys are the held keys that the tags reach. Does nothing
/// when it runs.
pub fn kept_is_reached()
    ensures { KeptIsReached }
{}

/// States that what belongs to keys is what is held and reached from them and from the attached
/// members. So a copy of these brings it, and nothing else. Does nothing when it runs.
pub fn belonging_is_reached()
    ensures { BelongingIsReached }
{}
