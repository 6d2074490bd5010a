ghost use Rattle.std.specs.Prelude.{◌≡◌};
ghost use Rattle.oci_copy.specs.Options.{limit_of, descending};

use oci_plan::Existing;

/// The options of a copy. A number that is 0 means its default.
#[derive(Clone, Copy, Debug, PartialEq, Eq, Default)]
pub struct Options {
    /// The number of workers, at most 64; 0 means 3. The calls on the calling thread, such as
    /// [`copy_one`](crate::copy_one), do not look at it; for the others a larger number is an
    /// error.
    pub workers: u32,
    /// The maximum size of a manifest, in bytes; 0 means 4194304, which is 4 MiB.
    pub max_metadata_bytes: u64,
    /// How a copy treats a key that the destination has. With [`Existing::Descend`] it also looks
    /// below the key, and the destination need not be closed.
    pub existing: Existing,
}

impl Options {
    /// Returns the maximum size of a manifest, in bytes.
    pub fn metadata_limit(&self) -> u64
        ensures { result ≡ limit_of self.now }
    {
        match self.max_metadata_bytes {
            0 => 4_194_304,
            limit => limit,
        }
    }
}

/// Returns these options with [`Existing::Descend`].
pub(crate) fn descending(options: &Options) -> Options
    ensures { result ≡ descending options.now }
{
    Options {
        existing: Existing::Descend,
        ..*options
    }
}
