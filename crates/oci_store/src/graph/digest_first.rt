use oci_manifest::Key;
use std::cmp::Ordering;
use std::marker::Model;

/// A key, ordered by digest first; keys with the same digest are in key order.
#[derive(Debug, Drop)]
pub(crate) struct DigestFirst {
    key: Key,
}

impl Model for DigestFirst {
    ghost use Rattle.oci_manifest.specs.Descriptor.{Descriptor};

    ghost Value = { Descriptor };

    ghost view = { λ k. k.key };
}

impl DigestFirst {
    ghost use Rattle.std.specs.Prelude.{◌≡◌};

    pub(crate) fn new(key: Key) -> DigestFirst
        ensures { result ≡ key }
    {
        DigestFirst { key }
    }

    pub(crate) fn key(&self) -> &Key
        ensures { result.now ≡ self.now }
    {
        &self.key
    }
}

impl PartialEq for DigestFirst {
    ghost use Rattle.std.proofs.Common.{rules};
    ghost use Rattle.std.specs.Cmp.Rules.{comparing};
    ghost use Rattle.oci_store.specs.ByDigest.{same_by_digest};

    ghost eq = { same_by_digest };

    ghost laws = { Prim.search (comparing, rules) };

    fn eq(&self, other: &DigestFirst) -> bool {
        *self.key.digest() == *other.key.digest()
            && self.key.media_type() == other.key.media_type()
            && self.key.size() == other.key.size()
    }
}

impl Eq for DigestFirst {
    ghost use Rattle.std.proofs.Common.{rules};
    ghost use Rattle.std.specs.Cmp.Rules.{comparing};

    ghost laws = { Prim.search (comparing, rules) };
}

impl Ord for DigestFirst {
    ghost use Rattle.std.proofs.Common.{rules};
    ghost use Rattle.std.specs.Cmp.Rules.{comparing};
    ghost use Rattle.oci_store.specs.ByDigest.{digest_cmp};

    ghost cmp = { digest_cmp };

    ghost total = { Prim.search (comparing, rules) };

    ghost matches_partial_cmp = { Prim.search (comparing, rules) };

    ghost matches_eq = { Prim.search (comparing, rules) };

    fn cmp(&self, other: &DigestFirst) -> Ordering {
        self.key
            .digest()
            .cmp(other.key.digest())
            .then(self.key.media_type().cmp(other.key.media_type()))
            .then(self.key.size().cmp(&other.key.size()))
    }
}

impl PartialOrd for DigestFirst {
    ghost use Rattle.std.proofs.Common.{rules};
    ghost use Rattle.std.specs.Cmp.{partial_order_from_own_ties};
    ghost use Rattle.std.specs.Cmp.Rules.{comparing};
    ghost use Rattle.std.specs.Ordering.{as_partial_cmp};
    ghost use Rattle.oci_store.specs.ByDigest.{digest_cmp};

    ghost partial_cmp = { as_partial_cmp digest_cmp };

    ghost laws = { partial_order_from_own_ties (Prim.search (comparing, rules))
        (Prim.search (comparing, rules)) };

    fn partial_cmp(&self, other: &DigestFirst) -> Option<Ordering> {
        Some(self.cmp(other))
    }
}
