//! How theta unions combine entries: these are hashes alone, so the retained one stays.
ghost use Rattle.std.specs.Prelude.{false};
ghost use Rattle.core_laws.specs.Entries.{first_hash};

use core_policies::UnionMergePolicy;
use core_slots::ThetaEntry;
use sketch_base::Error;

/// A union's policy that changes nothing.
#[derive(Debug, Clone, Copy)]
pub(crate) struct NoopUnionPolicy;

impl UnionMergePolicy<ThetaEntry> for NoopUnionPolicy {
    ghost merges = { λ _ entry incoming. first_hash entry incoming };

    ghost refuses = { λ _ _ _. false };

    fn merge(&self, _entry: &mut ThetaEntry, _incoming: &ThetaEntry) -> Result<(), Error> {
        Ok(())
    }

    ghost keeps_hash = { λ p x y same. same };
}
