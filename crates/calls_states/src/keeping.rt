//! How unions and intersections of hashes combine entries.
ghost use Rattle.std.specs.Prelude.{false};

use sketch_base::Error;
use theta_core::{IntersectionMergePolicy, ThetaEntry, UnionMergePolicy};

/// Leaves the retained entry as it is.
#[derive(Clone, Copy)]
pub struct Keeping;

impl UnionMergePolicy<ThetaEntry> for Keeping {
    ghost merges = { λ policy entry incoming. entry };

    ghost refuses = { λ policy entry incoming. false };

    fn merge(&self, _entry: &mut ThetaEntry, _incoming: &ThetaEntry) -> Result<(), Error> {
        Ok(())
    }

    ghost keeps_hash = { λ policy entry incoming same. same };
}

impl IntersectionMergePolicy<ThetaEntry> for Keeping {
    ghost merges = { λ policy entry incoming. entry };

    ghost refuses = { λ policy entry incoming. false };

    fn merge(&self, _entry: &mut ThetaEntry, _incoming: &ThetaEntry) -> Result<(), Error> {
        Ok(())
    }

    ghost keeps_hash = { λ policy entry incoming same. same };
}
