//! Differences of theta sketches.
ghost use Rattle.std.specs.Prelude.{◌≡◌, ◌||◌, ℕ, List, true, false, IfOk};
ghost use Rattle.sketch_base.specs.Seed.{seed_hash};
ghost use Rattle.core_operators.specs.ANotB.{difference_refusal, IsHashDifference};
ghost use Rattle.core_operators.specs.Intersection.{seed_refusal};
ghost use Rattle.core_laws.specs.Refusal.{Refuses};
ghost use Rattle.theta_sketches.specs.View.{view_shows, view_sequence};
ghost use Rattle.theta_sketches.specs.Streams.{lacking_hashes, set_below, value_of, view_value, IsSampleOf};

use crate::compact_sketch::CompactThetaSketch;
use crate::view::ThetaSketchView;
use core_operators::a_not_b;
use sketch_base::{DEFAULT_UPDATE_SEED, Error, ErrorKind, compute_seed_hash};
use std::alloc::Allocator;
use std::marker::Model;

/// The difference operator for theta sketches of one seed: it returns the hashes of one sketch that another lacks.
/// Contracts see the seed's hash. The crate's documentation has an example.
#[derive(Debug, Clone, Copy)]
pub struct ThetaANotB {
    seed_hash: u16,
}

impl Model for ThetaANotB {
    ghost use Rattle.std.specs.Prelude.{ℕ};

    ghost Value = { ℕ };

    ghost view = { λ d. d.seed_hash };

    ghost inverse = { λ h. record { seed_hash = h } };
}

impl ThetaANotB {
    /// An operator for sketches of the default seed, 9001. It allocates nothing.
    ///
    /// Never refused: the seed hash of 9001 isn't 0.
    pub fn default() -> Result<Self, Error>
        ensures ok { IfOk result (λ d. d ≡ seed_hash DEFAULT_UPDATE_SEED) }
        ensures refused { Refuses result (seed_refusal DEFAULT_UPDATE_SEED) false }
    {
        ThetaANotB::with_seed(DEFAULT_UPDATE_SEED)
    }

    /// An operator for sketches of this seed. It allocates nothing.
    ///
    /// Refused with `InvalidArgument` for a seed whose seed hash is 0.
    pub fn with_seed(seed: u64) -> Result<Self, Error>
        ensures ok { IfOk result (λ d. d ≡ seed_hash seed) }
        ensures refused { Refuses result (seed_refusal seed) false }
    {
        let seed_hash = compute_seed_hash(seed, ErrorKind::InvalidArgument)?;
        Ok(ThetaANotB { seed_hash })
    }

    /// The hash of the seed of its sketches, of 16 bits. It isn't 0 if `default` or `with_seed` returned the
    /// operator.
    pub fn seed_hash(&self) -> u16
        ensures { result ≡ self.now }
    {
        self.seed_hash
    }

    /// Returns the hashes of `a` that `b` lacks, below the lesser theta, in memory of `alloc` or a clone of it.
    ///
    /// If `a` is empty, the result is an empty sketch with the seed hash of `a`, and no seed is checked. If `b` is
    /// empty, the result has the value of `a`, and the seed of `b` is not checked. If neither is empty, no hash is
    /// left and the lesser theta is `MAX_THETA`, the result is empty. The result is ordered if `ordered` is true or
    /// `a` is ordered, if it is empty, or if it has one hash at the greatest theta.
    ///
    /// Refused with `InvalidArgument` if `a` isn't empty and it, or a `b` that isn't empty, is of another seed, and
    /// with `OutOfMemory`. The inputs don't change.
    pub fn compute<A: Allocator + Clone, B: Allocator, C: Allocator>(
        &self,
        alloc: A,
        a: ThetaSketchView<'_, B>,
        b: ThetaSketchView<'_, C>,
        ordered: bool,
    ) -> Result<CompactThetaSketch<A>, Error>
        ensures ok { IfOk result (
            IsHashDifference (view_shows a.entry) (view_sequence a.entry) (view_shows b.entry) (view_sequence b.entry) ordered) }
        ensures sample { IfOk result (λ s. (hashes others : List ℕ) → IsSampleOf (view_value a.entry) hashes →
            IsSampleOf (view_value b.entry) others → IsSampleOf (value_of s) (lacking_hashes hashes others)) }
        ensures below { IfOk result (λ s. (hashes others : List ℕ) → IsSampleOf (view_value a.entry) hashes →
            IsSampleOf (view_value b.entry) others → ordered ≡ true → s.entries ≡ set_below s.theta (lacking_hashes hashes others)) }
        ensures refused { Refuses result (difference_refusal self.now (view_shows a.entry) (view_shows b.entry)) true }
    {
        let state = a_not_b::compute_with_entries(alloc, self.seed_hash, a, b, ordered)?;
        Ok(CompactThetaSketch::of_state(state))
    }
}
