//! Differences of tuple sketches.
ghost use Rattle.std.specs.Prelude.{◌≡◌, map, true, false, IfOk};
ghost use Rattle.sketch_base.specs.Seed.{seed_hash};
ghost use Rattle.sketch_base.specs.declared.seed.TheConstants.{DEFAULT_UPDATE_SEED};
ghost use Rattle.core_slots.specs.Entry.{tuple_key};
ghost use Rattle.core_laws.specs.Entries.{ClonesEqual};
ghost use Rattle.core_laws.specs.Refusal.{Refuses};
ghost use Rattle.core_operators.specs.ANotB.{difference_refusal, IsDifference};
ghost use Rattle.core_operators.specs.Intersection.{seed_refusal};
ghost use Rattle.core_state.specs.View.{shows, sequence};
ghost use Rattle.core_laws.specs.Folds.{Value};
ghost use Rattle.core_laws.specs.Maps.{below};
ghost use Rattle.tuple_sketches.specs.Streams.{Given, without, fold_key, value_of, view_value, IsSampleOf};

use crate::compact_sketch::CompactTupleSketch;
use crate::operands::difference_of;
use crate::view::TupleSketchView;
use sketch_base::{DEFAULT_UPDATE_SEED, Error, ErrorKind, compute_seed_hash};
use std::alloc::Allocator;
use std::marker::Model;

/// The difference operator for tuple sketches of one seed: it returns the entries of one sketch whose keys another
/// lacks. Contracts see the seed's hash.
///
/// ```
/// let difference = TupleANotB::default()?;
/// let only_on_monday = difference.compute(alloc, monday.as_view(), tuesday.as_view(), true)?;
/// ```
#[derive(Debug, Clone, Copy)]
pub struct TupleANotB {
    seed_hash: u16,
}

impl Model for TupleANotB {
    ghost use Rattle.std.specs.Prelude.{ℕ};

    ghost Value = { ℕ };

    ghost view = { λ d. d.seed_hash };

    ghost inverse = { λ h. record { seed_hash = h } };
}

impl TupleANotB {
    /// An operator for sketches of the default seed, 9001. It allocates nothing.
    ///
    /// Never refused: the seed hash of 9001 isn't 0.
    pub fn default() -> Result<Self, Error>
        ensures ok { IfOk result (λ d. d ≡ seed_hash DEFAULT_UPDATE_SEED) }
        ensures refused { Refuses result (seed_refusal DEFAULT_UPDATE_SEED) false }
    {
        TupleANotB::with_seed(DEFAULT_UPDATE_SEED)
    }

    /// An operator for sketches of this seed. It allocates nothing.
    ///
    /// Refused with `InvalidArgument` for a seed whose seed hash is 0.
    pub fn with_seed(seed: u64) -> Result<Self, Error>
        ensures ok { IfOk result (λ d. d ≡ seed_hash seed) }
        ensures refused { Refuses result (seed_refusal seed) false }
    {
        let seed_hash = compute_seed_hash(seed, ErrorKind::InvalidArgument)?;
        Ok(TupleANotB { seed_hash })
    }

    /// The hash of the seed of its sketches, of 16 bits. It isn't 0 if `default` or `with_seed` returned the
    /// operator.
    pub fn seed_hash(&self) -> u16
        ensures { result ≡ self.now }
    {
        self.seed_hash
    }

    /// Returns the entries of `a` whose keys `b` lacks, with their summaries, below the lesser theta, in memory of
    /// `alloc` or a clone of it. The summaries of `b` may have any type, and are not read.
    ///
    /// If `a` is empty, the result is an empty sketch with the seed hash of `a`, and no seed is checked. If `b` is
    /// empty, the result has the value of `a`, and the seed of `b` is not checked. If neither is empty, no entry is
    /// left and the lesser theta is `MAX_THETA`, the result is empty. The result is ordered if `ordered` is true or
    /// `a` is ordered, if it is empty, or if it has one entry at the greatest theta.
    ///
    /// Refused with `InvalidArgument` if `a` isn't empty and it, or a `b` that isn't empty, is of another seed, and
    /// with `OutOfMemory`. The inputs don't change. Clones of summaries must equal their originals.
    pub fn compute<S: Clone, T: Drop, A: Allocator + Clone, B: Allocator, C: Allocator>(
        &self,
        alloc: A,
        a: TupleSketchView<'_, S, B>,
        b: TupleSketchView<'_, T, C>,
        ordered: bool,
    ) -> Result<CompactTupleSketch<S, A>, Error>
        requires clones_equal { ClonesEqual S.is_clone }
        ensures ok { IfOk result
            (IsDifference tuple_key (shows tuple_key a.entry) (sequence a.entry) (shows tuple_key b.entry)
            ordered) }
        ensures sample { IfOk result
            (λ s. (given : Given S) (others : Given T) → IsSampleOf (view_value a.entry) given →
            IsSampleOf (view_value b.entry) others → IsSampleOf (value_of s) (without given others)) }
        ensures below { IfOk result (λ s. (given : Given S) (others : Given T) → IsSampleOf (view_value a.entry) given →
            IsSampleOf (view_value b.entry) others → ordered ≡ true →
            map Value s.entries ≡ below (fold_key tuple_key) (without given others).whole s.theta) }
        ensures refused { Refuses result
            (difference_refusal self.now (shows tuple_key a.entry) (shows tuple_key b.entry)) true }
    {
        let state = difference_of(alloc, self.seed_hash, a, b, ordered)?;
        Ok(CompactTupleSketch::of_state(state))
    }
}
