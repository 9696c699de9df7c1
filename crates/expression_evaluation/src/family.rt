//! The calls of a family of sketches that expressions need.
ghost use Rattle.std.specs.Prelude.{◌≡◌, None, true, IfOk, IfErr};
ghost use Rattle.sketch_base.specs.Seed.{seed_hash};
ghost use Rattle.core_compact.specs.CompactState.{IsAnswer};
ghost use Rattle.core_laws.specs.Refusal.{Refuses};
ghost use Rattle.core_laws.specs.Settings.{settings_refusal};
ghost use Rattle.core_laws.specs.declared.TheConstants.{MAX_THETA};
ghost use Rattle.core_operators.specs.Intersection.{seed_refusal};
ghost use Rattle.expression_evaluation.specs.Running.{is_accepted, value_by, BothHaveSeed, IsCombination};
ghost use Rattle.expression_evaluation.specs.Running.{IsMergeError, MayRefuseTwo};

use expression_text::Operator;
use sketch_base::Error;
use std::alloc::Allocator;

/// A family of compact sketches: how a named sketch is read, and how two are combined. Named sketches are in memory
/// of `B`, results in memory of `A`.
pub trait SetFamily<A: Allocator, B: Allocator> {
    /// A retained entry.
    type Entry;
    /// A sketch with a name.
    type Named;
    /// The result of a step.
    type Sketch: Drop;

    ghost use Rattle.core_compact.specs.CompactState.{Compact};
    ghost use Rattle.core_laws.specs.Entries.{KeepsKey};
    ghost use Rattle.expression_evaluation.specs.Values.{Rules};

    /// The rules of its entries.
    ghost rules: { Self → Rules Self.Entry };

    /// The contents of its sketches.
    ghost named: { Self.Named → Compact Self.Entry };

    ghost listed: { Self.Sketch → Compact Self.Entry };

    /// Whether a sketch is empty or of the seed with this hash.
    fn is_accepted(&self, hash: u16, sketch: &Self::Named) -> bool
        ensures { result ≡ is_accepted hash (named sketch.now) };

    /// The ordered sketch with the value of a sketch that is empty or of this seed. Refused with `OutOfMemory` alone.
    fn to_ordered(&self, alloc: A, seed: u64, sketch: &Self::Named) -> Result<Self::Sketch, Error>
        requires seeded { seed_refusal seed ≡ None }
        requires accepted { is_accepted (seed_hash seed) (named sketch.now) ≡ true }
        ensures value { IfOk result (λ s.
            IsAnswer (rules self.now).key (value_by (rules self.now) named sketch.now) (seed_hash seed) true (listed s)) }
        ensures refused { Refuses result None true };

    /// Two results of this seed combined, ordered. A union has 2^`lg_k` nominal entries. Refused with `OutOfMemory`,
    /// or with `Policy` if the family refuses to merge two entries of one key below the lesser theta.
    fn combine(
        &self,
        alloc: A,
        seed: u64,
        lg_k: u8,
        operator: Operator,
        first: Self::Sketch,
        second: Self::Sketch,
    ) -> Result<Self::Sketch, Error>
        requires settings { settings_refusal lg_k MAX_THETA seed ≡ None }
        requires seeds { BothHaveSeed seed (listed first) (listed second) }
        ensures value { IfOk result (λ s.
            IsCombination (rules self.now) lg_k seed operator (listed first) (listed second) (listed s)) }
        ensures refused { IfErr result (IsMergeError (
            MayRefuseTwo (rules self.now) operator (value_by (rules self.now) listed first)
            (value_by (rules self.now) listed second))) };

    /// Merged entries keep their keys.
    ghost keeps: { (family : Self) → KeepsKey (rules family).key (rules family).merges };
}
