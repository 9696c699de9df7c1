//! The calls of a family of sketches that plans need.
ghost use Rattle.std.specs.Prelude.{◌≡◌, ◌<◌, ◌||◌, ◌^◌, true, false, not, None, [], IfOk, IfErr, OnOk};
ghost use Rattle.std.specs.Prelude.{option_map};
ghost use Rattle.sketch_base.specs.Seed.{seed_hash};
ghost use Rattle.core_compact.specs.CompactState.{IsAnswer};
ghost use Rattle.core_laws.specs.Settings.{settings_refusal};
ghost use Rattle.core_table.specs.HashTable.{empty_table, after_reset, after_insertion, trimmed_table};
ghost use Rattle.core_laws.specs.Folds.{unmarked_value};
ghost use Rattle.core_laws.specs.Insertion.{upsert_refusal};
ghost use Rattle.core_laws.specs.Operators.{minus};
ghost use Rattle.core_laws.specs.Refusal.{Refuses};
ghost use Rattle.core_laws.specs.Values.{cut_value};
ghost use Rattle.core_state.specs.Updatable.{sketch_value};
ghost use Rattle.core_operators.specs.Intersection.{new_intersection, seed_refusal, IsAnswerIfAny};
ghost use Rattle.core_operators.specs.Union.{empty_union, union_value, lower_refusal};
ghost use Rattle.plan_values.specs.Family.{IsFamily, folds_of};
ghost use Rattle.plan_evaluation.specs.Parts.{part_result, IsFoldAnswer, JoinsPart, MeetsPart};
ghost use Rattle.plan_evaluation.specs.Refused.{RefusedFor, MarksJoined, MarksMet};

use crate::evaluated::Evaluated;
use core_laws::SketchEntry;
use sketch_base::Error;
use std::alloc::Allocator;

/// A family of sketches and its operators, by their public calls. Its contracts are those of the calls, in terms of
/// any family. Values are given in folds, and no fold here is a mark.
pub trait SketchFamily<A: Allocator> {
    /// A retained entry.
    type Entry: SketchEntry;
    /// The value that an update carries beside its hash.
    type Value: Copy;
    /// A sketch that can be updated.
    type Sketch: Drop;
    /// A compact sketch.
    type Compact: Drop;
    /// A union of its sketches.
    type Union: Drop;
    /// An intersection of its sketches.
    type Intersection: Drop;
    /// A difference of its sketches.
    type Difference: Drop;

    ghost use Rattle.std.specs.Prelude.{ℕ, Bool, List};
    ghost use Rattle.core_laws.specs.Folds.{Fold};
    ghost use Rattle.core_compact.specs.CompactState.{Compact as State};
    ghost use Rattle.core_state.specs.Updatable.{Updatable};
    ghost use Rattle.core_operators.specs.Union.{Union as Unions};
    ghost use Rattle.core_operators.specs.Intersection.{Intersection as Intersections};
    ghost use Rattle.plan_values.specs.Family.{Family as Families};

    /// Its keys, merges and steps; and the merges that it refuses.
    ghost rules: { Self → Families Self.Entry Self.Value };

    ghost refuses: { Self → Self.Entry → Self.Entry → Bool };

    /// Whether a policy of the family may refuse at all.
    ghost strict: { Bool };

    /// The states of its sketches, and of its operators without their policies.
    ghost state: { Self.Sketch → Updatable Self.Entry };

    ghost listed: { Self.Compact → State Self.Entry };

    ghost united: { Self.Union → Unions Self.Entry (Unit {0}) };

    ghost met: { Self.Intersection → Intersections Self.Entry (Unit {0}) };

    ghost difference_seed: { Self.Difference → ℕ };

    /// Whether a union has all of a whole map below its theta.
    ghost holds: { Self → Self.Union → List (Fold Self.Entry) → Type 0 };

    /// Whether a sketch, a union or an intersection has the family's policies.
    ghost made_sketch: { Self → Self.Sketch → Type 0 };

    ghost made_union: { Self → Self.Union → Type 0 };

    ghost made_intersection: { Self → Self.Intersection → Type 0 };

    /// A new sketch. Refused with `InvalidArgument` for an `lg_k` that isn't from 4 to 26, a `start` that isn't from
    /// 1 to `MAX_THETA` or a seed whose seed hash is 0, and with `OutOfMemory`.
    fn new_sketch(&self, alloc: A, lg_k: u8, start: u64, seed: u64) -> Result<Self::Sketch, Error>
        ensures own { IfOk result (made_sketch self.now) }
        ensures empty { IfOk result (λ s. (state s).empty ≡ true) }
        ensures made { IfOk result (λ s. (state s).map ≡ empty_table lg_k start seed) }
        ensures refused { Refuses result (settings_refusal lg_k start seed) true };

    /// Adds a value at a hash. Refused with `OutOfMemory`, or with `Policy` if the family's rules refuse the value
    /// there. If refused, the sketch's contents are unspecified.
    fn add(&self, sketch: &mut Self::Sketch, hash: u64, value: Self::Value) -> Result<(), Error>
        requires own { made_sketch self.now sketch.old }
        ensures still { made_sketch self.now sketch.new }
        ensures nonempty { OnOk result ((state sketch.new).empty ≡ false) }
        ensures after { OnOk result (
            (state sketch.new).map
            ≡ after_insertion (rules self.now).key hash ((rules self.now).step_of hash value) (state sketch.old).map) }
        ensures strict { IfErr result (λ e.
            RefusedFor e strict (
            upsert_refusal (rules self.now).key hash ((rules self.now).step_of hash value)
            (state sketch.old).map.kept
            ≡ Some e)) }
        ensures accepted { OnOk result (
            upsert_refusal (rules self.now).key hash ((rules self.now).step_of hash value)
            (state sketch.old).map.kept
            ≡ None) };

    /// Trims a sketch. Refused with `OutOfMemory` alone; then the sketch's contents are unspecified.
    fn trim(&self, sketch: &mut Self::Sketch) -> Result<(), Error>
        requires own { made_sketch self.now sketch.old }
        ensures still { made_sketch self.now sketch.new }
        ensures same_emptiness { (state sketch.new).empty ≡ (state sketch.old).empty }
        ensures after { OnOk result
            ((state sketch.new).map ≡ trimmed_table (rules self.now).key (state sketch.old).map) }
        ensures refused { Refuses result None true };

    /// Makes a sketch empty again.
    fn reset(&self, sketch: &mut Self::Sketch)
        requires own { made_sketch self.now sketch.old }
        ensures still { made_sketch self.now sketch.new }
        ensures empty { (state sketch.new).empty ≡ true }
        ensures map { (state sketch.new).map ≡ after_reset (state sketch.old).map };

    /// The compact form of a sketch. Refused with `OutOfMemory` alone.
    fn compact(&self, sketch: &Self::Sketch, ordered: bool) -> Result<Self::Compact, Error>
        ensures ok { IfOk result (λ c.
            IsAnswer (rules self.now).key (sketch_value (state sketch.now)) (state sketch.now).map.seed_hash ordered
            (listed c)) }
        ensures refused { Refuses result None true };

    /// A new union. Refused with `InvalidArgument` for an `lg_k` that isn't from 4 to 26, a `start` that isn't from 1
    /// to `MAX_THETA` or a seed whose seed hash is 0, and with `OutOfMemory`.
    fn new_union(&self, alloc: A, lg_k: u8, start: u64, seed: u64) -> Result<Self::Union, Error>
        ensures own { IfOk result (made_union self.now) }
        ensures made { IfOk result (λ u. united u ≡ empty_union lg_k start (seed_hash seed) tt) }
        ensures holds { IfOk result (λ u. holds self.now u []) }
        ensures refused { Refuses result (settings_refusal lg_k start seed) true };

    /// Merges a part of the union's seed into a union that has not failed. Refused with `OutOfMemory`, or with
    /// `Policy` if the joined whole maps of the union and the part have a mark. If refused, the union's contents are
    /// unspecified.
    fn join(
        &self,
        union: &mut Self::Union,
        part: &Evaluated<Self::Sketch, Self::Compact>,
    ) -> Result<(), Error>
        requires own { made_union self.now union.old }
        requires same_seed { (united union.old).seed_hash
            ≡ (part_result (rules self.now).key state listed part.now).seed_hash }
        requires at_work { (united union.old).failed ≡ false }
        ensures still { made_union self.now union.new }
        ensures joins { OnOk result (
            JoinsPart (rules self.now).key (folds_of (rules self.now) (refuses self.now)) (holds self.now union.old)
            (holds self.now union.new) (united union.old) (united union.new)
            (part_result (rules self.now).key state listed part.now).value) }
        ensures refused { IfErr result (λ e.
            RefusedFor e strict (
            MarksJoined (folds_of (rules self.now) (refuses self.now)) (holds self.now union.old)
            (part_result (rules self.now).key state listed part.now).value)) };

    /// Lowers the nominal entries of a union that has not failed. Refused with `InvalidArgument` if `lg_k` isn't from
    /// 4 to the union's, and with `OutOfMemory`. If refused, the union's contents are unspecified.
    fn lower(&self, union: &mut Self::Union, lg_k: u8) -> Result<(), Error>
        requires own { made_union self.now union.old }
        requires at_work { (united union.old).failed ≡ false }
        ensures still { made_union self.now union.new }
        ensures cuts { OnOk result (
            union_value (rules self.now).key (united union.new)
            ≡ cut_value (rules self.now).key (2 ^ lg_k) (union_value (rules self.now).key (united union.old))) }
        ensures made_with { OnOk result
            (united union.new ≡ record (united union.old) { content = (united union.new).content; lg_k = lg_k }) }
        ensures holds { OnOk result
            ((whole : List (Fold Self.Entry)) → holds self.now union.old whole → holds self.now union.new whole) }
        ensures refused { Refuses result (lower_refusal (united union.old) lg_k) true };

    /// The value of a union that has not failed. Refused with `OutOfMemory` alone.
    fn union_value(&self, union: &Self::Union, ordered: bool) -> Result<Self::Compact, Error>
        requires at_work { (united union.now).failed ≡ false }
        ensures ok { IfOk result (λ c.
            IsAnswer (rules self.now).key (union_value (rules self.now).key (united union.now))
            (united union.now).seed_hash ordered (listed c)) }
        ensures refused { Refuses result None true };

    /// A new intersection. Refused with `InvalidArgument` for a seed whose seed hash is 0, and with `OutOfMemory`.
    fn new_intersection(&self, alloc: A, seed: u64) -> Result<Self::Intersection, Error>
        ensures own { IfOk result (made_intersection self.now) }
        ensures made { IfOk result (λ i. met i ≡ new_intersection (seed_hash seed) tt) }
        ensures refused { Refuses result (seed_refusal seed) true };

    /// Intersects with a part of the intersection's seed. Refused with `OutOfMemory`, or with `Policy` if the common
    /// part of the whole maps has a mark. If refused, the intersection's contents are unspecified.
    fn meet(
        &self,
        intersection: &mut Self::Intersection,
        part: &Evaluated<Self::Sketch, Self::Compact>,
    ) -> Result<(), Error>
        requires own { made_intersection self.now intersection.old }
        requires same_seed { (met intersection.old).seed_hash
            ≡ (part_result (rules self.now).key state listed part.now).seed_hash }
        ensures still { made_intersection self.now intersection.new }
        ensures meets { OnOk result (
            MeetsPart (folds_of (rules self.now) (refuses self.now)) (met intersection.old) (met intersection.new)
            (part_result (rules self.now).key state listed part.now).value) }
        ensures refused { IfErr result (λ e.
            RefusedFor e strict (
            MarksMet (folds_of (rules self.now) (refuses self.now))
            (option_map unmarked_value (met intersection.old).result)
            (part_result (rules self.now).key state listed part.now).value)) };

    /// The value of an intersection, or `None` before its first part. Refused with `OutOfMemory` alone.
    fn shared(
        &self,
        intersection: &Self::Intersection,
        ordered: bool,
    ) -> Result<Option<Self::Compact>, Error>
        ensures ok { IfOk result (λ c.
            IsAnswerIfAny (rules self.now).key (met intersection.now).result (met intersection.now).seed_hash
            ordered (option_map listed c)) }
        ensures refused { Refuses result None true };

    /// A difference. Refused with `InvalidArgument` for a seed whose seed hash is 0, and with `OutOfMemory`.
    fn new_difference(&self, seed: u64) -> Result<Self::Difference, Error>
        ensures ok { IfOk result (λ d. difference_seed d ≡ seed_hash seed) }
        ensures refused { Refuses result (seed_refusal seed) true };

    /// The difference of two parts of this seed, ordered if `ordered` is set or the first part is ordered. Refused
    /// with `OutOfMemory` alone.
    fn a_not_b(
        &self,
        difference: &Self::Difference,
        alloc: A,
        first: &Evaluated<Self::Sketch, Self::Compact>,
        second: &Evaluated<Self::Sketch, Self::Compact>,
        ordered: bool,
    ) -> Result<Self::Compact, Error>
        requires first_seed { difference_seed difference.now
            ≡ (part_result (rules self.now).key state listed first.now).seed_hash }
        requires second_seed { difference_seed difference.now
            ≡ (part_result (rules self.now).key state listed second.now).seed_hash }
        ensures ok { let f = folds_of (rules self.now) (refuses self.now) in
            let a = part_result (rules self.now).key state listed first.now in
            let b = part_result (rules self.now).key state listed second.now in
            IfOk result (λ c.
            IsFoldAnswer (rules self.now).key (minus f.key f.key a.value b.value) a.seed_hash (ordered || a.ordered)
            (listed c)) }
        ensures refused { Refuses result None true };

    /// Writes a sketch of this seed as an image and reads it back. The sketch is dropped before its image is read.
    /// Refused with `OutOfMemory` alone, also if a summary can't be written.
    fn through_image(
        &self,
        alloc: A,
        sketch: Self::Compact,
        seed: u64,
    ) -> Result<Self::Compact, Error>
        requires same_seed { (listed sketch).seed_hash ≡ seed_hash seed }
        requires seeded { 0 < seed_hash seed }
        ensures same { IfOk result (λ s. listed s ≡ listed sketch) }
        ensures refused { Refuses result None true };

    /// Steps and merges keep hashes.
    ghost keeps: { (f : Self) → IsFamily (rules f) };
}
