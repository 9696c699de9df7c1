//! Laws of the definitions alone: the laws of leaves at the entries and steps of tuples, and those of images.
ghost use Rattle.std.specs.Prelude.{◌≡◌, ℕ, ◌<◌, ◌≤◌, ◌^◌, List, ◌++◌, ◌∷◌, [], None, Option, Some, map, true, false};
ghost use Rattle.sketch_base.specs.declared.error.ErrorKind.{ErrorKind};
ghost use Rattle.core_laws.specs.Cuts.{Retained, cut};
ghost use Rattle.core_laws.specs.Folds.{Fold, Value, fold_key, folded_of, has_mark, unmarked};
ghost use Rattle.core_laws.specs.Insertion.{after_upsert, upsert_refusal, whole_upsert};
ghost use Rattle.core_laws.specs.Leaf.{KeepsHashes, is_updated, leaf, whole};
ghost use Rattle.core_laws.specs.declared.leaf.LeafStep.{LeafStep};
ghost use Rattle.core_laws.specs.declared.leaf.LeafStep.TheVariants.{Trim};
ghost use Rattle.core_laws.specs.Maps.{below};
ghost use Rattle.core_laws.specs.Samples.{IsLawfulValue, IsSample};
ghost use Rattle.core_laws.specs.Values.{NonEmpty};
ghost use Rattle.core_slots.specs.declared.entry.TupleEntry.{TupleEntry};
ghost use Rattle.core_policies.specs.Summaries.{update_step};
ghost use Rattle.core_compact.specs.CompactState.{Compact, IsCompact, empty_compact};
ghost use Rattle.core_slots.specs.Entry.{tuple_key};
ghost use Rattle.tuple_sketches.specs.Image.{Reads, HasValues, written};
ghost use Rattle.tuple_sketches.specs.declared.image.TheConstants.{EMPTY_SKETCH_BYTES};
ghost use Rattle.core_policies.specs.Sums.{unsigned_sum};
ghost use Rattle.tuple_sketches.specs.Streams.{Sketch, Given, nothing, with_value, given_values, united};
ghost use Rattle.tuple_sketches.specs.Streams.{least_folds, given_sums, least_sums, IsPartOf, IsSampleOf};
ghost use Rattle.tuple_sketches.specs.Streams.{combined_number, given_numbers, least_numbers};
ghost use Rattle.tuple_sketches.specs.declared.numbers.SummaryMode.{SummaryMode};

use core_images::TupleSummaryValue;
use core_laws::MAX_THETA;
use std::alloc::Allocator;

/// Updates of folds keep hashes, as updates of entries do.
pub fn folded_updates_keep_hashes<S, U>()
    ensures { (creates : Option S) (updates : S → U → Option S)
        → KeepsHashes (fold_key tuple_key) (folded_of tuple_key (update_step creates updates)) }
{}

/// An update that isn't refused is the update of folds.
pub fn allowed_update<S, U>()
    ensures { (creates : Option S) (updates : S → U → Option S) (k h : ℕ) (value : U) (v : Retained (TupleEntry S))
        → upsert_refusal tuple_key h (update_step creates updates h value) v ≡ None
        → unmarked (after_upsert tuple_key k h (update_step creates updates h value) v)
        ≡ after_upsert (fold_key tuple_key) k h (folded_of tuple_key (update_step creates updates) h value)
        (unmarked v) }
{}

/// A trim of entries is a trim of folds. So each step of a leaf, if it isn't refused, is a step on folds; after a
/// reset there is nothing to fold.
pub fn trim_of_folds<S>()
    ensures { (k : ℕ) (v : Retained (TupleEntry S))
        → unmarked (cut tuple_key k v.entries v.theta) ≡ cut (fold_key tuple_key) k (unmarked v).entries v.theta }
{}

/// If the retained entries are the part of the whole map below theta, a refused update leaves a mark in the whole
/// map.
pub fn refused_update_marks<S, U>()
    ensures { (creates : Option S) (updates : S → U → Option S) (h : ℕ) (value : U) (v : Retained (TupleEntry S))
        (whole : List (Fold (TupleEntry S))) (kind : ErrorKind)
        → map Value v.entries ≡ below (fold_key tuple_key) whole v.theta
        → upsert_refusal tuple_key h (update_step creates updates h value) v ≡ Some kind
        → has_mark
        (whole_upsert (fold_key tuple_key) h (folded_of tuple_key (update_step creates updates) h value)
        whole)
        ≡ true }
{}

/// A leaf's value, in folds, is a sample of the whole map of everything added, and its theta is lawful.
pub fn tuple_leaf_is_sample<S, U>()
    ensures sample { (creates : Option S) (updates : S → U → Option S) (k start : ℕ) (steps : List (LeafStep U))
        → start ≤ MAX_THETA
        → IsSample (fold_key tuple_key)
        (leaf (fold_key tuple_key) (folded_of tuple_key (update_step creates updates)) k start steps)
        (whole (fold_key tuple_key) (folded_of tuple_key (update_step creates updates)) steps) }
    ensures lawful { (creates : Option S) (updates : S → U → Option S) (k start : ℕ) (steps : List (LeafStep U))
        → start ≤ MAX_THETA
        → IsLawfulValue (fold_key tuple_key) k start
        (leaf (fold_key tuple_key) (folded_of tuple_key (update_step creates updates)) k start steps)
        (whole (fold_key tuple_key) (folded_of tuple_key (update_step creates updates)) steps) }
{}

/// A leaf that isn't empty and whose last step is a trim retains the k folds of least hash of the whole map of
/// everything added.
pub fn trimmed_tuple_leaf<S, U>()
    ensures { (creates : Option S) (updates : S → U → Option S) (k start : ℕ) (steps : List (LeafStep U))
        → start ≤ MAX_THETA
        → is_updated steps false ≡ true
        → leaf (fold_key tuple_key) (folded_of tuple_key (update_step creates updates)) k start (steps ++ Trim ∷ [])
        ≡ NonEmpty
        (cut (fold_key tuple_key) k
        (whole (fold_key tuple_key) (folded_of tuple_key (update_step creates updates)) steps) start) }
{}

/// Bytes are read as at most one sketch.
pub fn one_reading<S: TupleSummaryValue<A>, A: Allocator>()
    ensures { (bytes : List ℕ) (h : ℕ) (r s : Compact (TupleEntry S))
        → Reads S.spells bytes h r
        → Reads S.spells bytes h s
        → r ≡ s }
{}

/// The image of a sketch is read as that sketch, whatever bytes follow it, if the sketch keeps the laws of compact
/// sketches, its summaries are values, and its seed hash is from 1 to 65535.
pub fn read_again<S: TupleSummaryValue<A>, A: Allocator>()
    ensures { (s : Compact (TupleEntry S)) (rest : List ℕ)
        → IsCompact tuple_key s
        → HasValues S.is_value s
        → 0 < s.seed_hash
        → s.seed_hash < 2 ^ 16
        → Reads S.spells (written S.text s ++ rest) s.seed_hash s }
{}

/// The image of every empty sketch is `EMPTY_SKETCH_BYTES`.
pub fn written_of_empty<S>()
    ensures { (text : S → List ℕ) (seed_hash : ℕ) → written text (empty_compact seed_hash) ≡ EMPTY_SKETCH_BYTES }
{}

/// A stream of no values gives nothing, and one value more at its end gives that value too.
pub fn streams_of_values<S, U>()
    ensures none { (creates : Option S) (updates : S → U → Option S) → given_values creates updates [] ≡ nothing }
    ensures one_more { (creates : Option S) (updates : S → U → Option S) (stream : List (ℕ × U)) (value : ℕ × U) →
        given_values creates updates (stream ++ value ∷ [])
        ≡ with_value creates updates value.0 value.1 (given_values creates updates stream) }
{}

/// Sums of two streams, united, are the sums of both streams in turn, the marks of sums of 2^64 or more included. The
/// entries that are retained of the k least folds of a stream of numbers, none of them a mark, are its k least
/// hashes, each with the sum of its numbers.
pub fn streams_of_sums()
    ensures united { (stream more : List (ℕ × ℕ))
        → united (unsigned_sum 64) (given_sums stream) (given_sums more) ≡ given_sums (stream ++ more) }
    ensures least { (k start : ℕ) (stream : List (ℕ × ℕ)) (v : Retained (TupleEntry ℕ))
        → unmarked v ≡ least_folds k (given_sums stream) start →
        v ≡ least_sums k stream start }
{}

/// The same under a policy of numbers of any mode: what two streams give, united, is what both give in turn. The
/// entries that are retained of the k least folds of a stream, none of them a mark, are its k least hashes, each with
/// the sum, the least or the greatest of its numbers.
pub fn streams_of_numbers()
    ensures united { (mode : SummaryMode) (stream more : List (ℕ × ℕ))
        → united (combined_number mode) (given_numbers mode stream) (given_numbers mode more)
        ≡ given_numbers mode (stream ++ more) }
    ensures least { (mode : SummaryMode) (k start : ℕ) (stream : List (ℕ × ℕ)) (v : Retained (TupleEntry ℕ))
        → unmarked v ≡ least_folds k (given_numbers mode stream) start →
        v ≡ least_numbers mode k stream start }
{}

/// A part samples what was given, and a part for some k is one for fewer.
pub fn parts_of_streams<S>()
    ensures sample { (k start : ℕ) (value : Sketch (TupleEntry S)) (given : Given S)
        → IsPartOf k start value given
        → IsSampleOf value given }
    ensures fewer { (k more start : ℕ) (value : Sketch (TupleEntry S)) (given : Given S)
        → k ≤ more
        → IsPartOf more start value given →
        IsPartOf k start value given }
{}
