//! Laws of the definitions: each is the contract of a function that does nothing, so that a caller can use it.
ghost use Rattle.std.specs.Prelude.{◌≡◌, ◌≢◌, ℕ, ◌<◌, ◌≤◌, List, [], ◌∷◌, ◌++◌, Some, None, Option, option_map};
ghost use Rattle.std.specs.Prelude.{min, false, true, map, Bool, IsPermutation};
ghost use Rattle.std.specs.List.{AllByRecursion};
ghost use Rattle.sketch_base.specs.declared.error.ErrorKind.{ErrorKind};
ghost use Rattle.core_laws.specs.Maps.{IsAscending, entry_at, below, map_of, IsApart};
ghost use Rattle.core_laws.specs.Cuts.{Retained, cut, IsRetained, none_below};
ghost use Rattle.core_laws.specs.Commuting.{Commutes, Associates, IsIdempotent};
ghost use Rattle.core_laws.specs.KeysOfValues.{keys_of, IsKeyOf, IsBelowTheta};
ghost use Rattle.core_laws.specs.Folds.{folded, folded_of, has_mark, Fold, Value, fold_key, fold_merges, unmarked};
ghost use Rattle.core_laws.specs.Folds.{unmarked_value, never};
ghost use Rattle.core_laws.specs.Entries.{hash_key, hash_step, first_hash, Merging};
ghost use Rattle.core_laws.specs.Operators.{meet_next, unite, meet, minus, lacking, least, all_have, joined_all};
ghost use Rattle.core_laws.specs.Operators.{nonempties, joined, common, BecomesDisjoint};
ghost use Rattle.core_laws.specs.Values.{keys, IsAscendingValue, cut_value, Sketch, Empty, NonEmpty};
ghost use Rattle.core_laws.specs.Lawful.{IsLawful, IsWithin};
ghost use Rattle.core_laws.specs.Insertion.{whole_upsert, after_upsert, after_upserts, upsert_refusal, IsRedundant};
ghost use Rattle.core_laws.specs.Insertion.{Drops};
ghost use Rattle.core_laws.specs.declared.leaf.LeafStep.{LeafStep};
ghost use Rattle.core_laws.specs.declared.leaf.LeafStep.TheVariants.{Trim};
ghost use Rattle.core_laws.specs.Leaf.{leaf, leaf_from, whole, hash_step_of, added, kmin, is_updated, KeepsHashes};
ghost use Rattle.core_laws.specs.Step.{merge_step, Step};
ghost use Rattle.core_laws.specs.Samples.{IsSample, AreSamples, IsLawfulValue, AreLawful, common_all};

use crate::MAX_THETA;

/// Two maps that have the same entry at each hash are equal.
pub fn maps_are_alike<X>()
    ensures { (key : X → ℕ) (xs ys : List X)
        → IsAscending key xs
        → IsAscending key ys
        → ((q : ℕ) → entry_at key xs q ≡ entry_at key ys q)
        → xs ≡ ys }
{}

/// A cut below a lawful theta equals a cut below the start.
pub fn cut_below_lawful_theta<X>()
    ensures { (key : X → ℕ) (entries : List X) (k start theta : ℕ)
        → IsAscending key entries
        → IsLawful key entries k start theta
        → cut key k entries theta ≡ cut key k entries start }
{}

/// A theta that is lawful for some k is lawful for every smaller k.
pub fn lawful_for_less<X>()
    ensures { (key : X → ℕ) (k more start : ℕ) (value : Sketch X) (whole : List X)
        → k ≤ more
        → IsLawfulValue key more start value whole
        → IsLawfulValue key k start value whole }
{}

/// An insertion keeps the retained entries within the whole map, which it changes as if there were no theta.
pub fn upsert_stays_within<X>()
    ensures { (key : X → ℕ) (k start h : ℕ) (step : Step X) (v : Retained X) (whole : List X)
        → 0 < h
        → ((x : X) → key x ≡ h → key (step.writes x) ≡ h)
        → ((x : X) → step.makes ≡ Some x → key x ≡ h)
        → IsWithin key k start v whole
        → IsWithin key k start (after_upsert key k h step v) (whole_upsert key h step whole) }
{}

/// If hashes are inserted in turn, those that are screened or retained at the start may be dropped: the same hashes
/// are retained in the end, below the same theta.
pub fn redundant_hashes_dropped()
    ensures { (k : ℕ) (v : Retained ℕ) (hashes left : List ℕ)
        → IsRetained hash_key v
        → Drops (IsRedundant hash_key v) hashes left
        → after_upserts hash_key k hash_step hashes v ≡ after_upserts hash_key k hash_step left v }
{}

/// Inserting a first part of some hashes and then all of them has the same effect as inserting all of them once.
pub fn first_part_inserted_again()
    ensures { (k : ℕ) (v : Retained ℕ) (front rest : List ℕ)
        → IsRetained hash_key v
        → after_upserts hash_key k hash_step (front ++ rest) (after_upserts hash_key k hash_step front v)
        ≡ after_upserts hash_key k hash_step (front ++ rest) v }
{}

/// After any steps a leaf retains exactly the entries below a lawful theta of the whole map of what was added.
pub fn leaf_stays_within<X, V>()
    ensures { (key : X → ℕ) (step_of : ℕ → V → Step X)
        → KeepsHashes key step_of
        → (k start : ℕ) (steps : List (LeafStep V))
        → start ≤ MAX_THETA
        → IsWithin key k start (leaf_from key step_of k start steps (none_below start)) (whole key step_of steps) }
{}

/// A leaf's value is a sample of the whole map of what was added, and its theta is lawful.
pub fn leaf_is_sample<X, V>()
    ensures sample { (key : X → ℕ) (step_of : ℕ → V → Step X)
        → KeepsHashes key step_of
        → (k start : ℕ) (steps : List (LeafStep V))
        → start ≤ MAX_THETA
        → IsSample key (leaf key step_of k start steps) (whole key step_of steps) }
    ensures lawful { (key : X → ℕ) (step_of : ℕ → V → Step X)
        → KeepsHashes key step_of
        → (k start : ℕ) (steps : List (LeafStep V))
        → start ≤ MAX_THETA
        → IsLawfulValue key k start (leaf key step_of k start steps) (whole key step_of steps) }
{}

/// A leaf that isn't empty and whose last step is a trim retains the k entries of least hash of the whole map of what
/// was added.
pub fn trimmed_leaf<X, V>()
    ensures { (key : X → ℕ) (step_of : ℕ → V → Step X)
        → KeepsHashes key step_of
        → (k start : ℕ) (steps : List (LeafStep V))
        → start ≤ MAX_THETA
        → is_updated steps false ≡ true
        → leaf key step_of k start (steps ++ Trim ∷ []) ≡ NonEmpty (cut key k (whole key step_of steps) start) }
{}

/// A leaf of hashes that isn't empty and whose last step is a trim is the k-minimum of the hashes that were added.
pub fn trimmed_leaf_is_kmin<V>()
    ensures { (k start : ℕ) (steps : List (LeafStep V))
        → start ≤ MAX_THETA
        → is_updated steps false ≡ true
        → leaf hash_key hash_step_of k start (steps ++ Trim ∷ []) ≡ NonEmpty (kmin k (added steps) start) }
{}

/// The union of some values and a last one is the union of their union and the last one.
pub fn union_of_union<X>()
    ensures { (m : Merging X) (k start : ℕ) (values : List (Sketch X)) (last : Sketch X)
        → unite m.key m.merges k start (values ++ last ∷ [])
        ≡ unite m.key m.merges k start (unite m.key m.merges k start values ∷ last ∷ []) }
{}

/// A union cut to fewer nominal entries is the union at that number of nominal entries from the start; an Empty one
/// stays Empty.
pub fn cut_of_union<X>()
    ensures { (m : Merging X) (less k start : ℕ) (values : List (Sketch X))
        → less ≤ k
        → cut_value m.key less (unite m.key m.merges k start values) ≡ unite m.key m.merges less start values }
{}

/// The union of samples is a sample of the join of their whole maps.
pub fn union_of_samples<X>()
    ensures { (m : Merging X) (k start : ℕ) (values : List (Sketch X)) (wholes : List (List X))
        → AreSamples m.key values wholes
        → IsSample m.key (unite m.key m.merges k start values) (joined_all m.key m.merges [] wholes) }
{}

/// A union's theta is lawful for k if the thetas of its parts are, and if its own nominal entries are at least k and
/// its start is at least theirs.
pub fn union_stays_lawful<X>()
    ensures { (m : Merging X) (k own start from : ℕ) (values : List (Sketch X)) (wholes : List (List X))
        → k ≤ own
        → start ≤ from
        → AreSamples m.key values wholes
        → AreLawful m.key k start values wholes
        → IsLawfulValue m.key k start (unite m.key m.merges own from values) (joined_all m.key m.merges [] wholes) }
{}

/// If every part's theta is lawful for one start, and the union doesn't start below it, a union with a part that
/// isn't Empty is the cut of the whole map at that start, whatever the order of its parts.
pub fn union_is_least<X>()
    ensures { (m : Merging X) (k start from : ℕ) (values : List (Sketch X)) (wholes : List (List X))
        → start ≤ from
        → AreSamples m.key values wholes
        → AreLawful m.key k start values wholes
        → nonempties values ≢ []
        → unite m.key m.merges k from values ≡ NonEmpty (cut m.key k (joined_all m.key m.merges [] wholes) start) }
{}

/// The keys, theta and emptiness of a union don't depend on the order of its inputs.
pub fn union_commutes<X>()
    ensures { (m : Merging X) (k start : ℕ) (a b : Sketch X)
        → IsAscendingValue m.key a
        → IsAscendingValue m.key b
        → keys m.key (unite m.key m.merges k start (a ∷ b ∷ []))
        ≡ keys m.key (unite m.key m.merges k start (b ∷ a ∷ [])) }
{}

/// The keys, theta and emptiness of a union don't depend on the grouping of its inputs.
pub fn union_associates<X>()
    ensures { (m : Merging X) (k start : ℕ) (a b c : Sketch X)
        → IsAscendingValue m.key a
        → IsAscendingValue m.key b
        → IsAscendingValue m.key c
        → keys m.key (unite m.key m.merges k start (unite m.key m.merges k start (a ∷ b ∷ []) ∷ c ∷ []))
        ≡ keys m.key (unite m.key m.merges k start (a ∷ unite m.key m.merges k start (b ∷ c ∷ []) ∷ [])) }
{}

/// The union of a union's result with itself has the same keys, theta and emptiness.
pub fn union_again<X>()
    ensures { (m : Merging X) (k start : ℕ) (values : List (Sketch X))
        → IsAscendingValue m.key (unite m.key m.merges k start values)
        → keys m.key
        (unite m.key m.merges k start
        (unite m.key m.merges k start values ∷ unite m.key m.merges k start values ∷ []))
        ≡ keys m.key (unite m.key m.merges k start values) }
{}

/// If merges of one key don't depend on their order, neither does a union of two values, including its summaries.
pub fn union_commutes_as_merges<X>()
    ensures { (m : Merging X)
        → Commutes m.key m.merges
        → (k start : ℕ) (a b : Sketch X)
        → IsAscendingValue m.key a
        → IsAscendingValue m.key b
        → unite m.key m.merges k start (a ∷ b ∷ []) ≡ unite m.key m.merges k start (b ∷ a ∷ []) }
{}

/// If merges of one key don't depend on their grouping, neither does a union of three values, including its
/// summaries.
pub fn union_associates_as_merges<X>()
    ensures { (m : Merging X)
        → Associates m.key m.merges
        → (k start : ℕ) (a b c : Sketch X)
        → IsAscendingValue m.key b
        → IsAscendingValue m.key c
        → unite m.key m.merges k start (unite m.key m.merges k start (a ∷ b ∷ []) ∷ c ∷ [])
        ≡ unite m.key m.merges k start (a ∷ unite m.key m.merges k start (b ∷ c ∷ []) ∷ []) }
{}

/// If a merge of an entry with itself leaves it unchanged, the union of a union's result with itself is that result,
/// including its summaries.
pub fn union_again_as_merges<X>()
    ensures { (m : Merging X)
        → IsIdempotent m.merges
        → (k start : ℕ) (values : List (Sketch X))
        → unite m.key m.merges k start
        (unite m.key m.merges k start values ∷ unite m.key m.merges k start values ∷ [])
        ≡ unite m.key m.merges k start values }
{}

/// Merges of folds commute if refusals don't depend on the order and the merges that aren't refused commute; they
/// associate if they do on values; and they are idempotent if no merge of an entry with itself is refused or changes
/// it.
pub fn folds_merge_alike<X>()
    ensures commute { (key : X → ℕ) (merges : X → X → X) (refuses : X → X → Bool)
        → ((x y : X) → key x ≡ key y → refuses x y ≡ refuses y x)
        → ((x y : X) → key x ≡ key y → refuses x y ≡ false → merges x y ≡ merges y x)
        → Commutes (fold_key key) (fold_merges key merges refuses) }
    ensures associate { (m : Merging X) (refuses : X → X → Bool)
        → ((x y z : X)
        → m.key x ≡ m.key y
        → m.key y ≡ m.key z
        → fold_merges m.key m.merges refuses (fold_merges m.key m.merges refuses (Value x) (Value y)) (Value z)
        ≡ fold_merges m.key m.merges refuses (Value x) (fold_merges m.key m.merges refuses (Value y) (Value z)))
        → Associates (fold_key m.key) (fold_merges m.key m.merges refuses) }
    ensures idempotent { (key : X → ℕ) (merges : X → X → X) (refuses : X → X → Bool)
        → ((x : X) → refuses x x ≡ false)
        → IsIdempotent merges
        → IsIdempotent (fold_merges key merges refuses) }
{}

/// If a step isn't refused, it has the same effect as its step on folds.
pub fn allowed_step<X>()
    ensures { (key : X → ℕ) (k h : ℕ) (step : Step X) (v : Retained X)
        → upsert_refusal key h step v ≡ None
        → unmarked (after_upsert key k h step v)
        ≡ after_upsert (fold_key key) k h (folded key h step) (unmarked v) }
{}

/// Steps on folds keep hashes if the steps do.
pub fn folded_steps_keep<X, V>()
    ensures { (key : X → ℕ) (step_of : ℕ → V → Step X)
        → KeepsHashes key step_of
        → KeepsHashes (fold_key key) (folded_of key step_of) }
{}

/// If a step is refused, its step on folds leaves a mark in the whole map that the retained entries are a part of.
pub fn refused_step_marks<X>()
    ensures { (key : X → ℕ) (h : ℕ) (step : Step X) (v : Retained X) (whole : List (Fold X)) (kind : ErrorKind)
        → map Value v.entries ≡ below (fold_key key) whole v.theta
        → upsert_refusal key h step v ≡ Some kind
        → has_mark (whole_upsert (fold_key key) h (folded key h step) whole) ≡ true }
{}

/// If a merge is refused, the join of the two maps has a mark, and so has their common part.
pub fn refused_merge_marks<X>()
    ensures joined { (m : Merging X) (refuses : X → X → Bool) (whole arriving : List (Fold X)) (q : ℕ) (x y : X)
        → entry_at (fold_key m.key) whole q ≡ Some (Value x)
        → entry_at (fold_key m.key) arriving q ≡ Some (Value y)
        → refuses x y ≡ true
        → IsApart (fold_key m.key) arriving
        → has_mark (joined (fold_key m.key) (fold_merges m.key m.merges refuses) whole arriving) ≡ true }
    ensures met { (m : Merging X) (refuses : X → X → Bool) (whole arriving : List (Fold X)) (q : ℕ) (x y : X)
        → entry_at (fold_key m.key) whole q ≡ Some (Value x)
        → entry_at (fold_key m.key) arriving q ≡ Some (Value y)
        → refuses x y ≡ true
        → has_mark (common (fold_key m.key) (fold_merges m.key m.merges refuses) whole arriving) ≡ true }
{}

/// If its policy allows a merge, it has the same effect as the merge of folds.
pub fn allowed_merge<X>()
    ensures { (key : X → ℕ) (merges : X → X → X) (refuses : X → X → Bool) (k : ℕ) (x : X) (v : Retained X)
        → upsert_refusal key (key x) (merge_step merges refuses x) v ≡ None
        → unmarked (after_upsert key k (key x) (merge_step merges refuses x) v)
        ≡ after_upsert (fold_key key) k (key x) (merge_step (fold_merges key merges refuses) never (Value x))
        (unmarked v) }
{}

/// The value after an update is the union of the value before and the input, whatever map and theta the union keeps.
pub fn update_unites<X>()
    ensures { (m : Merging X) (k start low : ℕ) (old new : Retained X) (xs : List X) (theta : ℕ)
        → low ≡ min old.theta theta
        → old.theta ≤ start
        → IsAscending m.key old.entries
        → IsApart m.key xs
        → IsWithin m.key k low new (joined m.key m.merges (below m.key old.entries low) (below m.key xs low))
        → NonEmpty (cut m.key k new.entries new.theta)
        ≡ unite m.key m.merges k start
        (NonEmpty (cut m.key k old.entries old.theta)
        ∷ NonEmpty (record { entries = map_of m.key xs; theta = theta })
        ∷ []) }
{}

/// If entries are hashes alone, a union of folds is the union of the hashes.
pub fn union_of_hashes()
    ensures { (refuses : ℕ → ℕ → Bool) (k start : ℕ) (new old more : Sketch ℕ)
        → unmarked_value new
        ≡ unite (fold_key hash_key) (fold_merges hash_key first_hash refuses) k start
        (unmarked_value old ∷ unmarked_value more ∷ [])
        → new ≡ unite hash_key first_hash k start (old ∷ more ∷ []) }
{}

/// The meet of some values and a last one is the meet of their meet and the last one.
pub fn meet_of_meet<X>()
    ensures { (key : X → ℕ) (merges : X → X → X) (first : Sketch X) (values : List (Sketch X)) (last : Sketch X)
        → meet key merges ((first ∷ values) ++ last ∷ [])
        ≡ meet key merges (meet key merges (first ∷ values) ∷ last ∷ []) }
{}

/// If entries are hashes alone, the next value of an intersection in folds is that of the hashes.
pub fn meet_of_hashes()
    ensures { (refuses : ℕ → ℕ → Bool) (new old : Option (Sketch ℕ)) (more : Sketch ℕ)
        → option_map unmarked_value new
        ≡ Some
        (meet_next (fold_key hash_key) (fold_merges hash_key first_hash refuses)
        (option_map unmarked_value old) (unmarked_value more))
        → new ≡ Some (meet_next hash_key first_hash old more) }
{}

/// The value of an intersection after one more input is the meet of all inputs.
pub fn meet_in_turn<X>()
    ensures { (key : X → ℕ) (merges : X → X → X) (first : Sketch X) (values : List (Sketch X)) (last : Sketch X)
        → meet_next key merges (Some (meet key merges (first ∷ values))) last
        ≡ meet key merges ((first ∷ values) ++ last ∷ []) }
{}

/// The meet of samples is a sample of the common part of their whole maps.
pub fn meet_of_samples<X>()
    ensures { (m : Merging X) (first : Sketch X) (values : List (Sketch X)) (whole : List X) (wholes : List (List X))
        → IsSample m.key first whole
        → AreSamples m.key values wholes
        → IsSample m.key (meet m.key m.merges (first ∷ values)) (common_all m.key m.merges whole wholes) }
{}

/// A meet that isn't Empty has the least theta, and below it the keys that all values have, with their entries
/// combined in the order of the values.
pub fn meet_shows<X>()
    ensures { (m : Merging X) (u : Retained X) (vs : List (Retained X)) (r : Retained X)
        → meet m.key m.merges (NonEmpty u ∷ map NonEmpty vs) ≡ NonEmpty r
        → (r.theta ≡ least u.theta (map (λ v. v.theta) vs))
        × ((q : ℕ)
        → q < r.theta
        → entry_at m.key r.entries q ≡ all_have m.key m.merges (entry_at m.key u.entries q) vs q) }
{}

/// A meet is Empty if one of the values is.
pub fn meet_with_empty<X>()
    ensures { (key : X → ℕ) (merges : X → X → X) (before after : List (Sketch X))
        → meet key merges (before ++ Empty ∷ after) ≡ Empty }
{}

/// A meet of values that aren't Empty is Empty exactly if, for some j, the first j values all have the greatest
/// theta, the jth has keys, those before it have a key in common, and all j have none in common.
pub fn meet_is_empty<X>()
    ensures only_if { (m : Merging X) (u : Retained X) (vs : List (Retained X))
        → AllByRecursion (IsRetained m.key) (u ∷ vs)
        → meet m.key m.merges (NonEmpty u ∷ map NonEmpty vs) ≡ Empty
        → BecomesDisjoint m.key (u ∷ vs) }
    ensures if_so { (m : Merging X) (u : Retained X) (vs : List (Retained X))
        → AllByRecursion (IsRetained m.key) (u ∷ vs)
        → BecomesDisjoint m.key (u ∷ vs)
        → meet m.key m.merges (NonEmpty u ∷ map NonEmpty vs) ≡ Empty }
{}

/// A hash is a key of a meet of some values exactly if it is a key of each; so the keys of a meet don't depend on the
/// order of the values. Its theta and emptiness may.
pub fn meet_keys<X>()
    ensures only_if { (m : Merging X) (values : List (Sketch X)) (q : ℕ)
        → IsKeyOf m.key q (meet m.key m.merges values)
        → (values ≢ []) × AllByRecursion (IsKeyOf m.key q) values }
    ensures if_so { (m : Merging X) (values : List (Sketch X)) (q : ℕ)
        → AllByRecursion (IsBelowTheta m.key) values
        → values ≢ []
        → AllByRecursion (IsKeyOf m.key q) values
        → IsKeyOf m.key q (meet m.key m.merges values) }
    ensures any_order { (m : Merging X) (values others : List (Sketch X))
        → AllByRecursion (IsAscendingValue m.key) values
        → AllByRecursion (IsBelowTheta m.key) values
        → IsPermutation values others
        → keys_of m.key (meet m.key m.merges values) ≡ keys_of m.key (meet m.key m.merges others) }
{}

/// The difference of samples is a sample of the difference of their whole maps.
pub fn minus_of_samples<X, Y>()
    ensures { (key : X → ℕ) (other : Y → ℕ) (a : Sketch X) (b : Sketch Y) (whole : List X) (lost : List Y)
        → IsSample key a whole
        → IsSample other b lost
        → IsSample key (minus key other a b) (lacking key other whole lost) }
{}
