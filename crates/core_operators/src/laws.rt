//! Laws of operators, over what their contracts ensure: each is the contract of a function that does nothing.
ghost use Rattle.std.specs.Prelude.{◌≡◌, ℕ, ◌<◌, ◌^◌, List, [], ◌∷◌, false, Bool};
ghost use Rattle.core_laws.specs.Maps.{IsAscending, map_of, IsApart};
ghost use Rattle.core_laws.specs.Folds.{fold_key, fold_merges, unmarked_value};
ghost use Rattle.core_laws.specs.Operators.{unite};
ghost use Rattle.core_laws.specs.Values.{NonEmpty};
ghost use Rattle.core_operators.specs.Union.{Union, IsUnion, IsJoined, union_value};
ghost use Rattle.core_laws.specs.Entries.{Merging};

/// The clause `joined` of an update implies that the union's new value is the union of its old value and the input,
/// without marks.
pub fn joined_is_united<X, P>()
    ensures { (m : Merging X) (refuses : X → X → Bool) (old new : Union X P) (theta : ℕ) (xs : List X)
        → IsUnion old
        → old.failed ≡ false
        → IsAscending m.key old.content.entries
        → IsApart m.key xs
        → IsJoined m.key m.merges refuses old new theta xs
        → unmarked_value (union_value m.key new)
        ≡ unite (fold_key m.key) (fold_merges m.key m.merges refuses) (2 ^ old.lg_k) old.start
        (unmarked_value (union_value m.key old)
        ∷ unmarked_value (NonEmpty (record { entries = map_of m.key xs; theta = theta }))
        ∷ []) }
{}
