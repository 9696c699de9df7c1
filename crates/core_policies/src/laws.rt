//! Laws of updates by a policy: each is the contract of a function that does nothing, so that a caller can use it.
ghost use Rattle.std.specs.Prelude.{◌≡◌, ℕ, List, Option, true};
ghost use Rattle.core_laws.specs.Entries.{is_carried};
ghost use Rattle.core_laws.specs.Folds.{fold_key, folded_of};
ghost use Rattle.core_laws.specs.Leaf.{KeepsHashes, whole};
ghost use Rattle.core_laws.specs.declared.leaf.LeafStep.{LeafStep};
ghost use Rattle.core_laws.specs.Maps.{entry_at};
ghost use Rattle.core_slots.specs.Entry.{tuple_key};
ghost use Rattle.core_policies.specs.Summaries.{update_step, values_at, fold_at};

/// The steps of updates write and make entries of the inserted hash.
pub fn updates_keep_hashes<S, U>()
    ensures { (creates : Option S) (updates : S → U → Option S) → KeepsHashes tuple_key (update_step creates updates) }
{}

/// After any steps the whole map has, at each hash that may be retained, the created summary updated in order with
/// the values added there since the last reset; and the mark if the policy refused to create it or to update it with
/// one of them.
pub fn values_fold_in_order<S, U>()
    ensures { (creates : Option S) (updates : S → U → Option S) (steps : List (LeafStep U)) (h : ℕ)
        → is_carried h ≡ true
        → entry_at (fold_key tuple_key)
        (whole (fold_key tuple_key) (folded_of tuple_key (update_step creates updates)) steps) h
        ≡ fold_at creates updates h (values_at h steps) }
{}
