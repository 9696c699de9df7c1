//! Laws of the definitions alone.
ghost use Rattle.std.specs.Prelude.{◌≡◌, ◌≢◌, ℕ, ◌≤◌, ◌^◌, List, None, if◌then◌else◌};
ghost use Rattle.core_laws.specs.Cuts.{cut};
ghost use Rattle.core_laws.specs.Entries.{hash_key, is_carried};
ghost use Rattle.core_laws.specs.Folds.{fold_key, folded};
ghost use Rattle.core_laws.specs.Insertion.{upsert_refusal};
ghost use Rattle.core_laws.specs.Maps.{IsAscending, entry_at};
ghost use Rattle.core_laws.specs.Step.{Step};
ghost use Rattle.core_laws.specs.Values.{Sketch, Empty, NonEmpty, cut_value};
ghost use Rattle.core_table.specs.HashTable.{MapTable, after_insertion};
ghost use Rattle.core_state.specs.Updatable.{Updatable, sketch_value};
ghost use Rattle.core_streams.specs.Folds.{unmarked_table};
ghost use Rattle.core_streams.specs.HashSets.{set_of};
ghost use Rattle.core_streams.specs.WholeMaps.{IsPart, IsSketchOfMap};

/// The value of a sketch is a part of what it was given, and a part for some k is one for fewer. One that isn't Empty
/// and has no more than k entries has the k entries of least key below the start.
pub fn parts_of_whole_maps<X>()
    ensures sketch { (key : X → ℕ) (lg_k start seed : ℕ) (s : Updatable X) (whole : List X)
        → IsSketchOfMap key lg_k start seed s whole →
        IsPart key (2 ^ lg_k) start (sketch_value s) whole }
    ensures fewer { (key : X → ℕ) (k more start : ℕ) (value : Sketch X) (whole : List X)
        → k ≤ more
        → IsPart key more start value whole →
        IsPart key k start value whole }
    ensures least { (key : X → ℕ) (k start : ℕ) (value : Sketch X) (whole : List X) → cut_value key k value ≡ value →
        IsPart key k start value whole → value ≢ Empty → value ≡ NonEmpty (cut key k whole start) }
{}

/// An insertion that isn't refused acts on folds as on entries.
pub fn insertions_in_folds<X>()
    ensures { (key : X → ℕ) (h : ℕ) (step : Step X) (old new : MapTable X) → upsert_refusal key h step old.kept ≡ None →
        new ≡ after_insertion key h step old →
        unmarked_table new ≡ after_insertion (fold_key key) h (folded key h step) (unmarked_table old) }
{}

/// The set of a stream of hashes ascends, and has exactly the stream's hashes that aren't 0, nor `MAX_THETA` or more.
pub fn sets_of_streams()
    ensures ascending { (hashes : List ℕ) → IsAscending hash_key (set_of hashes) }
    ensures found { (hashes : List ℕ) (h : ℕ) →
        entry_at hash_key (set_of hashes) h ≡ if is_carried h then entry_at hash_key hashes h else None }
{}
