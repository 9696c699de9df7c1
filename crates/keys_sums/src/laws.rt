//! Laws of sums of lines and of their images, each the contract of a function that does nothing, so that a caller can
//! use it.
ghost use Rattle.std.specs.Prelude.{◌≡◌, ◌≤◌, ◌<◌, ◌^◌, ℕ, List, true, false, length};
ghost use Rattle.core_compact.specs.CompactState.{Compact};
ghost use Rattle.core_laws.specs.declared.TheConstants.{MAX_THETA};
ghost use Rattle.core_slots.specs.declared.entry.TupleEntry.{TupleEntry};
ghost use Rattle.keys_sketches.specs.Header.{MayBeRead, sums_count, sums_flaw_of};
ghost use Rattle.keys_lines.specs.declared.key.Hashing.{Hashing};
ghost use Rattle.totals.specs.Totals.{sum_of, total_of};
ghost use Rattle.tuple_sketches.specs.declared.numbers.SummaryMode.TheVariants.{Sum};
ghost use Rattle.keys_sums.specs.Bins.{is_in, IsInOneBin, HasNumber};
ghost use Rattle.keys_sums.specs.Images.{AreReadableSums, BeginsWithSums, ReadsSums};
ghost use Rattle.keys_sums.specs.Sums.{sum_below, sketch_of_sums};
ghost use Rattle.keys_sums.specs.declared.bins.TheConstants.{BINS};

/// The sums that a sketch retains have together what all lines add whose hashes are from 1 to below its theta. So an
/// exact total is the sum of what all lines add, but those whose hash is 0 or `MAX_THETA`, which no sketch retains.
pub fn sums_are_of_lines_below_theta()
    ensures retained { (hashing : Hashing) (amount : List ℕ → ℕ) (lg_k : ℕ) (lines : List (List ℕ))
        → lg_k ≤ 26
        → sum_of (sketch_of_sums Sum hashing amount lg_k lines).entries
        ≡ sum_below hashing amount (sketch_of_sums Sum hashing amount lg_k lines).theta lines }
    ensures exact { (hashing : Hashing) (amount : List ℕ → ℕ) (lg_k : ℕ) (lines : List (List ℕ))
        → lg_k ≤ 26
        → (total_of (sketch_of_sums Sum hashing amount lg_k lines)).exact ≡ true
        → (total_of (sketch_of_sums Sum hashing amount lg_k lines)).total ≡ sum_below hashing amount MAX_THETA lines }
{}

/// Bytes that are read as a sketch of sums begin with an image of `keys_sketches::sums_length` bytes, which alone is
/// read as the same sketch.
pub fn sums_image_begins()
    ensures { (bytes : List ℕ) (h : ℕ) (s : Compact (TupleEntry ℕ)) → ReadsSums bytes h s → BeginsWithSums bytes h s }
{}

/// Bytes that are read as a sketch of sums have `keys_sketches::sums_count` sums.
pub fn sums_counted()
    ensures { (bytes : List ℕ) (h : ℕ) (s : Compact (TupleEntry ℕ))
        → ReadsSums bytes h s
        → sums_count bytes ≡ length s.entries }
{}

/// Bytes that are read as a sketch of sums under a seed hash have no flaw but `BigEndian`, `Longer` or `Damaged`.
pub fn flawed_is_no_sums()
    ensures { (bytes : List ℕ) (h : ℕ) → AreReadableSums bytes h → MayBeRead (sums_flaw_of h bytes) }
{}

/// Each number from 1 to 2^64 - 1 is in exactly one of the bins, and 0 is in none. There are 65 bins, none of them
/// needless: each has one of these numbers.
pub fn numbers_are_in_one_bin()
    ensures once { (number : ℕ) → 1 ≤ number → number < 2 ^ 64 → IsInOneBin number }
    ensures zero { (bin : ℕ) → is_in bin 0 ≡ false }
    ensures needed { (bin : ℕ) → bin < BINS → HasNumber bin }
    ensures count { BINS ≡ 65 }
{}
