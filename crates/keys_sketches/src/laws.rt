//! Laws of the definitions, each the contract of a function that does nothing.
ghost use Rattle.std.specs.Prelude.{◌≡◌, ℕ, List, length};
ghost use Rattle.std.specs.List.{concat};
ghost use Rattle.keys_sketches.specs.Keys.{value_of_lines, sketch_of_value, image_of_text, HaveSameLines};
ghost use Rattle.keys_lines.specs.Lines.{lines_of, AreWhole};
ghost use Rattle.keys_lines.specs.declared.key.Hashing.{Hashing};
ghost use Rattle.core_compact.specs.CompactState.{Compact};
ghost use Rattle.theta_sketches.specs.Image.{Reads, IsReadable, written};
ghost use Rattle.keys_sketches.specs.Header.{BeginsWithImage, entry_count, flaw_of, MayBeRead};
ghost use Rattle.core_laws.specs.Values.{Sketch};
ghost use Rattle.keys_sketches.specs.Shards.{united, values_of_sketches, AreRead, AreReadAsTexts, AreValuesOfTexts};

use theta_sketches::laws::one_reading;

/// If each text but the last is empty or ends in an LF, the union of the texts' sketches has the value of the
/// concatenated texts. Each text may be sketched with more nominal entries than the union has.
pub fn shards_unite()
    ensures { (hashing : Hashing) (lg_k : ℕ) (texts : List (List ℕ)) (values : List (Sketch ℕ))
        → AreWhole texts
        → AreValuesOfTexts hashing lg_k texts values
        → united lg_k values ≡ value_of_lines hashing lg_k (lines_of (concat texts)) }
{}

/// If each text but the last is empty or ends in an LF, then sketching the texts apart, writing and reading the
/// sketches, and uniting them gives the image of the concatenated texts. Each text may be sketched with more nominal
/// entries than the union has.
pub fn images_unite()
    ensures { (hashing : Hashing) (lg_k : ℕ) (texts images : List (List ℕ)) (sketches : List (Compact ℕ))
        → AreWhole texts
        → AreReadAsTexts hashing lg_k images texts
        → AreRead hashing.seed images sketches
        → written (sketch_of_value hashing.seed (united lg_k (values_of_sketches sketches)))
        ≡ image_of_text hashing lg_k (concat texts) }
{
    one_reading();
}

/// The value of lines doesn't depend on their order or on repeats.
pub fn lines_in_any_order()
    ensures { (hashing : Hashing) (lg_k : ℕ) (lines others : List (List ℕ))
        → HaveSameLines lines others
        → value_of_lines hashing lg_k lines ≡ value_of_lines hashing lg_k others }
{}

/// Bytes that are read as a sketch begin with an image of `image_length` bytes, which alone is read as the same
/// sketch.
pub fn image_begins()
    ensures { (bytes : List ℕ) (h : ℕ) (s : Compact ℕ) → Reads bytes h s → BeginsWithImage bytes h s }
{}

/// Bytes that are read as a sketch have `entry_count` hashes.
pub fn entries_counted()
    ensures { (bytes : List ℕ) (h : ℕ) (s : Compact ℕ) → Reads bytes h s → entry_count bytes ≡ length s.entries }
{}

/// Bytes that are read under a seed hash have no flaw but `BigEndian`, `Longer` or `Damaged`.
pub fn flawed_is_unread()
    ensures { (bytes : List ℕ) (h : ℕ) → IsReadable bytes h → MayBeRead (flaw_of h bytes) }
{}
