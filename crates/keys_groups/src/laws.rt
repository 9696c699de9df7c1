//! Laws of the definitions, each the contract of a function that does nothing.
ghost use Rattle.std.specs.Prelude.{◌≡◌, ◌<◌, ℕ, List, None, flat_map};
ghost use Rattle.std.specs.List.{AllByRecursion};
ghost use Rattle.keys_groups.specs.Files.{file_name};
ghost use Rattle.core_laws.specs.Settings.{settings_refusal};
ghost use Rattle.core_laws.specs.declared.TheConstants.{MAX_THETA};
ghost use Rattle.keys_lines.specs.Lines.{lines_of_all};
ghost use Rattle.keys_groups.specs.United.{AreSketchedTexts, IsUnitedText, IsSketchedText};
ghost use Rattle.keys_groups.specs.declared.groups.Grouping.{Grouping};

use theta_sketches::laws::{one_reading, read_again};

/// If each text has the groups of the lines of some sources, with their sketches of at least the union's nominal
/// entries, then the groups of all texts, united, are the groups of the lines of all sources, with their sketches:
/// sketching by groups in parts and uniting by groups gives the same bytes as sketching by groups at once.
pub fn groups_unite()
    ensures { (grouping : Grouping) (sources : List (List (List ℕ))) (texts : List (List ℕ)) (out : List ℕ)
        → settings_refusal grouping.lg_k MAX_THETA grouping.hashing.seed ≡ None
        → AreSketchedTexts grouping sources texts
        → IsUnitedText grouping.hashing.seed grouping.lg_k (lines_of_all texts) out
        → IsSketchedText grouping (lines_of_all (flat_map (λ part. part) sources)) out }
{
    one_reading();
    read_again();
}

/// Groups of different names have files of different names.
pub fn files_apart()
    ensures { (name other : List ℕ)
        → AllByRecursion (λ byte. byte < 256) name
        → AllByRecursion (λ byte. byte < 256) other
        → file_name name ≡ file_name other
        → name ≡ other }
{}
