//! Laws of the definitions, each the contract of a function that does nothing.
ghost use Rattle.std.specs.Prelude.{◌≡◌, ◌<◌, ℕ, List};
ghost use Rattle.std.specs.List.{concat};
ghost use Rattle.keys_lines.specs.Lines.{lines_of, lines_of_all};
ghost use Rattle.keys_lines.specs.declared.key.Hashing.{Hashing};
ghost use Rattle.core_laws.specs.Values.{Sketch};
ghost use Rattle.keys_sketches.specs.Keys.{value_of_lines};
ghost use Rattle.keys_sketches.specs.Shards.{united, AreValuesOfTexts};
ghost use Rattle.keys_parts.specs.Parts.{parts_of};

/// The parts of a text, one after another, are the text, however many there are.
pub fn parts_join()
    ensures { (text : List ℕ) (parts : ℕ) → 0 < parts → concat (parts_of text parts) ≡ text }
{}

/// The lines of the parts of a text, one part after another, are the lines of the text: each line is in one part.
pub fn parts_hold_lines()
    ensures { (text : List ℕ) (parts : ℕ) → 0 < parts → lines_of_all (parts_of text parts) ≡ lines_of text }
{}

/// If the parts of a text are sketched apart, the union of their sketches has the value of the text. Each part may be
/// sketched with more nominal entries than the union has.
pub fn parts_unite()
    ensures { (hashing : Hashing) (lg_k : ℕ) (text : List ℕ) (parts : ℕ) (values : List (Sketch ℕ))
        → 0 < parts
        → AreValuesOfTexts hashing lg_k (parts_of text parts) values
        → united lg_k values ≡ value_of_lines hashing lg_k (lines_of text) }
{}
