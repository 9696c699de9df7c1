//! Laws of the definitions, each the contract of a function that does nothing.
ghost use Rattle.std.specs.Prelude.{◌≡◌, ℕ, List, Some, map};
ghost use Rattle.std.specs.List.{count_by, filter};
ghost use Rattle.keys_sums.specs.declared.addends.Amount.{Amount};
ghost use Rattle.keys_fields.specs.declared.passing.Passing.{Passing};
ghost use Rattle.keys_fields.specs.Chosen.{line_for};
ghost use Rattle.keys_fields.specs.Mapping.{lines_for};
ghost use Rattle.keys_fields.specs.Passing.{adding, adds_number, bytes_for, is_left_out, lacks_number, lines_text};

/// If lines without a number are left out, what is passed on are the others, each with an LF, as they would be passed on
/// beside these.
pub fn lines_with_numbers_are_passed()
    ensures { (passing : Passing) (amount : Amount) (lines passed : List (List ℕ))
        → map (line_for passing.layout passing.chosen) lines ≡ map Some passed
        → lines_for (bytes_for (adding passing amount)) lines ≡ Some (lines_text (filter (adds_number amount) passed)) }
{}

/// .. and as many are left out as lack a number.
pub fn lines_without_numbers_are_counted()
    ensures { (passing : Passing) (amount : Amount) (lines passed : List (List ℕ))
        → map (line_for passing.layout passing.chosen) lines ≡ map Some passed
        → count_by (is_left_out (adding passing amount)) lines ≡ count_by (lacks_number (Some amount)) passed }
{}
