//! Laws of the definitions, each the contract of a function that does nothing.
ghost use Rattle.std.specs.Prelude.{◌≡◌, ℕ, List, Some, map};
ghost use Rattle.keys_lines.specs.Lines.{lines_of};
ghost use Rattle.keys_records.specs.declared.form.Form.{Form};
ghost use Rattle.keys_records.specs.Steps.{first_place, text_of};
ghost use Rattle.keys_records.specs.Spelling.{IsSeparator, HasRecords, passed, line_of, lines_text};

/// What a new reader of a text of records has left: the line of each record, with its LF, but none of the header.
pub fn records_are_passed()
    ensures { (form : Form) (records : List (List (List ℕ))) (text : List ℕ)
        → IsSeparator form.separator
        → HasRecords form records text
        → text_of form (first_place form) text ≡ Some (lines_text form.columns (passed form records)) }
{}

/// The lines of what is passed on are the lines of the records.
pub fn records_are_lines()
    ensures { (form : Form) (records : List (List (List ℕ))) (text : List ℕ)
        → HasRecords form records text
        → lines_of (lines_text form.columns (passed form records)) ≡ map (line_of form.columns) (passed form records) }
{}

/// A text that isn't refused spells records, and each chosen value of those that are passed on fits a line. So whatever
/// spells none is refused.
pub fn others_are_flawed()
    ensures { (form : Form) (text : List ℕ) (lines : List ℕ)
        → IsSeparator form.separator
        → text_of form (first_place form) text ≡ Some lines
        → (records : List (List (List ℕ))) × HasRecords form records text }
{}
