//! Laws of reports and names: each is the contract of a function that does nothing, so that a caller can use it.
ghost use Rattle.std.specs.Prelude.{ℕ, ◌<◌, List};
ghost use Rattle.std.specs.Char.{is_control};
ghost use Rattle.std.specs.Str.{NoCharPasses};
ghost use Rattle.core_compact.specs.CompactState.{Compact, IsCompact};
ghost use Rattle.core_laws.specs.Entries.{hash_key};
ghost use Rattle.keys_reports.specs.Names.{escaped_name};
ghost use Rattle.keys_reports.specs.Reports.{IsConsistent, report_of};

/// The numbers of a report agree with one another, for any standard deviations.
pub fn reports_are_consistent()
    ensures { (z : ℕ) (s : Compact ℕ) → 0 < z → IsCompact hash_key s → IsConsistent (report_of z s) }
{}

/// An escaped name has no control character: it stays on its line, and in its column.
pub fn escaped_names_stay_on_their_line()
    ensures { (name : List ℕ) → NoCharPasses is_control (escaped_name name) }
{}
