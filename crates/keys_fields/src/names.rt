//! The names of fields.
ghost use Rattle.std.specs.Prelude.{◌≡◌};
ghost use Rattle.keys_fields.specs.Names.{place_in};

use keys_lines::cut_at;

/// The place, from 0, of the first field of a line that is this name; `None` if none is.
pub fn place_in(separator: u8, name: &[u8], line: &[u8]) -> Option<u64>
    ensures { result ≡ place_in separator name.now line.now }
{
    let mut rest = line;
    let mut passed = 0;
    while let Some((field, others)) = cut_at(rest, separator) {
        if field == name {
            return Some(passed);
        }
        rest = others;
        passed += 1;
    }
    if rest == name { Some(passed) } else { None }
}
