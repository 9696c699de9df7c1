//! The chosen fields of a line.
ghost use Rattle.std.specs.Prelude.{◌≡◌, ◌++◌, ◌∷◌, [], true, false, if◌then◌else◌, OnOk, IfErr};
ghost use Rattle.keys_fields.specs.declared.chosen.Refused.TheVariants.{Memory, Unfit};
ghost use Rattle.keys_fields.specs.Lines.{joined};
ghost use Rattle.keys_fields.specs.Chosen.{field_at, fields_at, is_free, has_byte, part_text, part_fits, any_text, any_fits};
ghost use Rattle.keys_fields.specs.Chosen.{parts_text, parts_fit};
ghost use Rattle.std.specs.List.{list_all};

use keys_lines::cut_at;
use std::alloc::AllocError;

/// The byte between two fields of a part: the unit separator of ASCII.
pub const BETWEEN: u8 = 31;
/// The byte between two parts of a line: the record separator of ASCII.
pub const PARTS: u8 = 30;

/// A part of a line.
#[derive(Drop)]
pub struct Part {
    /// The places of its fields, from 0, in their order. Without a place it is the whole line.
    pub places: Vec<u64>,
    /// The most bytes that it has: of a longer one the first so many.
    pub most: usize,
}

/// The chosen parts of a line.
#[derive(Drop)]
pub struct Chosen {
    /// Its key.
    pub key: Part,
    /// The name of its group.
    pub group: Option<Part>,
    /// Its number.
    pub value: Option<Part>,
}

/// Why a line isn't passed on.
#[derive(Clone, Copy, Debug, PartialEq, Eq)]
pub(crate) enum Refused {
    /// Memory is refused.
    Memory,
    /// A chosen field has a byte that is put between fields or parts.
    Unfit,
}

impl From<AllocError> for Refused {
    ghost from_gives = { λ _ refused. refused ≡ Memory };

    fn from(_: AllocError) -> Refused {
        Refused::Memory
    }
}

/// Appends a byte.
pub(crate) fn push_byte(byte: u8, to: &mut Vec<u8>) -> Result<(), AllocError>
    ensures { OnOk result (to.new.items ≡ to.old.items ++ byte ∷ []) }
{
    to.push(byte)?;
    Ok(())
}

/// The field at a place, from 0; nothing if the line has fewer.
fn field_at(separator: u8, place: u64, line: &[u8]) -> &[u8]
    ensures { result.now ≡ field_at separator place line.now }
{
    let mut rest = line;
    for passed in 0..place {
        match cut_at(rest, separator) {
            Some((_, others)) => rest = others,
            None => return &[],
        }
    }
    match cut_at(rest, separator) {
        Some((field, _)) => field,
        None => rest,
    }
}

/// Whether a text has a byte.
fn has_byte(byte: u8, text: &[u8]) -> bool
    ensures { result ≡ has_byte byte text.now }
{
    text.contains(&byte)
}

/// Whether a text has neither of the bytes that are put between fields and parts.
fn is_free(text: &[u8]) -> bool
    ensures { result ≡ is_free text.now }
{
    !has_byte(PARTS, text) && !has_byte(BETWEEN, text)
}

/// Whether the fields at these places have neither of the bytes that are put between fields and parts.
fn fields_fit(separator: u8, places: &[u64], line: &[u8]) -> bool
    ensures { result ≡ list_all is_free (fields_at separator places.now line.now) }
{
    for place in places {
        if !is_free(field_at(separator, *place, line)) {
            return false;
        }
    }
    true
}

/// Appends a field, in front of it `BETWEEN` unless it is the first. If memory is refused, some of these bytes may be
/// appended.
fn push_next(is_first: bool, field: &[u8], to: &mut Vec<u8>) -> Result<(), AllocError>
    ensures { OnOk result (to.new.items ≡ to.old.items ++ (if is_first then field.now else 31 ∷ field.now)) }
{
    if !is_first {
        to.push(BETWEEN)?;
    }
    to.extend_from_slice(field)
}

/// Appends the fields at these places, with `BETWEEN` between two. If memory is refused, some of these bytes may be
/// appended.
fn push_fields(
    separator: u8,
    places: &[u64],
    line: &[u8],
    to: &mut Vec<u8>,
) -> Result<(), AllocError>
    ensures { OnOk result (to.new.items ≡ to.old.items ++ joined 31 (fields_at separator places.now line.now)) }
{
    for i in 0..places.len() {
        push_next(i == 0, field_at(separator, places[i], line), to)?;
    }
    Ok(())
}

impl Part {
    /// Whether the part lacks the byte between parts, and its fields that between fields.
    fn fits(&self, separator: u8, line: &[u8]) -> bool
        ensures { result ≡ part_fits separator self.now line.now }
    {
        if self.places.is_empty() {
            return !has_byte(PARTS, line);
        }
        fields_fit(separator, &self.places, line)
    }

    /// Appends the part. If memory is refused, some of its bytes may be appended.
    fn push_to(&self, separator: u8, line: &[u8], to: &mut Vec<u8>) -> Result<(), AllocError>
        ensures { OnOk result (to.new.items ≡ to.old.items ++ part_text separator self.now line.now) }
    {
        let start = to.len();
        if self.places.is_empty() {
            to.extend_from_slice(line)?;
        } else {
            push_fields(separator, &self.places, line, to)?;
        }
        to.truncate(start.saturating_add(self.most));
        Ok(())
    }
}

/// Whether a part, if it is chosen, lacks the byte between parts, and its fields that between fields.
fn any_fits(part: &Option<Part>, separator: u8, line: &[u8]) -> bool
    ensures { result ≡ any_fits separator part.now line.now }
{
    match part {
        Some(part) => part.fits(separator, line),
        None => true,
    }
}

/// Appends a part that may be chosen. If memory is refused, some of its bytes may be appended.
fn push_any(
    part: &Option<Part>,
    separator: u8,
    line: &[u8],
    to: &mut Vec<u8>,
) -> Result<(), AllocError>
    ensures { OnOk result (to.new.items ≡ to.old.items ++ any_text separator part.now line.now) }
{
    match part {
        Some(part) => part.push_to(separator, line, to),
        None => Ok(()),
    }
}

impl Chosen {
    /// Appends the chosen parts of a line, with `PARTS` between two. If it fails, some of these bytes may be appended.
    pub(crate) fn push_parts(
        &self,
        separator: u8,
        line: &[u8],
        to: &mut Vec<u8>,
    ) -> Result<(), Refused>
        ensures ok { OnOk result (to.new.items ≡ to.old.items ++ parts_text separator self.now line.now) }
        ensures fits { OnOk result (parts_fit separator self.now line.now ≡ true) }
        ensures unfit { IfErr result (λ e. e ≡ Unfit → parts_fit separator self.now line.now ≡ false) }
    {
        let fits = self.key.fits(separator, line)
            && any_fits(&self.group, separator, line)
            && any_fits(&self.value, separator, line);
        if !fits {
            return Err(Refused::Unfit);
        }
        self.key.push_to(separator, line, to)?;
        push_byte(PARTS, to)?;
        push_any(&self.group, separator, line, to)?;
        push_byte(PARTS, to)?;
        push_any(&self.value, separator, line, to)?;
        Ok(())
    }
}
