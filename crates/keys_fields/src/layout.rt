//! How a line is read.
ghost use Rattle.std.specs.Prelude.{◌≡◌, ◌++◌, ◌∷◌, [], if◌then◌else◌, OnOk};
ghost use Rattle.keys_fields.specs.Lines.{is_blank, joined, plain_line, separator_of, stripped, without_return, words_of};

use std::alloc::AllocError;

/// How a line is read as fields.
#[derive(Clone, Copy, Debug, PartialEq, Eq)]
pub struct Layout {
    /// The byte between two fields, if they aren't separated by blanks.
    pub separator: u8,
    /// Whether fields are separated by blanks, spaces and tabs. One tab is then read for each run of them, and nothing
    /// for those at the start and at the end of a line.
    pub blanks: bool,
    /// Whether a CR at the end of a line is a part of this end.
    pub returns: bool,
}

/// The byte between two words of a line.
const TAB: u8 = b'\t';

/// Whether a byte is a blank.
#[inline(always)]
fn is_blank(byte: u8) -> bool
    ensures { result ≡ is_blank byte }
{
    byte == b' ' || byte == TAB
}

/// A line without a CR at its end.
#[inline(always)]
fn without_return(line: &[u8]) -> &[u8]
    ensures { result.now ≡ without_return line.entry.now }
{
    let length = line.len();
    if length == 0 {
        return line;
    }
    if line[length - 1] == b'\r' {
        &line[..length - 1]
    } else {
        line
    }
}

/// Appends a byte, and a tab in front of it if one is due. If memory is refused, the tab may be appended.
#[inline(always)]
fn push_spaced(is_due: bool, byte: u8, to: &mut Vec<u8>) -> Result<(), AllocError>
    ensures { OnOk result (to.new.items ≡ (to.old.items ++ (if is_due then 9 ∷ [] else [])) ++ byte ∷ []) }
{
    if is_due {
        to.push(TAB)?;
    }
    to.push(byte)?;
    Ok(())
}

/// Appends the words of a line, with a tab between two. If memory is refused, some of these bytes may be appended.
fn push_words(line: &[u8], to: &mut Vec<u8>) -> Result<(), AllocError>
    ensures { OnOk result (to.new.items ≡ to.old.items ++ joined 9 (words_of line.now)) }
{
    let mut is_behind = false;
    let mut is_due = false;
    for i in 0..line.len() {
        let byte = line[i];
        if is_blank(byte) {
            is_due = is_behind;
        } else {
            push_spaced(is_due, byte, to)?;
            is_behind = true;
            is_due = false;
        }
    }
    Ok(())
}

impl Layout {
    /// The byte between the fields of a line as it is read.
    #[inline(always)]
    pub(crate) fn separator(self) -> u8
        ensures { result ≡ separator_of self }
    {
        if self.blanks { TAB } else { self.separator }
    }

    /// A line without its CR, if that is a part of its end.
    #[inline(always)]
    pub(crate) fn stripped(self, line: &[u8]) -> &[u8]
        ensures { result.now ≡ stripped self line.entry.now }
    {
        if self.returns {
            without_return(line)
        } else {
            line
        }
    }

    /// Appends a line as it is read. If memory is refused, some of its bytes may be appended.
    pub(crate) fn push_plain(self, line: &[u8], to: &mut Vec<u8>) -> Result<(), AllocError>
        ensures { OnOk result (to.new.items ≡ to.old.items ++ plain_line self line.now) }
    {
        if self.blanks {
            push_words(self.stripped(line), to)
        } else {
            to.extend_from_slice(self.stripped(line))
        }
    }
}
