//! What a line is passed on as.
ghost use Rattle.std.specs.Prelude.{◌≡◌, ◌++◌, ℕ, List, Some, None, OnOk, IfErr, OnErr};
ghost use Rattle.keys_fields.specs.declared.chosen.Refused.TheVariants.{Unfit};
ghost use Rattle.keys_fields.specs.Chosen.{line_for};
ghost use Rattle.keys_fields.specs.Mapping.{count_with};
ghost use Rattle.keys_fields.specs.Passing.{bytes_for, is_left_out, lacks_number};

use crate::chosen::{Chosen, Refused, push_byte};
use crate::layout::Layout;
use keys_sums::{Amount, amount_in};
use std::io;
use std::io::ErrorKind;

/// What lines are passed on as.
#[derive(Drop)]
pub(crate) struct Passing {
    /// How a line is read.
    pub(crate) layout: Layout,
    /// Its parts that are passed on; the whole line if it is `None`.
    pub(crate) chosen: Option<Chosen>,
    /// What a line that is passed on adds: if that is no number, it is left out. No line is if it is `None`.
    pub(crate) amount: Option<Amount>,
}

/// Whether a line should add such a number, and adds none.
fn lacks_number(amount: Option<Amount>, line: &[u8]) -> bool
    ensures { result ≡ lacks_number amount line.now }
{
    match amount {
        None => false,
        Some(amount) => amount_in(amount, line).is_none(),
    }
}

/// The error of a read at a line that isn't passed on.
fn error_of(refused: Refused) -> io::Error {
    match refused {
        Refused::Memory => io::Error::from(ErrorKind::OutOfMemory),
        Refused::Unfit => io::Error::new(
            ErrorKind::InvalidData,
            "a byte 30 or 31 in a chosen field: choose one field by its number",
        ),
    }
}

impl Passing {
    /// Makes `made` the line that a line is passed on as, without its LF.
    fn make(&self, line: &[u8], plain: &mut Vec<u8>, made: &mut Vec<u8>) -> Result<(), Refused>
        ensures ok { OnOk result (line_for self.now.layout self.now.chosen line.now ≡ Some made.new.items) }
        ensures unfit { IfErr result (λ e. e ≡ Unfit → line_for self.now.layout self.now.chosen line.now ≡ None) }
    {
        made.clear();
        match &self.chosen {
            None => self.layout.push_plain(line, made)?,
            Some(chosen) => {
                plain.clear();
                self.layout.push_plain(line, plain)?;
                chosen.push_parts(self.layout.separator(), plain, made)?;
            }
        }
        Ok(())
    }

    /// Puts a line that has ended to those that wait, or counts it if it is left out. If it fails, neither changes.
    pub(crate) fn put(
        &self,
        line: &[u8],
        plain: &mut Vec<u8>,
        made: &mut Vec<u8>,
        waiting: &mut Vec<u8>,
        left_out: &mut u64,
    ) -> io::Result<()>
        ensures ok { OnOk result (
            (bytes : List ℕ) × (bytes_for self.now line.now ≡ Some bytes) × (waiting.new.items ≡ waiting.old.items ++ bytes)) }
        ensures counted { OnOk result (left_out.new ≡ count_with (is_left_out self.now line.now) left_out.old) }
        ensures err { OnErr result ((waiting.new.items ≡ waiting.old.items) × (left_out.new ≡ left_out.old)) }
    {
        if let Err(refused) = self.make(line, plain, made) {
            return Err(error_of(refused));
        }
        if lacks_number(self.amount, made) {
            *left_out = left_out.saturating_add(1);
            return Ok(());
        }
        push_byte(b'\n', made)?;
        waiting.extend_from_slice(made)?;
        Ok(())
    }
}
