//! The stages of a reader of records, and what they pass on of a block of bytes.
ghost use Rattle.std.specs.Prelude.{◌≡◌, ℕ, List, [], ◌++◌, ◌∷◌, ◌≤◌, length, take, Some, None, true, IfOk, OnErr, IfSome, ◌<◌};
ghost use Rattle.std.specs.Io.KnownBytes.{prepend_known};
ghost use Rattle.keys_records.specs.declared.form.Form.{Form};
ghost use Rattle.keys_records.specs.Steps.{text_of};
ghost use Rattle.keys_records.specs.Stages.{rest_of, Finishes};

use crate::flaw::Flaw;
use crate::form::Form;
use crate::place::{End, Place, Stay, Step};
use std::io;

/// How far a reader of records is.
#[derive(Clone, Copy, Debug, PartialEq, Eq)]
pub(crate) enum Stage {
    /// All bytes are passed on.
    Whole,
    /// The next byte is at a place of a record.
    Reading(Place),
    /// No byte is passed on.
    Ended,
    /// Each read fails.
    Flawed(Flaw),
}

/// Moves what is passed on of a block to its front. Returns the number of these bytes, and the stage behind the block;
/// none if the block shows a flaw. `line` counts the lines up to the flaw or the end of the block.
fn pass(form: Form, start: Place, line: &mut u64, block: &mut [u8]) -> (Stage, usize)
    ensures within { result.1 ≤ length block.old }
    ensures kept { length block.new ≡ length block.old }
    ensures passes { (more : List ℕ)
        → text_of form start (block.old ++ more) ≡ prepend_known (take result.1 block.new) (rest_of form result.0 more) }
{
    let mut place = start;
    let mut count = 0;
    for i in 0..block.len() {
        let byte = block[i];
        match place.stay(form, byte) {
            Stay::Shown => {
                block[count] = byte;
                count += 1;
            }
            Stay::Dropped => {}
            Stay::Unknown => match place.step(form, byte) {
                Step::Shows(shown, next) => {
                    block[count] = shown;
                    count += 1;
                    place = next;
                }
                Step::Drops(next) => {
                    place = next;
                }
                Step::Flawed(flaw) => return (Stage::Flawed(flaw), 0),
            },
        }
        *line = line.wrapping_add((byte == b'\n') as u64);
    }
    (Stage::Reading(place), count)
}

impl Stage {
    /// Moves what is passed on of a block to its front. Returns the number of these bytes, and the stage behind the
    /// block. `line` counts the lines.
    pub(crate) fn after(self, form: Form, line: &mut u64, block: &mut [u8]) -> (Stage, usize)
        ensures within { result.1 ≤ length block.old }
        ensures kept { length block.new ≡ length block.old }
        ensures passes { (more : List ℕ)
            → rest_of form self (block.old ++ more) ≡ prepend_known (take result.1 block.new) (rest_of form result.0 more) }
    {
        match self {
            Stage::Whole => (Stage::Whole, block.len()),
            Stage::Reading(place) => pass(form, place, line, block),
            Stage::Ended => (Stage::Ended, 0),
            Stage::Flawed(flaw) => (Stage::Flawed(flaw), 0),
        }
    }

    /// Whether nothing is passed on from here.
    pub(crate) fn is_ended(self) -> bool
        ensures { (form : Form) (text : List ℕ) → result ≡ true → rest_of form self text ≡ Some [] }
    {
        matches!(self, Stage::Ended)
    }

    /// The flaw that each read fails with, if it does.
    pub(crate) fn flaw(self) -> Option<Flaw>
        ensures { (form : Form) (text : List ℕ) → IfSome result (λ _. rest_of form self text ≡ None) }
    {
        match self {
            Stage::Flawed(flaw) => Some(flaw),
            _ => None,
        }
    }
}

/// The end of the text: passes on the LF that the last record may lack. Fails if the end shows a flaw.
pub(crate) fn finish(stage: &mut Stage, line: u64, buf: &mut [u8]) -> io::Result<usize>
    requires room { 0 < length buf.old }
    ensures kept { length buf.new ≡ length buf.old }
    ensures ends { (form : Form) → IfOk result (λ count. Finishes form stage.old stage.new (take count buf.new)) }
    ensures within { IfOk result (λ count. count ≤ length buf.old) }
    ensures fails { (form : Form) → OnErr result (rest_of form stage.old [] ≡ None) }
{
    match *stage {
        Stage::Reading(place) => match place.end() {
            End::Ends => {
                *stage = Stage::Ended;
                buf[0] = b'\n';
                Ok(1)
            }
            End::Rests => Ok(0),
            End::Fails(flaw) => {
                *stage = Stage::Flawed(flaw);
                Err(flaw.error(line))
            }
        },
        Stage::Flawed(flaw) => Err(flaw.error(line)),
        _ => Ok(0),
    }
}
