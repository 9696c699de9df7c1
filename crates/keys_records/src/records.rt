//! A reader of records.
ghost use Rattle.std.specs.Prelude.{◌≡◌, ◌<◌, ℕ, List, [], Some, false, take, length, IfOk};
ghost use Rattle.std.specs.Io.{ReadsAtMost};
ghost use Rattle.std.specs.Io.KnownBytes.{ReadConsumes};
ghost use Rattle.keys_records.specs.Steps.{first_place, form_with, record_place, text_of};
ghost use Rattle.keys_records.specs.declared.stage.Stage.TheVariants.{Reading};
ghost use Rattle.keys_records.specs.Stages.{records_remaining, Passes, HasNone};

use crate::form::{Columns, Form};
use crate::place::Place;
use crate::stage::{Stage, finish};
use keys_sketches::TextReader;
use std::io;
use std::io::{ErrorKind, Read};

/// A reader of the records of a text, each as a line, over a reader of the text. It keeps no byte: a read of it is one
/// read of the other, except that bytes of which nothing is passed on are read past.
///
/// ```
/// let mut reader = Records::new(file, form);
/// ```
#[derive(Drop)]
pub struct Records<R> {
    inner: R,
    form: Form,
    stage: Stage,
    /// The number of the line of the text that the next byte is in, for messages.
    line: u64,
}

impl<R: Read> Records<R> {
    /// The records of a text, of which the reader has read nothing.
    pub fn new(inner: R, form: Form) -> Records<R>
        ensures { (text : List ℕ)
            → R.remaining inner ≡ Some text
            → records_remaining R.remaining result ≡ text_of form (first_place form) text }
    {
        Records {
            inner,
            form,
            stage: Stage::Reading(Place::first(form)),
            line: 1,
        }
    }

    /// The same records, of which other fields are chosen, if the next byte is the first of a record; else the reader as it
    /// is. No record is passed over.
    pub fn choosing(self, columns: Columns) -> Records<R>
        ensures { (text : List ℕ)
            → R.remaining self.inner ≡ Some text
            → self.stage ≡ Reading (record_place self.form)
            → records_remaining R.remaining result
            ≡ text_of (form_with self.form columns) (record_place (form_with self.form columns)) text }
    {
        match self.stage {
            Stage::Reading(place) if place.is_start() => {
                let form = Form {
                    separator: self.form.separator,
                    header: false,
                    columns,
                };
                Records {
                    stage: Stage::Reading(Place::first(form)),
                    form,
                    ..self
                }
            }
            _ => self,
        }
    }

    /// All that the reader has left.
    pub fn whole(inner: R) -> Records<R>
        ensures { (text : List ℕ)
            → R.remaining inner ≡ Some text
            → records_remaining R.remaining result ≡ Some text }
    {
        Records {
            inner,
            form: Form {
                separator: b',',
                header: false,
                columns: Columns::new(0, 0, 0),
            },
            stage: Stage::Whole,
            line: 1,
        }
    }
}

impl<R: Read> Read for Records<R> {
    ghost remaining = { records_remaining R.remaining };

    /// A failed or interrupted read of the text is returned, and loses no byte. At a flaw the error is `InvalidData`,
    /// and each read behind it fails too.
    fn read(&mut self, buf: &mut [u8]) -> io::Result<usize>
        ensures bound { ReadsAtMost result buf.new }
        ensures bytes { ReadConsumes (records_remaining R.remaining self.old) (records_remaining R.remaining self.new)
            result buf.new }
        ensures passes { IfOk result (λ count. Passes R.remaining self.old self.new (take count buf.new)) }
        ensures end { IfOk result (λ count. count ≡ 0 → 0 < length buf.new → HasNone R.remaining self.new) }
    {
        for _ in 0..u64::MAX {
            if buf.is_empty() || self.stage.is_ended() {
                return Ok(0);
            }
            if let Some(flaw) = self.stage.flaw() {
                return Err(flaw.error(self.line));
            }
            let length = self.inner.read(buf)?;
            if length == 0 {
                return finish(&mut self.stage, self.line, buf);
            }
            let (stage, count) = self
                .stage
                .after(self.form, &mut self.line, &mut buf[..length]);
            self.stage = stage;
            if 0 < count {
                return Ok(count);
            }
        }
        Err(io::Error::from(ErrorKind::Interrupted))
    }
}

impl<R: TextReader> TextReader for Records<R> {
    ghost use Rattle.std.specs.Prelude.{true};

    ghost may_fail = { true };

    /// True, since a text may be flawed.
    fn may_fail() -> bool {
        true
    }
}
