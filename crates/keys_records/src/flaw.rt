//! What is wrong with a text.
ghost use Rattle.std.specs.Prelude.{◌≡◌, ◌≤◌};
ghost use Rattle.std.specs.IoError.{error_kind};
ghost use Rattle.std.specs.declared.io.ErrorKind.TheVariants.{InvalidData};

use std::fmt::Write;
use std::io::ErrorKind;
use std::{fmt, io};

/// Why a text isn't records, or why a record isn't a line.
#[derive(Clone, Copy, Debug, PartialEq, Eq)]
pub(crate) enum Flaw {
    /// A quote is in a plain field.
    Quote,
    /// A closing quote has another byte behind it than a separator or a line end.
    Behind,
    /// A CR outside of quotes has no LF behind it.
    Return,
    /// The text ends inside quotes.
    Open,
    /// A chosen field has an LF.
    Lines,
    /// A chosen field has the byte that is between fields.
    Between,
}

impl Flaw {
    /// The flaw in words, at most 50 bytes.
    fn words(self) -> &'static str {
        match self {
            Flaw::Quote => "a quote inside a field that isn't quoted",
            Flaw::Behind => "more text behind a closing quote",
            Flaw::Return => "a CR that no LF follows",
            Flaw::Open => "the text ends inside quotes",
            Flaw::Lines => "a line break inside a chosen field",
            Flaw::Between => "a byte 31 inside a chosen field",
        }
    }

    /// The error that a read returns at this flaw, in the line with this number.
    #[inline(never)]
    pub(crate) fn error(self, line: u64) -> io::Error
        ensures { error_kind result ≡ InvalidData }
    {
        let mut words = Words {
            bytes: [0; ROOM],
            length: 0,
        };
        match write!(words, "line {}: {}", line, self.words()) {
            Ok(()) => io::Error::new(ErrorKind::InvalidData, words.text()),
            Err(_) => io::Error::new(ErrorKind::InvalidData, self.words()),
        }
    }
}

/// How many bytes an error's message may have.
const ROOM: usize = 80;

/// A message that needs no memory.
#[derive(Drop)]
struct Words {
    bytes: [u8; ROOM],
    length: usize,
}

impl Words {
    /// The text so far.
    fn text(&self) -> &str {
        let bytes = &self.bytes[..];
        match std::str::from_utf8(&bytes[..self.length.min(ROOM)]) {
            Ok(text) => text,
            Err(_) => "",
        }
    }
}

impl fmt::Write for Words {
    fn write_str(&mut self, text: &str) -> fmt::Result {
        for byte in text.as_bytes() {
            let length = self.length;
            if length >= ROOM {
                return Err(fmt::Error);
            }
            self.bytes[length] = *byte;
            self.length = length + 1;
        }
        Ok(())
    }
}
