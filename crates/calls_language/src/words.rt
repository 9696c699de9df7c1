//! Words of lines, and the faults that calls and words have.
use keys_sketches::read_hex;
use sketch_base::{Error, ErrorKind};
use std::alloc::{AllocError, AllocFailed, Global};

/// Why a call has no value to answer.
#[derive(Clone, Copy, Debug, PartialEq, Eq)]
pub enum Fault {
    /// The call was made, and refused with an error of this kind.
    Refused(ErrorKind),
    /// An operand could not be made; its error is of this kind.
    Operand(ErrorKind),
    /// A word that is none of the language.
    Unknown,
    /// The call's condition on its caller isn't met.
    Condition,
    /// The program itself has no memory.
    Stopped,
}

impl From<Error> for Fault {
    fn from(error: Error) -> Fault {
        Fault::Refused(error.kind())
    }
}

impl From<AllocError> for Fault {
    fn from(_error: AllocError) -> Fault {
        Fault::Stopped
    }
}

impl<T: Drop> From<AllocFailed<T>> for Fault {
    fn from(_error: AllocFailed<T>) -> Fault {
        Fault::Stopped
    }
}

impl Fault {
    /// The fault of an operand: an error of it is not one of the call.
    pub fn of_operand(self) -> Fault {
        match self {
            Fault::Refused(kind) => Fault::Operand(kind),
            other => other,
        }
    }
}

/// The word of a kind of errors.
pub fn kind_word(kind: ErrorKind) -> &'static str {
    match kind {
        ErrorKind::InvalidArgument => "argument",
        ErrorKind::InvalidData => "data",
        ErrorKind::OutOfMemory => "memory",
        ErrorKind::Policy => "policy",
        ErrorKind::Failed => "failed",
    }
}

/// Appends the answer of a call that has this fault. The only error is that of a program without memory.
pub fn put_fault(text: &mut String, fault: Fault) -> Result<(), AllocError> {
    match fault {
        Fault::Refused(kind) => text.push_str(kind_word(kind)),
        Fault::Operand(kind) => {
            text.push_str("operand ")?;
            text.push_str(kind_word(kind))
        }
        Fault::Unknown => text.push_str("unknown"),
        Fault::Condition => text.push_str("condition"),
        Fault::Stopped => Err(AllocError),
    }
}

/// Appends the answer of a call without a value.
pub fn put_done(text: &mut String, done: Result<(), Error>) -> Result<(), Fault> {
    done?;
    text.push_str("ok")?;
    Ok(())
}

/// Whether a call was refused with `Failed`.
pub fn is_failure(answer: Result<(), Error>) -> bool {
    match answer {
        Ok(()) => false,
        Err(error) => error.kind() == ErrorKind::Failed,
    }
}

/// A text up to the first blank, and what is behind it; without a blank, nothing is behind it.
pub fn cut_word(text: &str) -> (&str, &str) {
    match text.split_once(' ') {
        Some((word, rest)) => (word, rest),
        None => (text, ""),
    }
}

/// A number, which is `max` or decimal.
pub fn number(word: &str) -> Result<u64, Fault> {
    if word == "max" {
        return Ok(i64::MAX as u64);
    }
    word.parse::<u64>().map_err(|_| Fault::Unknown)
}

/// A number below 256.
pub fn small_number(word: &str) -> Result<u8, Fault> {
    word.parse::<u8>().map_err(|_| Fault::Unknown)
}

/// Whether a word asks for an ordered answer: it is `ordered` or `unordered`.
pub fn order_flag(word: &str) -> Result<bool, Fault> {
    match word {
        "ordered" => Ok(true),
        "unordered" => Ok(false),
        _ => Err(Fault::Unknown),
    }
}

/// The text between square brackets.
pub fn list_of(word: &str) -> Result<&str, Fault> {
    let Some(rest) = word.strip_prefix('[') else {
        return Err(Fault::Unknown);
    };
    match rest.strip_suffix(']') {
        Some(list) => Ok(list),
        None => Err(Fault::Unknown),
    }
}

/// The bytes that hexadecimal digits spell.
pub fn bytes_of(plain: Global, digits: &str) -> Result<Vec<u8>, Fault> {
    match read_hex(plain, digits.as_bytes())? {
        Some(bytes) => Ok(bytes),
        None => Err(Fault::Unknown),
    }
}

/// Appends bytes in hexadecimal digits.
pub fn put_bytes(text: &mut String, bytes: &[u8]) -> Result<(), AllocError> {
    for byte in bytes {
        let byte = *byte;
        write!(text, "{byte:02x}")?;
    }
    Ok(())
}
