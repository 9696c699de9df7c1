//! Why the program fails.
ghost use Rattle.std.specs.Prelude.{◌≡◌, true, false};
ghost use Rattle.sketch_base.specs.declared.error.ErrorKind.TheVariants.{OutOfMemory};
ghost use Rattle.distinct_arguments.specs.declared.fault.Fault.{Fault};
ghost use Rattle.distinct_messages.specs.Failures.{failure_status, passed_status, display_name, IsClosedOutput, IsOfOne};
ghost use Rattle.distinct_messages.specs.declared.failure.Failure.TheVariants as failure;

use distinct_arguments::{Escaped, Fault};
use expression_text::{MAX_LEVELS, Reason, SyntaxFault};
use keys_sketches::{Flaw, ImageFlaw};
use sketch_base::Error;
use std::alloc::{AllocError, AllocFailed};
use std::fmt::Write;
use std::{fmt, io};

/// Why the program fails. A file has the name by which it was given.
#[derive(Debug, Drop)]
pub enum Failure {
    /// The argument of this number, from 1, is not text in UTF-8. Its bytes are escaped.
    NotText(u64, String),
    /// The arguments are wrong.
    Arguments(Fault),
    /// The command needs images, and none is given.
    NoFiles,
    /// `minus` or `similarity` needs two images, and another number is given.
    NotTwo,
    /// This text is not an expression, for this reason.
    NoExpression(String, SyntaxFault),
    /// An image would be written to a terminal.
    Terminal,
    /// The images found are not as many as the second number, which was expected.
    WrongCount(u64, u64),
    /// The images found are not as many as the names of an expression, the second number: with `--hex` each file has
    /// one.
    NotOneEach(u64, u64),
    /// The folder that `-C` names can't be entered.
    NoDir(String, io::Error),
    /// A file has no seed: no number, or one that can't be a seed.
    NoSeed(String),
    /// A list of files has an empty name, or one that is not UTF-8, at this number, from 1.
    NoName(String, u64),
    /// A list of files has lines and no NUL byte.
    NoNul(String),
    /// Memory was refused.
    Memory,
    /// A file can't be read.
    Unreadable(String, io::Error),
    /// A file is not an image, or its line of this number, from 1, is not; 0 if the whole file is meant.
    NoSketch(String, u64, Flaw),
    /// A file is not an image of sums, or its line of this number, from 1, is not; 0 if the whole file is meant.
    NoSums(String, u64, Flaw),
    /// A line of this number, from 1, is not hexadecimal.
    NoHex(String, u64),
    /// A line of this number, from 1, has no tab, and so no image of a group.
    NoTab(String, u64),
    /// A file that should have an image in each line has no line.
    NoLine(String),
    /// The line of this number, from 1, of a file would make the sum of its key 2^64 or more.
    PastGreatest(String, u64),
    /// With the image in a file, or in its line of this number, from 1, the sum of a key would be 2^64 or more; 0 if
    /// the whole file is meant.
    PastUnion(String, u64),
    /// The sum of a key in the result of this expression, or of a part of it, would be 2^64 or more.
    PastResult(String),
    /// The line of this number, from 1, of a file has no whole number below 2^64 in the field of this number, from 1,
    /// which starts with these bytes: the first 65, or all if there are fewer.
    NotANumber(String, u64, u64, Vec<u8>),
    /// Writing to standard output, or to the file of this name, failed.
    NotWritten(String, io::Error),
    /// The file of a group would have this path, whose last part has this many bytes: more than fit.
    LongName(String, u64),
}

impl Failure {
    /// Whether standard output failed because nobody reads it any more: the program then ends without a message.
    pub fn is_closed_output(&self) -> bool
        ensures closed { result ≡ true → IsClosedOutput self.now }
        ensures other { result ≡ false → IsClosedOutput self.now → ⊥ }
    {
        match self {
            Failure::NotWritten(name, error) => {
                name.as_str() == STANDARD_OUTPUT && error.kind() == io::ErrorKind::BrokenPipe
            }
            _ => false,
        }
    }

    /// Whether one file or line is at fault, and the others can still be read. If standard input can't be read, or if
    /// memory was refused, they can't.
    pub fn is_of_one(&self) -> bool
        ensures one { result ≡ true → IsOfOne self.now }
        ensures other { result ≡ false → IsOfOne self.now → ⊥ }
    {
        match self {
            Failure::Unreadable(name, error) => {
                !(name.as_str() == STANDARD_INPUT || error.kind() == io::ErrorKind::OutOfMemory)
            }
            Failure::NoSketch(_, _, _) => true,
            Failure::NoHex(_, _) => true,
            Failure::NoLine(_) => true,
            _ => false,
        }
    }

    /// The exit status: 2 if the arguments are wrong, else 1.
    pub fn status(&self) -> u8
        ensures { result ≡ failure_status self.now }
    {
        match self {
            Failure::NotText(_, _) => 2,
            Failure::Arguments(fault) => fault.status(),
            Failure::NoFiles => 2,
            Failure::NotTwo => 2,
            Failure::NoExpression(_, _) => 2,
            Failure::Terminal => 2,
            _ => 1,
        }
    }
}

/// The exit status if the answer was written: 1 if files were passed over with these failures, else 0.
pub fn passed_status(passed: &[Failure]) -> u8
    ensures { result ≡ passed_status passed.now }
{
    if passed.is_empty() { 0 } else { 1 }
}

/// The failure for an error that means refused memory.
pub fn out_of_memory(error: Error) -> Failure
    requires { error ≡ OutOfMemory }
    ensures { result ≡ failure.Memory }
{
    let _ = error;
    Failure::Memory
}

/// The name of standard output in messages.
pub const STANDARD_OUTPUT: &str = "standard output";

/// The name of standard input in messages.
const STANDARD_INPUT: &str = "standard input";

/// The name of a file in messages.
pub fn display_name(name: &str) -> &str
    ensures { result.now ≡ display_name name.now }
{
    if name == "-" { STANDARD_INPUT } else { name }
}

/// The most bytes of a file's name that a message prints; a character that begins within them is printed whole.
const LONGEST_NAME: usize = 200;

/// The name of a file as messages print it: each control character is escaped, and the rest after 200 bytes is `..`.
#[derive(Drop)]
struct Named<'a>(&'a str);

impl fmt::Display for Named<'_> {
    fn fmt<W: fmt::Write>(&self, f: &mut fmt::Formatter<W>) -> fmt::Result {
        for (place, c) in self.0.char_indices() {
            if LONGEST_NAME <= place {
                return write!(f, "..");
            }
            if c.is_control() {
                write!(f, "{}", c.escape_default())?;
            } else {
                write!(f, "{c}")?;
            }
        }
        Ok(())
    }
}

/// The most bytes of a value that a message quotes.
const LONGEST_QUOTE: usize = 64;

/// A value as messages quote it: each control character is escaped, and each byte that isn't ASCII, since it may look like
/// a digit or a blank; the rest after 64 bytes is `..`.
#[derive(Drop)]
struct Quoted<'a>(&'a [u8]);

impl fmt::Display for Quoted<'_> {
    fn fmt<W: fmt::Write>(&self, f: &mut fmt::Formatter<W>) -> fmt::Result {
        for (place, byte) in self.0.iter().enumerate() {
            if LONGEST_QUOTE <= place {
                return write!(f, "..");
            }
            if !byte.is_ascii() {
                write!(f, "\\x{byte:02x}")?;
            } else if byte.is_ascii_control() {
                write!(f, "{}", char::from(*byte).escape_default())?;
            } else {
                write!(f, "{}", char::from(*byte))?;
            }
        }
        Ok(())
    }
}

/// Writes the words of an error, without the number that the system gives it, which is behind them.
#[derive(Drop)]
struct Words<'a, W> {
    f: &'a mut fmt::Formatter<W>,
    ended: bool,
}

impl<W: fmt::Write> fmt::Write for Words<'_, W> {
    fn write_str(&mut self, text: &str) -> fmt::Result {
        if self.ended {
            return Ok(());
        }
        match text.split_once(" (os error ") {
            Some((words, _)) => {
                self.ended = true;
                self.f.write_str(words)
            }
            None => self.f.write_str(text),
        }
    }
}

/// Why a file can't be read or written, as messages say it.
#[derive(Drop)]
struct Cause<'a>(&'a io::Error);

impl fmt::Display for Cause<'_> {
    fn fmt<W: fmt::Write>(&self, f: &mut fmt::Formatter<W>) -> fmt::Result {
        if self.0.kind() == io::ErrorKind::IsADirectory {
            return write!(f, "is a directory");
        }
        let mut words = Words { f, ended: false };
        write!(words, "{}", self.0)
    }
}

/// The sketches of a family of the DataSketches format; `None` if no family has this number.
pub fn family_name(family: u8) -> Option<&'static str> {
    match family {
        1 => Some("Alpha sketches"),
        2 => Some("update sketches"),
        3 => Some("theta sketches"),
        4 => Some("unions"),
        5 => Some("intersections"),
        6 => Some("differences"),
        7 => Some("HLL sketches"),
        8 => Some("quantiles sketches"),
        9 => Some("tuple sketches"),
        10 => Some("frequency sketches"),
        11 => Some("reservoirs"),
        12 => Some("unions of reservoirs"),
        13 => Some("VarOpt sketches"),
        14 => Some("unions of VarOpt sketches"),
        15 => Some("KLL sketches"),
        16 => Some("CPC sketches"),
        17 => Some("REQ sketches"),
        18 => Some("count-min sketches"),
        19 => Some("EBPPS sketches"),
        20 => Some("t-digests"),
        21 => Some("Bloom filters"),
        _ => None,
    }
}

/// Why a file, or a line of it, is not an image, as messages say it.
#[derive(Drop)]
struct Defect<'a>(&'a Flaw);

impl fmt::Display for Defect<'_> {
    fn fmt<W: fmt::Write>(&self, f: &mut fmt::Formatter<W>) -> fmt::Result {
        match self.0 {
            Flaw::Hexadecimal => write!(f, "is hexadecimal text: pass --hex"),
            Flaw::Image(ImageFlaw::Short) => write!(f, "is not the image of a theta sketch"),
            Flaw::Image(ImageFlaw::Family(family)) => match family_name(*family) {
                Some(sketches) => write!(
                    f,
                    "is not the image of a theta sketch (the third byte is {family}, the family of {sketches}, not 3)"
                ),
                None => write!(
                    f,
                    "is not the image of a theta sketch (the third byte is {family}, not 3)"
                ),
            },
            Flaw::Image(ImageFlaw::Version(version)) => write!(
                f,
                "is of version {version}; versions 1 to 3 are read: write it in version 3, uncompressed"
            ),
            Flaw::Image(ImageFlaw::BigEndian) => write!(
                f,
                "is in big-endian order: write it in little-endian order"
            ),
            Flaw::Image(ImageFlaw::Seed) => write!(
                f,
                "was made with another seed: pass that --seed"
            ),
            Flaw::Image(ImageFlaw::Cut) => write!(f, "is cut short: copy or make it again"),
            Flaw::Image(ImageFlaw::Longer) => write!(
                f,
                "has bytes after its image: a file has one image, or with --hex one per line"
            ),
            Flaw::Image(ImageFlaw::Malformed) => write!(
                f,
                "is damaged (its preamble is not valid): copy or make it again"
            ),
            Flaw::Image(ImageFlaw::Theta) => write!(
                f,
                "is damaged (its theta is not from 1 to 2^63 - 1): copy or make it again"
            ),
            Flaw::Image(ImageFlaw::Damaged) => write!(
                f,
                "is damaged (its hashes are not valid): copy or make it again"
            ),
        }
    }
}

/// Why a file, or a line of it, is not an image of sums, as messages say it.
#[derive(Drop)]
struct SumsDefect<'a>(&'a Flaw);

impl fmt::Display for SumsDefect<'_> {
    fn fmt<W: fmt::Write>(&self, f: &mut fmt::Formatter<W>) -> fmt::Result {
        match self.0 {
            Flaw::Image(ImageFlaw::Short) => write!(f, "is not an image of sums"),
            Flaw::Image(ImageFlaw::Family(family)) => match family_name(*family) {
                Some(sketches) => write!(
                    f,
                    "is not an image of sums (the third byte is {family}, the family of {sketches}, not 9)"
                ),
                None => write!(
                    f,
                    "is not an image of sums (the third byte is {family}, not 9)"
                ),
            },
            Flaw::Image(ImageFlaw::Version(version)) => write!(
                f,
                "is of version {version}; versions 1 and 3 are read: write it in version 3"
            ),
            Flaw::Image(ImageFlaw::Malformed) => write!(
                f,
                "is damaged (its preamble or sketch type is not valid): copy or make it again"
            ),
            Flaw::Image(ImageFlaw::Damaged) => write!(
                f,
                "is damaged (its hashes or sums are not valid): copy or make it again"
            ),
            flaw => write!(f, "{}", Defect(flaw)),
        }
    }
}

/// Why a text is not an expression, as messages say it.
#[derive(Drop)]
struct Misspelling(SyntaxFault);

impl fmt::Display for Misspelling {
    fn fmt<W: fmt::Write>(&self, f: &mut fmt::Formatter<W>) -> fmt::Result {
        let offset = self.0.offset;
        match self.0.reason {
            Reason::MissingOperand => write!(f, "a name is missing at byte {offset}"),
            Reason::MissingOperator => write!(f, "an operator is missing at byte {offset}"),
            Reason::MissingClosing => write!(
                f,
                "a closing parenthesis is missing at byte {offset}"
            ),
            Reason::UnexpectedClosing => write!(
                f,
                "the closing parenthesis at byte {offset} has no opening one"
            ),
            Reason::OpenQuote => write!(f, "the quote at byte {offset} is not closed"),
            Reason::TooDeep => write!(
                f,
                "more than {MAX_LEVELS} levels of parentheses at byte {offset}"
            ),
            Reason::EmptyName => write!(f, "the name at byte {offset} is empty"),
            Reason::Memory => write!(f, "not read: out of memory"),
        }
    }
}

impl fmt::Display for Failure {
    fn fmt<W: fmt::Write>(&self, f: &mut fmt::Formatter<W>) -> fmt::Result {
        match self {
            Failure::NotText(number, text) => write!(
                f,
                "argument {number}, {text}, is not UTF-8 text: rename the file, or read it from standard input (distinct .. < FILE)"
            ),
            Failure::Arguments(fault) => write!(f, "{fault}"),
            Failure::NoFiles => write!(f, "no image given"),
            Failure::NotTwo => write!(f, "not two images given"),
            Failure::NoExpression(text, fault) => write!(
                f,
                "eval: '{}': {}",
                Escaped(text),
                Misspelling(*fault)
            ),
            Failure::Terminal => write!(
                f,
                "standard output is a terminal, and an image is not text: pass --output FILE, or --hex"
            ),
            Failure::WrongCount(found, expected) => write!(
                f,
                "{found} images found, {expected} expected: check the files or --expect"
            ),
            Failure::NotOneEach(found, names) => write!(
                f,
                "{found} images found, {names} expected: with eval --hex each file has one line"
            ),
            Failure::NoDir(name, error) => write!(
                f,
                "-C {}: the folder can't be entered: {}",
                Named(name),
                Cause(error)
            ),
            Failure::NoSeed(name) => write!(
                f,
                "{}: does not contain a valid seed (a number below 2^64 whose seed hash is not 0)",
                Named(name)
            ),
            Failure::NoName(name, number) => write!(
                f,
                "{}: name {number} is empty or not UTF-8 text",
                Named(name)
            ),
            Failure::NoNul(name) => write!(
                f,
                "{}: has no NUL byte; each name ends in one (find -print0)",
                Named(name)
            ),
            Failure::Memory => write!(f, "out of memory"),
            Failure::Unreadable(name, error) => write!(f, "{}: {}", Named(name), Cause(error)),
            Failure::NoSketch(name, 0, flaw) => write!(f, "{}: {}", Named(name), Defect(flaw)),
            Failure::NoSketch(name, line, flaw) => write!(
                f,
                "{}: line {line} {}",
                Named(name),
                Defect(flaw)
            ),
            Failure::NoSums(name, 0, flaw) => { write!(f, "{}: {}", Named(name), SumsDefect(flaw)) }
            Failure::NoSums(name, line, flaw) => write!(
                f,
                "{}: line {line} {}",
                Named(name),
                SumsDefect(flaw)
            ),
            Failure::NoHex(name, line) => write!(
                f,
                "{}: line {line} is not hexadecimal",
                Named(name)
            ),
            Failure::NoTab(name, line) => write!(
                f,
                "{}: line {line} has no tab between the name of a group and its image",
                Named(name)
            ),
            Failure::NoLine(name) => write!(
                f,
                "{}: is empty: recreate it, or omit it",
                Named(name)
            ),
            Failure::PastGreatest(name, line) => write!(
                f,
                "{}: line {line}: the sum of its key is above {}",
                Named(name),
                u64::MAX
            ),
            Failure::PastUnion(name, 0) => write!(
                f,
                "{}: the sum of a key is above {} with this image",
                Named(name),
                u64::MAX
            ),
            Failure::PastUnion(name, line) => write!(
                f,
                "{}: line {line}: the sum of a key is above {} with this image",
                Named(name),
                u64::MAX
            ),
            Failure::PastResult(text) => write!(
                f,
                "eval: '{}': the sum of a key is above {}",
                Escaped(text),
                u64::MAX
            ),
            Failure::NotANumber(name, line, 0, value) => write!(
                f,
                "{}: line {line}: its value \"{}\" is not a whole number up to {}: check --value and --separator",
                Named(name),
                Quoted(value.as_slice()),
                u64::MAX
            ),
            Failure::NotANumber(name, line, field, value) => write!(
                f,
                "{}: line {line}: its value \"{}\" in field {field} is not a whole number up to {}: check --value and --separator",
                Named(name),
                Quoted(value.as_slice()),
                u64::MAX
            ),
            Failure::NotWritten(name, error) => write!(f, "{}: {}", Named(name), Cause(error)),
            Failure::LongName(path, length) => write!(
                f,
                "{}: the file's name has {length} bytes, and at most 246 are allowed: write lines by --hex, without --output-dir",
                Named(path)
            ),
        }
    }
}

impl From<Fault> for Failure {
    ghost use Rattle.distinct_messages.specs.declared.failure.Failure.TheVariants.{Arguments};

    ghost from_gives = { λ fault failure. failure ≡ Arguments fault };

    fn from(fault: Fault) -> Failure {
        Failure::Arguments(fault)
    }
}

impl From<AllocError> for Failure {
    ghost use Rattle.distinct_messages.specs.declared.failure.Failure.TheVariants.{Memory};

    ghost from_gives = { λ _ e. e ≡ Memory };

    fn from(_e: AllocError) -> Failure {
        Failure::Memory
    }
}

impl<T: Drop> From<AllocFailed<T>> for Failure {
    ghost use Rattle.distinct_messages.specs.declared.failure.Failure.TheVariants.{Memory};

    ghost from_gives = { λ _ e. e ≡ Memory };

    fn from(_e: AllocFailed<T>) -> Failure {
        Failure::Memory
    }
}
