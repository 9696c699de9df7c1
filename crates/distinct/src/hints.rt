//! What to do about a failure: printed after its message, by the words of the command.

use distinct_arguments::{Escaped, Fault, OptionName, command_of, has_option};
use distinct_messages::{Failure, family_name};
use keys_sketches::{Flaw, ImageFlaw};
use std::fmt;
use std::io::ErrorKind;

/// What to do about a failure, by the program's arguments from the command on; nothing if nothing is known.
#[derive(Drop)]
pub struct Hint<'a> {
    pub failure: &'a Failure,
    pub words: &'a [String],
}

/// Whether a file of this flaw may be one of lines: it is short, or no sketch has its family, or its third byte is a
/// tab, an LF or a CR, or that of a gzip file.
fn may_have_lines(flaw: Flaw) -> bool {
    match flaw {
        Flaw::Image(ImageFlaw::Short) => true,
        Flaw::Image(ImageFlaw::Family(8 | 9 | 10 | 13)) => true,
        Flaw::Image(ImageFlaw::Family(family)) => family_name(family).is_none(),
        _ => false,
    }
}

/// Whether a command has the option `--lg-k`.
fn has_size(command: &str) -> bool {
    match command_of(command) {
        Some(command) => has_option(command, OptionName::LgK),
        None => false,
    }
}

/// The name of a file without its folders.
fn last_part(name: &str) -> &str {
    match name.rsplit_once('/') {
        Some((_, last)) => last,
        None => name,
    }
}

impl Hint<'_> {
    /// The command, as it was given.
    fn command(&self) -> &str {
        match self.words.first() {
            Some(word) => word.as_str(),
            None => "",
        }
    }

    /// Whether an argument is this word.
    fn has_word(&self, word: &str) -> bool {
        for it in self.words {
            if it.as_str() == word {
                return true;
            }
        }
        false
    }

    /// What to do about a file that isn't there: its name may be a value, or a difference.
    fn put_missing<W: fmt::Write>(&self, f: &mut fmt::Formatter<W>, name: &str) -> fmt::Result {
        let number = last_part(name);
        if self.has_word("--bounds") && (number == "1" || number == "2" || number == "3") {
            return write!(f, "; for {number} standard deviations: --bounds={number}");
        }
        if self.command() != "eval" {
            return Ok(());
        }
        match name.split_once('-') {
            Some((first, second)) if !first.is_empty() && !second.is_empty() => write!(
                f,
                "; a difference needs blanks: {} - {}",
                Escaped(first),
                Escaped(second)
            ),
            _ => Ok(()),
        }
    }
}

impl fmt::Display for Hint<'_> {
    fn fmt<W: fmt::Write>(&self, f: &mut fmt::Formatter<W>) -> fmt::Result {
        let command = self.command();
        match self.failure {
            Failure::Arguments(Fault::UnknownOption(_)) => {
                write!(f, " of {command} (try distinct {command} --help)")
            }
            Failure::NoFiles | Failure::NotTwo => write!(f, " (try distinct {command} --help)"),
            Failure::Memory if has_size(command) => write!(f, "; try a smaller --lg-k"),
            Failure::NoSketch(_, 0, Flaw::Image(ImageFlaw::Family(9))) => {
                if command == "eval" {
                    write!(f, "; pass --sums for images of sums, --keys for lines")
                } else {
                    write!(
                        f,
                        "; union --sums, eval --sums and visits --sums read images of sums, count and sketch lines"
                    )
                }
            }
            Failure::NoSums(_, 0, flaw) if may_have_lines(*flaw) => {
                if command == "visits" {
                    write!(f, "; visits without --sums reads lines")
                } else {
                    write!(f, "; sketch --value reads lines")
                }
            }
            Failure::NoSketch(_, 0, flaw) if may_have_lines(*flaw) => {
                if command == "eval" {
                    write!(f, "; pass --keys if the expression's files have lines")
                } else {
                    write!(f, "; count or sketch reads lines")
                }
            }
            Failure::Unreadable(name, error) if error.kind() == ErrorKind::NotFound => {
                self.put_missing(f, name)
            }
            _ => Ok(()),
        }
    }
}
