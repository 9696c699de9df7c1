//! What is wrong with arguments.
ghost use Rattle.std.specs.Prelude.{◌≡◌};
ghost use Rattle.distinct_arguments.specs.Faults.{Reports, fault_status, mistake_with};

use crate::table::{Kind, OptionName, kind_of, name_of, why_excluded, why_needed};
use std::alloc::Global;
use std::fmt;

/// What is wrong with arguments. The string is the offending word.
#[derive(Debug, Drop)]
pub enum Fault {
    /// There is no argument.
    NoCommand,
    /// The first argument is not a command.
    UnknownCommand(String),
    /// The command doesn't have this option.
    UnknownOption(String),
    /// This option takes a value, and is the last argument.
    NoValue(String),
    /// This option has a value and takes none.
    UnneededValue(String),
    /// The value of this option is not one that it takes.
    WrongValue(OptionName, String),
    /// The value of `--seed` is this number, from 0 to 2^64 - 1, whose seed hash is 0.
    ZeroSeed(u64),
    /// `eval` doesn't have exactly one argument after its options.
    NotOneExpression,
    /// `sum` has no `--value`.
    SumNeedsValue,
    /// There is `--separator` without `--field`, `--by`, `--value` and `--csv`.
    SeparatorNeedsField,
    /// `sketch` has `--by` without `--hex` and without `--output-dir`.
    GroupsNeedOutput,
    /// There is this option without one that makes groups: `--by` or `--groups`.
    NeedsGroups(OptionName),
    /// There is the first option, which needs the second, without it.
    Needs(OptionName, OptionName),
    /// There are two options that exclude each other.
    Excludes(OptionName, OptionName),
    /// There are both `--files0-from` and a file.
    ListExcludesFiles,
    /// Standard input would be read twice.
    StandardTwice,
    /// The file of this name, to which the output goes, is one of those that are read.
    OutputIsInput(String),
    /// Memory for the text of a fault was refused.
    Memory,
}

impl Fault {
    /// The exit status: 1 if memory was refused, else 2.
    pub fn status(&self) -> u8
        ensures { result ≡ fault_status self.now }
    {
        match self {
            Fault::Memory => 1,
            _ => 2,
        }
    }
}

/// What is wrong with a word that a fault quotes.
#[derive(Clone, Copy)]
pub(crate) enum WrongWord {
    /// It is the first and no command.
    UnknownCommand,
    /// It is an option that the command doesn't have.
    UnknownOption,
    /// It is an option whose value is missing.
    NoValue,
    /// It is an option that takes no value and has one.
    UnneededValue,
    /// It is a value that this option does not take.
    WrongValue(OptionName),
    /// It is the file of the output, and is read.
    OutputIsInput,
}

/// The fault that quotes a word; `Memory` if memory for the word is refused.
pub(crate) fn quoting(alloc: Global, wrong: WrongWord, word: &str) -> Fault
    ensures { Reports result (mistake_with wrong word.now) }
{
    let Ok(text) = String::from_str(alloc, word) else {
        return Fault::Memory;
    };
    match wrong {
        WrongWord::UnknownCommand => Fault::UnknownCommand(text),
        WrongWord::UnknownOption => Fault::UnknownOption(text),
        WrongWord::NoValue => Fault::NoValue(text),
        WrongWord::UnneededValue => Fault::UnneededValue(text),
        WrongWord::WrongValue(option) => Fault::WrongValue(option, text),
        WrongWord::OutputIsInput => Fault::OutputIsInput(text),
    }
}

/// A text as messages print it: each control character is escaped, so that it stays on one line.
#[derive(Drop)]
pub struct Escaped<'a>(pub &'a str);

impl fmt::Display for Escaped<'_> {
    fn fmt<W: fmt::Write>(&self, f: &mut fmt::Formatter<W>) -> fmt::Result {
        for c in self.0.chars() {
            if c.is_control() {
                write!(f, "{}", c.escape_default())?;
            } else {
                write!(f, "{c}")?;
            }
        }
        Ok(())
    }
}

impl fmt::Display for Kind {
    /// The values that options of a kind take.
    fn fmt<W: fmt::Write>(&self, f: &mut fmt::Formatter<W>) -> fmt::Result {
        match *self {
            Kind::Flag => write!(f, "no value"),
            Kind::Number(least, greatest) => write!(f, "a number from {least} to {greatest}"),
            Kind::Columns => write!(
                f,
                "a number from 1 to 4294967295, or numbers and names, as 1,3 or user"
            ),
            Kind::Byte => write!(f, "one byte"),
            Kind::Seed => write!(f, "a number from 0 to {}", u64::MAX),
            Kind::Deviations => write!(f, "1, 2 or 3, as in --bounds=2"),
            Kind::Order => write!(f, "name, estimate or total"),
            Kind::Mode => write!(f, "sum, min or max"),
            Kind::Percent => write!(
                f,
                "a percentage from 0.0123 to 100 with at most 4 decimal places, as 0.4%"
            ),
            Kind::Share => write!(f, "a part and the number of parts, as 1/8 to 8/8"),
            Kind::Text => write!(f, "any text"),
        }
    }
}

impl fmt::Display for Fault {
    fn fmt<W: fmt::Write>(&self, f: &mut fmt::Formatter<W>) -> fmt::Result {
        match self {
            Fault::NoCommand => write!(
                f,
                "no command: count, sketch, union, meet, minus, show, eval, visits or sum (try --help)"
            ),
            Fault::UnknownCommand(word) => write!(
                f,
                "{}: is not a command (count, sketch, union, meet, minus, show, eval, visits or sum; try --help)",
                Escaped(word)
            ),
            Fault::UnknownOption(name) => write!(f, "{}: not an option", Escaped(name)),
            Fault::NoValue(name) => write!(
                f,
                "{}: missing value: pass it as the next word or after =",
                Escaped(name)
            ),
            Fault::UnneededValue(name) => write!(
                f,
                "{}: takes no value: pass it without =",
                Escaped(name)
            ),
            Fault::WrongValue(option, value) => write!(
                f,
                "{} takes {}, not '{}'",
                name_of(*option),
                kind_of(*option),
                Escaped(value)
            ),
            Fault::ZeroSeed(number) => write!(
                f,
                "{number} can't be a seed (its seed hash is 0): pass another"
            ),
            Fault::NotOneExpression => write!(
                f,
                "eval takes one expression in quotes, such as 'mon + tue - wed'"
            ),
            Fault::SumNeedsValue => {
                write!(f, "sum needs --value M, the field that has the numbers")
            }
            Fault::SeparatorNeedsField => write!(
                f,
                "--separator needs --field, --by, --value or --csv"
            ),
            Fault::GroupsNeedOutput => write!(f, "--by needs --hex or --output-dir"),
            Fault::NeedsGroups(option) => write!(f, "{} needs --by or --groups", name_of(*option)),
            Fault::Needs(option, other) => write!(
                f,
                "{} needs {}{}",
                name_of(*option),
                name_of(*other),
                why_needed(*option, *other)
            ),
            Fault::Excludes(option, other) => write!(
                f,
                "{} and {} exclude each other{}",
                name_of(*option),
                name_of(*other),
                why_excluded(*option, *other)
            ),
            Fault::ListExcludesFiles => write!(
                f,
                "files are named by arguments and by --files0-from: use one of the two"
            ),
            Fault::StandardTwice => write!(
                f,
                "standard input would be read twice: read one of the two from a file"
            ),
            Fault::OutputIsInput(name) => write!(
                f,
                "{}: --output would replace this file, which is read: name another file, or pass --force",
                Escaped(name)
            ),
            Fault::Memory => write!(f, "out of memory"),
        }
    }
}
