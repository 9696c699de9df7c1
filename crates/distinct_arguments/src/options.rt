//! The values of a command's options. `settings` changes them, and `table` says what each option is.
ghost use Rattle.std.specs.Prelude.{◌≤◌, ◌<◌};
ghost use Rattle.std.specs.Option.{ForSome};

use crate::share::Share;
use estimates::Deviations;

/// The seed of hashes: a number, or the name of the file that has it.
#[derive(Clone, Copy, Debug, PartialEq, Eq)]
pub enum Seed<'a> {
    /// Its seed hash isn't 0 if it was read from arguments.
    Number(u64),
    File(&'a str),
}

/// How counts are printed: as plain text, as values separated by tabs, or as JSON objects.
#[derive(Clone, Copy, Debug, PartialEq, Eq)]
pub enum Form {
    Plain,
    Tsv,
    Json,
}

/// The order in which groups are printed.
#[derive(Clone, Copy, Debug, PartialEq, Eq)]
pub enum Order {
    /// In the ascending order of the bytes of their names.
    Name,
    /// Those of the greatest estimate or total first, and those of equal ones by name.
    Greatest,
}

/// How the numbers of a key are combined.
#[derive(Clone, Copy, Debug, PartialEq, Eq)]
pub enum Mode {
    /// They are added.
    Sum,
    /// The least is kept.
    Min,
    /// The greatest is kept.
    Max,
}

/// What chooses fields of a line.
#[derive(Clone, Copy, Debug, PartialEq, Eq)]
pub enum Column<'a> {
    /// The number of a field, from 1.
    Number(u32),
    /// A text of numbers and names, which isn't a number.
    Text(&'a str),
}

/// The options of a command.
#[derive(Clone, Copy, Debug)]
pub struct Options<'a> {
    /// The binary logarithm of the nominal entries, from 4 to 26.
    pub lg_k: u8,
    /// The number of the field that is a line's key, from 1, or `None` if the whole line is its key; 1 if a text chooses
    /// fields.
    pub field: Option<u32>,
    /// The text that chooses the fields of a line's key, if one does.
    pub field_text: Option<&'a str>,
    /// The byte between fields; a tab if `None`, and a comma between those of records.
    pub separator: Option<u8>,
    /// Whether files have records of CSV (RFC 4180), and not lines.
    pub csv: bool,
    /// Whether fields are separated by one or more blanks.
    pub blanks: bool,
    /// Whether a CR in front of a line's LF is a part of the line's end.
    pub crlf: bool,
    /// Whether the first line, or record, of each file is passed over.
    pub header: bool,
    /// Whether each file is counted by itself.
    pub per_file: bool,
    /// The number of the field that is the name of a line's group, from 1, or `None` if lines are not grouped; 1 if a text
    /// chooses fields.
    pub by: Option<u32>,
    /// The text that chooses the fields of a line's group, if one does.
    pub by_text: Option<&'a str>,
    /// The order in which groups are printed; by name if `None`.
    pub sort: Option<Order>,
    /// The least estimate or total of a group that is printed, from 1 if it was read from arguments; none if `None`.
    pub least: Option<u64>,
    /// How many groups are printed at most, from 1 if it was read from arguments; all if `None`.
    pub most: Option<u64>,
    /// The number of the field that has the number of a line, from 1, or `None` if no numbers are read; 1 if a text
    /// chooses it.
    pub value: Option<u32>,
    /// The text that chooses the field of a line's number, if one does.
    pub value_text: Option<&'a str>,
    /// Whether lines without such a number are passed over.
    pub skip_invalid: bool,
    /// How the numbers of a key are combined; added if `None`.
    pub summary: Option<Mode>,
    /// Whether each line adds one to a sum.
    pub visits: bool,
    /// Whether images are united by the groups of their lines.
    pub groups: bool,
    /// Whether images are of sums.
    pub sums: bool,
    pub seed: Seed<'a>,
    /// Whether images are in hexadecimal digits.
    pub hex: bool,
    /// Whether the files of an expression have lines, and not images.
    pub keys: bool,
    /// Whether the lines so far are reported while they are read.
    pub progress: bool,
    /// The file to which the image is written, or `None` for standard output.
    pub output: Option<&'a str>,
    /// The folder to which the image of each group is written, if there is one.
    pub folder: Option<&'a str>,
    /// The file that has the names of the files, each ended by a NUL byte.
    pub list: Option<&'a str>,
    /// The part of each file that is read; the whole file if `None`.
    pub part: Option<Share>,
    /// The folder to which names of files are relative; the working directory if `None`.
    pub dir: Option<&'a str>,
    /// The number of images that are expected, from 1 to 2^32 - 1 if it was read from arguments.
    pub expected: Option<u64>,
    /// The standard deviations of the bounds that are printed; `None` if no bounds are.
    pub bounds: Option<Deviations>,
    pub form: Form,
    /// Whether plain counts are printed for people: in groups of digits, and with bounds if they are estimates.
    pub human: bool,
    /// Whether the file of the output may be one of those that are read.
    pub force: bool,
    /// Whether remarks and warnings are left out.
    pub quiet: bool,
    ghost low: { 4 ≤ lg_k },
    ghost high: { lg_k ≤ 26 },
    ghost from_one: { ForSome field (λ number. 0 < number) },
    ghost by_from_one: { ForSome by (λ number. 0 < number) },
    ghost value_from_one: { ForSome value (λ number. 0 < number) },
}
