//! The table of options: what each is called, what value it takes, which commands have it, and what it needs and
//! excludes. The reader of arguments and the messages read it, and a law of `help` names it.
ghost use Rattle.std.specs.Prelude.{◌≡◌, map};
ghost use Rattle.std.specs.Option.{option_map};
ghost use Rattle.std.specs.List.{find, list_any};
ghost use Rattle.distinct_arguments.specs.Table.{rows, row_in, words_in, is_named, has_row, row_of, option_of};
ghost use Rattle.distinct_arguments.specs.Table.{name_of, kind_of, has_option, needs_value, is_among};
ghost use Rattle.distinct_arguments.specs.Table.{is_attachable, takes_attached};

use crate::commands::Command;
use crate::words::word_of;

/// The options that commands have.
#[derive(Clone, Copy, Debug, PartialEq, Eq)]
pub enum OptionName {
    Field,
    Separator,
    Csv,
    Blanks,
    Crlf,
    Header,
    PerFile,
    Value,
    SkipInvalid,
    Summary,
    Visits,
    Keys,
    Sums,
    Hex,
    FileList,
    Part,
    Dir,
    LgK,
    Error,
    Seed,
    SeedFile,
    By,
    Groups,
    Expect,
    Sort,
    Min,
    Top,
    Progress,
    Bounds,
    Tsv,
    Json,
    Human,
    OutputDir,
    Output,
    Force,
    Quiet,
}

/// What value an option takes.
#[derive(Clone, Copy, Debug)]
pub(crate) enum Kind {
    /// None.
    Flag,
    /// A number from the first to the second.
    Number(u64, u64),
    /// What chooses fields of a line: a number from 1, or a text of numbers and names.
    Columns,
    /// One byte.
    Byte,
    /// A number from 0 to 2^64 - 1 whose seed hash isn't 0.
    Seed,
    /// 1, 2 or 3 standard deviations; 2 if there is no value.
    Deviations,
    /// The name of an order of groups.
    Order,
    /// The name of a way to combine the numbers of a key.
    Mode,
    /// A percentage of standard error.
    Percent,
    /// The number of a part of each file, a slash, and the number of parts.
    Share,
    /// Any text.
    Text,
}

/// What an option needs or excludes.
#[derive(Clone, Copy, Debug)]
pub(crate) enum Rule {
    Needs(OptionName),
    Excludes(OptionName),
    /// It needs one that chooses a field: `--field`, `--by` or `--value`; or `--csv`.
    NeedsField,
    /// It needs one that says where the images of groups go: `--hex` or `--output-dir`.
    NeedsOutput,
    /// It needs one that makes groups: `--by` or `--groups`.
    NeedsGroups,
}

/// A rule, in front of it the words of the commands in which it holds, and behind it the end of the message if it is
/// broken.
pub(crate) type Condition = (&'static [&'static str], Rule, &'static str);

/// A row of the table: an option, its name, its short name if it has one, what value it takes, the words of the
/// commands that have it, and what it needs and excludes.
pub(crate) type Row = (
    OptionName,
    &'static str,
    Option<&'static str>,
    Kind,
    &'static [&'static str],
    &'static [Condition],
);

/// All commands.
const ALL: &[&str] = &[
    "count",
    "sketch",
    "union",
    "meet",
    "minus",
    "show",
    "eval",
    "visits",
    "sum",
    "similarity",
    "matrix",
];
/// The greatest number of images.
const MOST: u64 = 4294967295;

/// The options: what is read, how it is counted, and what is printed. If several rules are broken, the first counts.
pub(crate) const OPTIONS: [Row; 36] = [
    (
        OptionName::Field,
        "--field",
        Some("-f"),
        Kind::Columns,
        &["count", "sketch", "eval", "visits", "sum"],
        &[
            (
                &["eval"],
                Rule::Needs(OptionName::Keys),
                ": without it eval reads images",
            ),
            (
                &["sum"],
                Rule::Excludes(OptionName::By),
                ": no keys are counted by groups",
            ),
        ],
    ),
    (
        OptionName::Separator,
        "--separator",
        Some("-d"),
        Kind::Byte,
        &["count", "sketch", "eval", "visits", "sum"],
        &[(ALL, Rule::NeedsField, "")],
    ),
    (
        OptionName::Csv,
        "--csv",
        None,
        Kind::Flag,
        &["count", "sketch", "eval", "visits", "sum"],
        &[
            (
                &["eval"],
                Rule::Needs(OptionName::Keys),
                ": without it eval reads images",
            ),
            (
                ALL,
                Rule::Excludes(OptionName::Part),
                ": a record may have line ends in it",
            ),
            (
                ALL,
                Rule::Excludes(OptionName::Progress),
                ": drop --progress",
            ),
            (
                &["count"],
                Rule::Excludes(OptionName::Groups),
                ": pass --csv to sketch",
            ),
            (
                &["visits"],
                Rule::Excludes(OptionName::Sums),
                ": pass --csv to sketch",
            ),
        ],
    ),
    (
        OptionName::Blanks,
        "--blanks",
        None,
        Kind::Flag,
        &["count", "sketch", "eval", "visits", "sum"],
        &[
            (
                &["eval"],
                Rule::Needs(OptionName::Keys),
                ": without it eval reads images",
            ),
            (
                ALL,
                Rule::Excludes(OptionName::Csv),
                ": one byte is between the fields of a record",
            ),
            (ALL, Rule::Excludes(OptionName::Separator), ""),
            (
                ALL,
                Rule::Excludes(OptionName::Progress),
                ": drop --progress",
            ),
            (
                &["count"],
                Rule::Excludes(OptionName::Groups),
                ": pass --blanks to sketch",
            ),
            (
                &["visits"],
                Rule::Excludes(OptionName::Sums),
                ": pass --blanks to sketch",
            ),
        ],
    ),
    (
        OptionName::Crlf,
        "--crlf",
        None,
        Kind::Flag,
        &["count", "sketch", "eval", "visits", "sum"],
        &[
            (
                &["eval"],
                Rule::Needs(OptionName::Keys),
                ": without it eval reads images",
            ),
            (
                ALL,
                Rule::Excludes(OptionName::Csv),
                ": a record may end with CR LF anyway",
            ),
            (
                ALL,
                Rule::Excludes(OptionName::Progress),
                ": drop --progress",
            ),
            (
                &["count"],
                Rule::Excludes(OptionName::Groups),
                ": pass --crlf to sketch",
            ),
            (
                &["visits"],
                Rule::Excludes(OptionName::Sums),
                ": pass --crlf to sketch",
            ),
        ],
    ),
    (
        OptionName::Header,
        "--header",
        None,
        Kind::Flag,
        &["count", "sketch", "eval", "visits", "sum"],
        &[
            (
                &["eval"],
                Rule::Needs(OptionName::Keys),
                ": without it eval reads images",
            ),
            (
                ALL,
                Rule::Excludes(OptionName::Part),
                ": only the first part has it",
            ),
            (
                ALL,
                Rule::Excludes(OptionName::Progress),
                ": drop --progress",
            ),
            (
                &["count"],
                Rule::Excludes(OptionName::Groups),
                ": pass --header to sketch",
            ),
            (
                &["visits"],
                Rule::Excludes(OptionName::Sums),
                ": pass --header to sketch",
            ),
        ],
    ),
    (
        OptionName::PerFile,
        "--per-file",
        None,
        Kind::Flag,
        &["count"],
        &[
            (
                ALL,
                Rule::Excludes(OptionName::By),
                ": run count --by once per file",
            ),
            (
                ALL,
                Rule::Excludes(OptionName::Groups),
                ": run count --groups once per file",
            ),
            (
                ALL,
                Rule::Excludes(OptionName::Progress),
                ": drop --progress",
            ),
        ],
    ),
    (
        OptionName::Value,
        "--value",
        None,
        Kind::Columns,
        &["sketch", "sum"],
        &[
            (
                ALL,
                Rule::Excludes(OptionName::Visits),
                ": a line adds either its number or 1",
            ),
            (
                &["sketch"],
                Rule::Excludes(OptionName::By),
                ": run sketch once per group",
            ),
        ],
    ),
    (
        OptionName::SkipInvalid,
        "--skip-invalid",
        None,
        Kind::Flag,
        &["sketch", "sum"],
        &[
            (
                ALL,
                Rule::Needs(OptionName::Value),
                ": it skips lines without a number",
            ),
            (
                ALL,
                Rule::Excludes(OptionName::Progress),
                ": drop --progress",
            ),
        ],
    ),
    (
        OptionName::Summary,
        "--summary",
        None,
        Kind::Mode,
        &["sketch", "union", "eval"],
        &[
            (
                &["sketch"],
                Rule::Needs(OptionName::Value),
                ", whose numbers it combines",
            ),
            (
                &["union", "eval"],
                Rule::Needs(OptionName::Sums),
                ", whose sums it combines",
            ),
        ],
    ),
    (
        OptionName::Visits,
        "--visits",
        None,
        Kind::Flag,
        &["sketch"],
        &[(
            ALL,
            Rule::Excludes(OptionName::By),
            ": run sketch once per group",
        )],
    ),
    (OptionName::Keys, "--keys", None, Kind::Flag, &["eval"], &[]),
    (
        OptionName::Sums,
        "--sums",
        None,
        Kind::Flag,
        &["union", "eval", "visits"],
        &[
            (
                ALL,
                Rule::Excludes(OptionName::Keys),
                ": sketch --value N makes images of sums from lines",
            ),
            (
                ALL,
                Rule::Excludes(OptionName::Field),
                ": pass --field to sketch --visits",
            ),
            (
                ALL,
                Rule::Excludes(OptionName::Groups),
                ": combine the images of each group in a run of their own",
            ),
        ],
    ),
    (
        OptionName::Hex,
        "--hex",
        None,
        Kind::Flag,
        &[
            "count",
            "sketch",
            "union",
            "meet",
            "minus",
            "show",
            "eval",
            "visits",
            "similarity",
            "matrix",
        ],
        &[
            (
                &["count"],
                Rule::Needs(OptionName::Groups),
                ": without it count reads lines",
            ),
            (
                &["visits"],
                Rule::Needs(OptionName::Sums),
                ": without it visits reads lines",
            ),
        ],
    ),
    (
        OptionName::FileList,
        "--files0-from",
        None,
        Kind::Text,
        &[
            "count", "sketch", "union", "meet", "show", "visits", "sum", "matrix",
        ],
        &[],
    ),
    (
        OptionName::Part,
        "--part",
        None,
        Kind::Share,
        &["count", "sketch", "visits", "sum"],
        &[
            (
                &["count"],
                Rule::Excludes(OptionName::Groups),
                ": an image is read whole",
            ),
            (
                &["visits"],
                Rule::Excludes(OptionName::Sums),
                ": an image is read whole",
            ),
        ],
    ),
    (OptionName::Dir, "-C", None, Kind::Text, ALL, &[]),
    (
        OptionName::LgK,
        "--lg-k",
        Some("-k"),
        Kind::Number(4, 26),
        &["count", "sketch", "union", "eval", "visits", "sum"],
        &[],
    ),
    (
        OptionName::Error,
        "--error",
        None,
        Kind::Percent,
        &["count", "sketch", "visits", "sum"],
        &[],
    ),
    (OptionName::Seed, "--seed", None, Kind::Seed, ALL, &[]),
    (
        OptionName::SeedFile,
        "--seed-file",
        None,
        Kind::Text,
        ALL,
        &[],
    ),
    (
        OptionName::By,
        "--by",
        None,
        Kind::Columns,
        &["count", "sketch", "sum"],
        &[(&["sketch"], Rule::NeedsOutput, "")],
    ),
    (
        OptionName::Groups,
        "--groups",
        None,
        Kind::Flag,
        &["count", "union", "meet", "minus", "show", "eval"],
        &[
            (ALL, Rule::Needs(OptionName::Hex), ""),
            (
                &["count"],
                Rule::Excludes(OptionName::Field),
                ": pass --field to sketch",
            ),
            (
                &["count"],
                Rule::Excludes(OptionName::By),
                ": pass --by to sketch",
            ),
            (
                &["eval"],
                Rule::Excludes(OptionName::Keys),
                ": sketch --by N makes images of groups from lines",
            ),
            (
                &["count"],
                Rule::Excludes(OptionName::Progress),
                ": drop --progress",
            ),
        ],
    ),
    (
        OptionName::Expect,
        "--expect",
        None,
        Kind::Number(1, MOST),
        &["union", "meet"],
        &[(ALL, Rule::Excludes(OptionName::Groups), ": drop --expect")],
    ),
    (
        OptionName::Sort,
        "--sort",
        None,
        Kind::Order,
        &["count", "eval", "sum"],
        &[
            (&["count"], Rule::NeedsGroups, ""),
            (&["eval"], Rule::Needs(OptionName::Groups), ""),
            (&["sum"], Rule::Needs(OptionName::By), ""),
        ],
    ),
    (
        OptionName::Min,
        "--min",
        None,
        Kind::Number(1, u64::MAX),
        &["count", "eval", "sum"],
        &[
            (&["count"], Rule::NeedsGroups, ""),
            (&["eval"], Rule::Needs(OptionName::Groups), ""),
            (&["sum"], Rule::Needs(OptionName::By), ""),
        ],
    ),
    (
        OptionName::Top,
        "--top",
        None,
        Kind::Number(1, u64::MAX),
        &["count", "eval", "sum"],
        &[
            (&["count"], Rule::NeedsGroups, ""),
            (&["eval"], Rule::Needs(OptionName::Groups), ""),
            (&["sum"], Rule::Needs(OptionName::By), ""),
        ],
    ),
    (
        OptionName::Progress,
        "--progress",
        None,
        Kind::Flag,
        &["count", "sketch", "eval", "visits", "sum"],
        &[
            (
                &["eval"],
                Rule::Needs(OptionName::Keys),
                ": without it eval reads images",
            ),
            (
                &["visits"],
                Rule::Excludes(OptionName::Sums),
                ": images are no lines",
            ),
            (
                &["sum"],
                Rule::Excludes(OptionName::By),
                ": drop --progress",
            ),
        ],
    ),
    (
        OptionName::Bounds,
        "--bounds",
        None,
        Kind::Deviations,
        &["count", "show", "eval", "visits", "similarity", "matrix"],
        &[],
    ),
    (
        OptionName::Tsv,
        "--tsv",
        None,
        Kind::Flag,
        &[
            "count",
            "show",
            "eval",
            "visits",
            "sum",
            "similarity",
            "matrix",
        ],
        &[],
    ),
    (
        OptionName::Json,
        "--json",
        None,
        Kind::Flag,
        &[
            "count",
            "show",
            "eval",
            "visits",
            "sum",
            "similarity",
            "matrix",
        ],
        &[],
    ),
    (
        OptionName::Human,
        "--human",
        None,
        Kind::Flag,
        &["count", "eval"],
        &[
            (&["eval"], Rule::Needs(OptionName::Groups), ""),
            (ALL, Rule::Excludes(OptionName::Tsv), ""),
            (ALL, Rule::Excludes(OptionName::Json), ""),
        ],
    ),
    (
        OptionName::OutputDir,
        "--output-dir",
        None,
        Kind::Text,
        &["sketch"],
        &[(ALL, Rule::Needs(OptionName::By), "")],
    ),
    (
        OptionName::Output,
        "--output",
        Some("-o"),
        Kind::Text,
        &["sketch", "union", "meet", "minus", "eval"],
        &[(ALL, Rule::Excludes(OptionName::OutputDir), "")],
    ),
    (
        OptionName::Force,
        "--force",
        None,
        Kind::Flag,
        &["sketch", "eval"],
        &[],
    ),
    (
        OptionName::Quiet,
        "--quiet",
        Some("-q"),
        Kind::Flag,
        ALL,
        &[],
    ),
];

/// The rows of the table.
pub(crate) fn all_rows() -> [Row; 36]
    ensures { map row_in result ≡ rows }
{
    OPTIONS
}

/// Whether a row is that of the option of a name.
fn is_named(name: &str, row: &Row) -> bool
    ensures { result ≡ is_named name.now (row_in row.now) }
{
    match row.2 {
        Some(short) => row.1 == name || short == name,
        None => row.1 == name,
    }
}

/// The first of rows whose option has a name.
fn row_named(mut rows: &[Row], name: &str) -> Option<Row>
    ensures { option_map row_in result ≡ find (is_named name.now) (map row_in rows.entry.now) }
{
    while let [row, others @ ..] = rows {
        if is_named(name, row) {
            return Some(*row);
        }
        rows = others;
    }
    None
}

/// The option of a name, such as `--lg-k`.
pub(crate) fn option_of(name: &str) -> Option<OptionName>
    ensures { result ≡ option_of name.now }
{
    match row_named(&all_rows(), name) {
        Some(row) => Some(row.0),
        None => None,
    }
}

/// The first of rows that has an option.
fn row_with(mut rows: &[Row], option: OptionName) -> Option<Row>
    ensures { option_map row_in result ≡ find (has_row option) (map row_in rows.entry.now) }
{
    while let [row, others @ ..] = rows {
        if row.0 == option {
            return Some(*row);
        }
        rows = others;
    }
    None
}

/// The row of an option.
fn row_of(option: OptionName) -> Option<Row>
    ensures { option_map row_in result ≡ row_of option }
{
    row_with(&all_rows(), option)
}

/// The name of an option, such as `--lg-k`.
pub(crate) fn name_of(option: OptionName) -> &'static str
    ensures { result.now ≡ name_of option }
{
    match row_of(option) {
        Some(row) => row.1,
        None => "",
    }
}

/// What value an option takes.
pub(crate) fn kind_of(option: OptionName) -> Kind
    ensures { result ≡ kind_of option }
{
    match row_of(option) {
        Some(row) => row.3,
        None => Kind::Flag,
    }
}

/// Whether a word is one of these.
pub(crate) fn is_among(word: &str, mut words: &[&str]) -> bool
    ensures { result ≡ is_among word.now (words_in words.entry.now) }
{
    while let [first, others @ ..] = words {
        if *first == word {
            return true;
        }
        words = others;
    }
    false
}

/// Whether a command has an option.
pub fn has_option(command: Command, option: OptionName) -> bool
    ensures { result ≡ has_option command option }
{
    match row_of(option) {
        Some(row) => is_among(word_of(command), row.4),
        None => false,
    }
}

/// Whether options of a kind need a value.
pub(crate) fn needs_value(kind: Kind) -> bool
    ensures { result ≡ needs_value kind }
{
    match kind {
        Kind::Flag => false,
        Kind::Deviations => false,
        _ => true,
    }
}

/// Whether a row has a short name, and its option needs a value, which may then be attached to that name.
fn is_attachable(name: &str, row: &Row) -> bool
    ensures { result ≡ is_attachable name.now (row_in row.now) }
{
    match row.2 {
        Some(short) => short == name && needs_value(row.3),
        None => false,
    }
}

/// Whether one of rows has a short name to which a value may be attached.
fn has_attachable(mut rows: &[Row], name: &str) -> bool
    ensures { result ≡ list_any (is_attachable name.now) (map row_in rows.entry.now) }
{
    while let [row, others @ ..] = rows {
        if is_attachable(name, row) {
            return true;
        }
        rows = others;
    }
    false
}

/// Whether a name is a short one to which a value may be attached.
pub(crate) fn takes_attached(name: &str) -> bool
    ensures { result ≡ takes_attached name.now }
{
    has_attachable(&all_rows(), name)
}

/// The end of the message if an option is given without another that it needs.
pub(crate) fn why_needed(option: OptionName, other: OptionName) -> &'static str {
    let Some(row) = row_of(option) else {
        return "";
    };
    for condition in row.5 {
        if let Rule::Needs(needed) = condition.1 {
            if needed == other {
                return condition.2;
            }
        }
    }
    ""
}

/// The end of the message if an option is given together with another that it excludes.
pub(crate) fn why_excluded(option: OptionName, other: OptionName) -> &'static str {
    let Some(row) = row_of(option) else {
        return "";
    };
    for condition in row.5 {
        if let Rule::Excludes(excluded) = condition.1 {
            if excluded == other {
                return condition.2;
            }
        }
    }
    ""
}
