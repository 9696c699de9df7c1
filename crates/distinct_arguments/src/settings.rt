//! What options do to the values of options.
ghost use Rattle.std.specs.Prelude.{◌≡◌, ◌≤◌, ◌<◌, IfSome};
ghost use Rattle.std.specs.Option.{option_map};
ghost use Rattle.distinct_arguments.specs.Settings.{default_lg_k, default_options, between, chosen_key, chosen_group, chosen_mode, chosen_value};
ghost use Rattle.distinct_arguments.specs.Settings.{column_of, column_value, has_texts, number_in, set_column, text_in};
ghost use Rattle.distinct_arguments.specs.Settings.{given_or, is_file, is_given, seed_in, seed_value, wrong_value};
ghost use Rattle.distinct_arguments.specs.Settings.{options_of, set_flag, set_number, set_text, with_flag, with_value};
ghost use Rattle.distinct_arguments.specs.Settings.{IsOfKind};
ghost use Rattle.distinct_arguments.specs.Faults.{ReadsAs, SetsOptions};
ghost use Rattle.distinct_arguments.specs.Table.{kind_of};

use crate::commands::{Command, Operator};
use crate::fault::{Fault, WrongWord, quoting};
use crate::options::{Column, Form, Mode, Options, Seed};
use crate::precision::size_of;
use crate::table::{Kind, OptionName, kind_of};
use crate::words::{byte_of, deviations_of, is_digits, mode_of, number_of, order_of, share_of};
use core_laws::DEFAULT_LG_K;
use estimates::Deviations;
use keys_lines::Key;
use sketch_base::{DEFAULT_UPDATE_SEED, ErrorKind, compute_seed_hash};
use std::alloc::Global;

/// The default separator of fields.
const TAB: u8 = b'\t';
/// The separator of fields in the lines that records are read as: the unit separator of ASCII.
const BETWEEN: u8 = 31;
/// The byte between the parts of a line that texts choose: the record separator of ASCII.
const PARTS: u8 = 30;
/// The default of `--lg-k` of commands that print counts: their error is then within 0.4 %.
const COUNTING_LG_K: u8 = 16;
/// The greatest number of a field.
const MOST_FIELDS: u64 = 4294967295;
/// The nominal entries of unions that drop no hash: the most that a union may have.
const WHOLE_LG_K: u8 = 26;

/// The default of `--lg-k`. Commands without this option, which unite images only with `--groups`, drop no hash.
fn default_lg_k(command: Command) -> u8
    ensures value { result ≡ default_lg_k command }
    ensures low { 4 ≤ result }
    ensures high { result ≤ 26 }
{
    match command {
        Command::Count => COUNTING_LG_K,
        Command::Visits => COUNTING_LG_K,
        Command::Show => WHOLE_LG_K,
        Command::Combine(Operator::Meet) => WHOLE_LG_K,
        Command::Combine(Operator::Minus) => WHOLE_LG_K,
        _ => DEFAULT_LG_K,
    }
}

impl<'a> Options<'a> {
    /// The defaults, of a command without options.
    pub(crate) fn new(command: Command) -> Options<'a>
        ensures { options_of result ≡ default_options command }
    {
        Options {
            lg_k: default_lg_k(command),
            field: None,
            field_text: None,
            separator: None,
            csv: false,
            blanks: false,
            crlf: false,
            header: false,
            per_file: false,
            by: None,
            by_text: None,
            sort: None,
            least: None,
            most: None,
            value: None,
            value_text: None,
            skip_invalid: false,
            summary: None,
            visits: false,
            groups: false,
            sums: false,
            seed: Seed::Number(DEFAULT_UPDATE_SEED),
            hex: false,
            keys: false,
            progress: false,
            output: None,
            folder: None,
            list: None,
            part: None,
            dir: None,
            expected: None,
            bounds: None,
            form: Form::Plain,
            human: false,
            force: false,
            quiet: false,
        }
    }

    /// The byte between the fields of a line: 31 with `--csv`, a tab with `--blanks`, else the separator, by default a tab.
    pub fn between(&self) -> u8
        ensures { result ≡ between (options_of self.now) }
    {
        if self.csv {
            BETWEEN
        } else if self.blanks {
            TAB
        } else {
            self.separator.unwrap_or(TAB)
        }
    }

    /// Whether a text chooses fields. Each line is then read as its key, its group and its number, with `PARTS` between.
    pub fn has_texts(&self) -> bool
        ensures { result ≡ has_texts (options_of self.now) }
    {
        self.field_text.is_some() || self.by_text.is_some() || self.value_text.is_some()
    }

    /// Which part of a line is its key.
    pub fn key(&self) -> Key
        ensures { result ≡ chosen_key (options_of self.now) }
    {
        if self.has_texts() {
            return Key::Field(0, PARTS);
        }
        match self.field {
            Some(number) => Key::field(number, self.between()),
            None => Key::Line,
        }
    }

    /// Which part of a line is the name of its group; `None` if lines are not grouped.
    pub fn group(&self) -> Option<Key>
        ensures { result ≡ chosen_group (options_of self.now) }
    {
        match self.by {
            Some(_) if self.has_texts() => Some(Key::Field(1, PARTS)),
            Some(number) => Some(Key::field(number, self.between())),
            None => None,
        }
    }

    /// How the numbers of a key are combined.
    pub fn mode(&self) -> Mode
        ensures { result ≡ chosen_mode (options_of self.now) }
    {
        self.summary.unwrap_or(Mode::Sum)
    }

    /// Which part of a line is its number; `None` if no numbers are read.
    pub fn value(&self) -> Option<Key>
        ensures { result ≡ chosen_value (options_of self.now) }
    {
        match self.value {
            Some(_) if self.has_texts() => Some(Key::Field(2, PARTS)),
            Some(number) => Some(Key::field(number, self.between())),
            None => None,
        }
    }
}

/// Whether an option is given. Of `--lg-k`, `--error` and `--seed`, whose defaults aren't marked, it is false: no rule
/// names them.
pub(crate) fn is_given(options: &Options<'_>, option: OptionName) -> bool
    ensures { result ≡ is_given (options_of options.now) option }
{
    match option {
        OptionName::Field => options.field.is_some(),
        OptionName::Separator => options.separator.is_some(),
        OptionName::Csv => options.csv,
        OptionName::Blanks => options.blanks,
        OptionName::Crlf => options.crlf,
        OptionName::Header => options.header,
        OptionName::PerFile => options.per_file,
        OptionName::Value => options.value.is_some(),
        OptionName::SkipInvalid => options.skip_invalid,
        OptionName::Summary => options.summary.is_some(),
        OptionName::Visits => options.visits,
        OptionName::Keys => options.keys,
        OptionName::Sums => options.sums,
        OptionName::Hex => options.hex,
        OptionName::FileList => options.list.is_some(),
        OptionName::Part => options.part.is_some(),
        OptionName::Dir => options.dir.is_some(),
        OptionName::LgK => false,
        OptionName::Error => false,
        OptionName::Seed => false,
        OptionName::SeedFile => is_file(options.seed),
        OptionName::By => options.by.is_some(),
        OptionName::Groups => options.groups,
        OptionName::Expect => options.expected.is_some(),
        OptionName::Sort => options.sort.is_some(),
        OptionName::Min => options.least.is_some(),
        OptionName::Top => options.most.is_some(),
        OptionName::Progress => options.progress,
        OptionName::Bounds => options.bounds.is_some(),
        OptionName::Tsv => options.form == Form::Tsv,
        OptionName::Json => options.form == Form::Json,
        OptionName::Human => options.human,
        OptionName::OutputDir => options.folder.is_some(),
        OptionName::Output => options.output.is_some(),
        OptionName::Force => options.force,
        OptionName::Quiet => options.quiet,
    }
}

/// Whether a seed is in a file.
fn is_file(seed: Seed<'_>) -> bool
    ensures { result ≡ is_file (seed_value seed.entry) }
{
    match seed {
        Seed::Number(_) => false,
        Seed::File(_) => true,
    }
}

/// The options after a flag.
fn set_flag<'a>(options: Options<'a>, option: OptionName) -> Options<'a>
    ensures { options_of result ≡ set_flag (options_of options.entry) option }
{
    let mut changed = options;
    match option {
        OptionName::Progress => changed.progress = true,
        OptionName::Tsv => changed.form = Form::Tsv,
        OptionName::Json => changed.form = Form::Json,
        OptionName::Human => changed.human = true,
        OptionName::Csv => changed.csv = true,
        OptionName::Blanks => changed.blanks = true,
        OptionName::Crlf => changed.crlf = true,
        OptionName::Header => changed.header = true,
        OptionName::PerFile => changed.per_file = true,
        OptionName::SkipInvalid => changed.skip_invalid = true,
        OptionName::Hex => changed.hex = true,
        OptionName::Keys => changed.keys = true,
        OptionName::Visits => changed.visits = true,
        OptionName::Groups => changed.groups = true,
        OptionName::Sums => changed.sums = true,
        OptionName::Force => changed.force = true,
        OptionName::Quiet => changed.quiet = true,
        _ => {}
    }
    changed
}

/// A number as a `lg_k`.
fn as_size(number: u64) -> u8
    requires { (4 ≤ number) × (number ≤ 26) }
    ensures value { result ≡ number }
    ensures low { 4 ≤ result }
    ensures high { result ≤ 26 }
{
    number as u8
}

/// A number from 1 as one of 32 bits.
fn as_ordinal(number: u64) -> u32
    requires { (1 ≤ number) × (number ≤ 4294967295) }
    ensures value { result ≡ number }
    ensures from_one { 0 < result }
{
    number as u32
}

/// The options after an option whose value is a number in the range of its row, which replaces an earlier one.
fn set_number<'a>(options: Options<'a>, option: OptionName, number: u64) -> Options<'a>
    requires fits { IsOfKind (kind_of option) number }
    ensures { options_of result ≡ set_number (options_of options.entry) option number }
{
    let mut changed = options;
    match option {
        OptionName::LgK => {
            changed.lg_k = as_size(number);
            changed
        }
        OptionName::Expect => {
            changed.expected = Some(number);
            changed
        }
        OptionName::Min => {
            changed.least = Some(number);
            changed
        }
        OptionName::Top => {
            changed.most = Some(number);
            changed
        }
        _ => changed,
    }
}

/// What a word chooses: a field, or a text if it isn't all of digits.
fn column_of(word: &str) -> Option<Column<'_>>
    ensures value { option_map column_value result ≡ column_of word.now }
    ensures from_one { IfSome result (λ column. 0 < number_in (column_value column)) }
{
    match number_of(word, 1, MOST_FIELDS) {
        Some(number) => Some(Column::Number(as_ordinal(number))),
        None => if is_digits(word) {
            None
        } else {
            Some(Column::Text(word))
        },
    }
}

/// The number that chooses a field, or 1.
fn number_in(column: Column<'_>) -> u32
    ensures { result ≡ number_in (column_value column.entry) }
{
    match column {
        Column::Number(number) => number,
        Column::Text(_) => 1,
    }
}

/// The text that chooses fields, if one does.
fn text_in<'a>(column: Column<'a>) -> Option<&'a str>
    ensures { option_map (λ text. text.now) result ≡ text_in (column_value column.entry) }
{
    match column {
        Column::Number(_) => None,
        Column::Text(text) => Some(text),
    }
}

/// The options after an option that chooses fields, which replaces an earlier choice.
fn set_column<'a>(options: Options<'a>, option: OptionName, column: Column<'a>) -> Options<'a>
    requires from_one { 0 < number_in (column_value column) }
    ensures { options_of result ≡ set_column (options_of options.entry) option (column_value column.entry) }
{
    let mut changed = options;
    match option {
        OptionName::Field => {
            changed.field = Some(number_in(column));
            changed.field_text = text_in(column);
            changed
        }
        OptionName::By => {
            changed.by = Some(number_in(column));
            changed.by_text = text_in(column);
            changed
        }
        OptionName::Value => {
            changed.value = Some(number_in(column));
            changed.value_text = text_in(column);
            changed
        }
        _ => changed,
    }
}

/// The options after an option whose value may be any text, which replaces an earlier one.
fn set_text<'a>(options: Options<'a>, option: OptionName, value: &'a str) -> Options<'a>
    ensures { options_of result ≡ set_text (options_of options.entry) option value.now }
{
    let mut changed = options;
    match option {
        OptionName::SeedFile => changed.seed = Seed::File(value),
        OptionName::FileList => changed.list = Some(value),
        OptionName::Output => changed.output = Some(value),
        OptionName::OutputDir => changed.folder = Some(value),
        OptionName::Dir => changed.dir = Some(value),
        _ => {}
    }
    changed
}

/// The options after an option without a value; `None` if it needs one.
pub(crate) fn with_flag<'a>(options: Options<'a>, option: OptionName) -> Option<Options<'a>>
    ensures { option_map options_of result ≡ with_flag (options_of options.entry) option }
{
    match kind_of(option) {
        Kind::Flag => Some(set_flag(options, option)),
        Kind::Deviations => {
            let mut changed = options;
            changed.bounds = Some(Deviations::Two);
            Some(changed)
        }
        _ => None,
    }
}

/// The value of an option, read from a word, or the fault if it takes no such word.
fn given<X: Drop>(
    alloc: Global,
    option: OptionName,
    word: &str,
    read: Option<X>,
) -> Result<X, Fault>
    ensures { ReadsAs result (given_or (wrong_value option word.now) read) }
{
    match read {
        Some(value) => Ok(value),
        None => Err(quoting(alloc, WrongWord::WrongValue(option), word)),
    }
}

/// The seed that a word spells; its seed hash isn't 0.
fn seed_in(alloc: Global, word: &str) -> Result<u64, Fault>
    ensures { ReadsAs result (seed_in word.now) }
{
    let number = given(alloc, OptionName::Seed, word, number_of(word, 0, u64::MAX))?;
    match compute_seed_hash(number, ErrorKind::InvalidArgument) {
        Ok(_) => Ok(number),
        Err(_) => Err(Fault::ZeroSeed(number)),
    }
}

/// The options after an option and its value, which replaces an earlier value of that option. `name` is the option's
/// name, for the fault of an option that takes no value.
pub(crate) fn with_value<'a>(
    alloc: Global,
    options: Options<'a>,
    option: OptionName,
    name: &str,
    value: &'a str,
) -> Result<Options<'a>, Fault>
    ensures { SetsOptions result (with_value (options_of options.entry) option name.now value.now) }
{
    let mut changed = options;
    match kind_of(option) {
        Kind::Flag => Err(quoting(alloc, WrongWord::UnneededValue, name)),
        Kind::Number(least, greatest) => {
            let number = given(alloc, option, value, number_of(value, least, greatest))?;
            Ok(set_number(options, option, number))
        }
        Kind::Columns => {
            let column = given(alloc, option, value, column_of(value))?;
            Ok(set_column(options, option, column))
        }
        Kind::Byte => {
            changed.separator = Some(given(alloc, option, value, byte_of(value))?);
            Ok(changed)
        }
        Kind::Seed => match seed_in(alloc, value) {
            Ok(seed) => {
                changed.seed = Seed::Number(seed);
                Ok(changed)
            }
            Err(fault) => Err(fault),
        },
        Kind::Deviations => {
            changed.bounds = Some(given(alloc, option, value, deviations_of(value))?);
            Ok(changed)
        }
        Kind::Percent => {
            changed.lg_k = given(alloc, option, value, size_of(value))?;
            Ok(changed)
        }
        Kind::Share => {
            changed.part = Some(given(alloc, option, value, share_of(value))?);
            Ok(changed)
        }
        Kind::Order => {
            changed.sort = Some(given(alloc, option, value, order_of(value))?);
            Ok(changed)
        }
        Kind::Mode => {
            changed.summary = Some(given(alloc, option, value, mode_of(value))?);
            Ok(changed)
        }
        Kind::Text => Ok(set_text(options, option, value)),
    }
}
