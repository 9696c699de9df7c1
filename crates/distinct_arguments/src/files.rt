//! The files after the options, and whether they fit the options.
ghost use Rattle.std.specs.Prelude.{◌≡◌, ◌≤◌, ◌+◌, map, nat_lt, true, false, if◌then◌else◌, OnOk, OnErr, IfErr};
ghost use Rattle.std.specs.Option.{option_map};
ghost use Rattle.std.specs.List.{list_any};
ghost use Rattle.std.specs.Str.{bytes_eq};
ghost use Rattle.distinct_arguments.specs.Arguments.{standard_files, standard_uses, is_standard_seed, is_standard_list};
ghost use Rattle.distinct_arguments.specs.Arguments.{is_standard_default, has_one_expression, lacks_value};
ghost use Rattle.distinct_arguments.specs.Arguments.{chooses_field, places_groups, makes_groups, broken_rule, broken_in};
ghost use Rattle.distinct_arguments.specs.Arguments.{broken_condition, broken_by, broken_row, broken};
ghost use Rattle.distinct_arguments.specs.Arguments.{run_action, listed_action};
ghost use Rattle.distinct_arguments.specs.Arguments.{keeps_files, output_mistake, reads_images, reads_texts};
ghost use Rattle.distinct_arguments.specs.Faults.{options_of, seed_value, ParsesAs, Reports, ReportsIf};
ghost use Rattle.distinct_arguments.specs.Table.{condition_in, row_in};
ghost use Rattle.distinct_arguments.specs.Words.{is_standard, reads_lines, reads_expression, words_of};

use crate::commands::{Command, Request};
use crate::fault::{Fault, WrongWord, quoting};
use crate::options::{Options, Seed};
use crate::settings::is_given;
use crate::table::{Condition, OptionName, Row, Rule, all_rows, is_among};
use crate::words::word_of;
use std::alloc::Global;

/// Whether a file name means standard input.
fn is_standard(name: &str) -> bool
    ensures { result ≡ is_standard name.now }
{
    name == "-"
}

/// Whether a seed is read from standard input.
fn is_standard_seed(seed: Seed<'_>) -> bool
    ensures { result ≡ is_standard_seed (seed_value seed.entry) }
{
    match seed {
        Seed::Number(_) => false,
        Seed::File(name) => is_standard(name),
    }
}

/// Whether the list of files is read from standard input.
fn is_standard_list(list: Option<&str>) -> bool
    ensures { result ≡ is_standard_list (option_map (λ name. name.now) list.entry) }
{
    match list {
        None => false,
        Some(name) => is_standard(name),
    }
}

/// Whether a command reads lines.
fn reads_lines(command: Command) -> bool
    ensures { result ≡ reads_lines command }
{
    match command {
        Command::Count => true,
        Command::Sketch => true,
        Command::Combine(_) => false,
        Command::Show => false,
        Command::Eval => false,
        Command::Visits => true,
        Command::Sum => true,
        Command::Similarity => false,
        Command::Matrix => false,
    }
}

/// Whether a command reads an expression.
fn reads_expression(command: Command) -> bool
    ensures { result ≡ reads_expression command }
{
    command == Command::Eval
}

/// Whether there is exactly one file word, if a command reads an expression.
fn has_one_expression(command: Command, files: &[String]) -> bool
    ensures { result ≡ has_one_expression command (words_of files.now) }
{
    !reads_expression(command) || files.len() == 1
}

/// Whether options say that the files have images.
fn reads_images(options: &Options<'_>) -> bool
    ensures { result ≡ reads_images (options_of options.now) }
{
    options.sums || options.groups
}

/// Whether a command reads lines from standard input because it has no file.
fn is_standard_default(command: Command, options: &Options<'_>, files: &[String]) -> bool
    ensures { result ≡ is_standard_default command (options_of options.now) (words_of files.now) }
{
    reads_lines(command) && !reads_images(options) && options.list.is_none() && files.is_empty()
}

/// 1 if a test holds, else 0.
fn number_if(test: bool) -> u8
    ensures value { result ≡ (if test then 1 else 0) }
    ensures small { result ≤ 1 }
{
    if test { 1 } else { 0 }
}

/// Whether `uses`, at most 3, and the number of files that are standard input are more than 1 together.
fn is_repeated(uses: u8, files: &[String]) -> bool
    requires { uses ≤ 3 }
    ensures { result ≡ nat_lt 1 (uses + standard_files (words_of files.now)) }
{
    let mut count = uses;
    let mut rest = files;
    while let Some((file, others)) = rest.split_first() {
        if 1 < count {
            return true;
        }
        count += number_if(is_standard(file.as_str()));
        rest = others;
    }
    count > 1
}

/// Whether standard input would be read more than once.
fn is_read_twice(command: Command, options: &Options<'_>, files: &[String]) -> bool
    ensures { result ≡ nat_lt 1 (standard_uses command (options_of options.now) (words_of files.now)) }
{
    let seed = number_if(is_standard_seed(options.seed));
    let list = number_if(is_standard_list(options.list));
    let default = number_if(is_standard_default(command, options, files));
    is_repeated(seed + list + default, files)
}

/// Whether a command sums numbers, and no field has them.
fn lacks_value(command: Command, options: &Options<'_>) -> bool
    ensures { result ≡ lacks_value command (options_of options.now) }
{
    match command {
        Command::Sum => options.value.is_none(),
        _ => false,
    }
}

/// Whether an option chooses a field, or fields are those of records.
fn chooses_field(options: &Options<'_>) -> bool
    ensures { result ≡ chooses_field (options_of options.now) }
{
    options.csv || options.field.is_some() || options.by.is_some() || options.value.is_some()
}

/// Whether options say where images of groups go.
fn places_groups(options: &Options<'_>) -> bool
    ensures { result ≡ places_groups (options_of options.now) }
{
    options.hex || options.folder.is_some()
}

/// Whether options make groups: of lines, or of images.
fn makes_groups(options: &Options<'_>) -> bool
    ensures { result ≡ makes_groups (options_of options.now) }
{
    options.by.is_some() || options.groups
}

/// The fault of an option that is given, if it breaks a rule.
fn broken_rule(options: &Options<'_>, option: OptionName, rule: Rule) -> Option<Fault>
    ensures { ReportsIf result (broken_rule (options_of options.now) option rule) }
{
    match rule {
        Rule::Needs(other) if !is_given(options, other) => Some(Fault::Needs(option, other)),
        Rule::Excludes(other) if is_given(options, other) => Some(Fault::Excludes(option, other)),
        Rule::NeedsField if !chooses_field(options) => Some(Fault::SeparatorNeedsField),
        Rule::NeedsOutput if !places_groups(options) => Some(Fault::GroupsNeedOutput),
        Rule::NeedsGroups if !makes_groups(options) => Some(Fault::NeedsGroups(option)),
        _ => None,
    }
}

/// The fault of an option that is given, if a command breaks this rule.
fn broken_in(
    command: Command,
    options: &Options<'_>,
    option: OptionName,
    condition: &Condition,
) -> Option<Fault>
    ensures { ReportsIf result (broken_in command (options_of options.now) option (condition_in condition.now)) }
{
    if is_among(word_of(command), condition.0) {
        broken_rule(options, option, condition.1)
    } else {
        None
    }
}

/// The fault of an option that is given, if a command breaks one of these rules: that of the first.
fn broken_condition(
    command: Command,
    options: &Options<'_>,
    option: OptionName,
    mut conditions: &[Condition],
) -> Option<Fault>
    ensures { ReportsIf result
        (broken_condition command (options_of options.now) option (map condition_in conditions.entry.now)) }
{
    while let [condition, others @ ..] = conditions {
        if let Some(fault) = broken_in(command, options, option, condition) {
            return Some(fault);
        }
        conditions = others;
    }
    None
}

/// The fault of options that break a rule of a row: that of the first.
fn broken_by(command: Command, options: &Options<'_>, row: &Row) -> Option<Fault>
    ensures { ReportsIf result (broken_by command (options_of options.now) (row_in row.now)) }
{
    if is_given(options, row.0) {
        broken_condition(command, options, row.0, row.5)
    } else {
        None
    }
}

/// The fault of options that break a rule of these rows: that of the first.
fn broken_row(command: Command, options: &Options<'_>, mut rows: &[Row]) -> Option<Fault>
    ensures { ReportsIf result (broken_row command (options_of options.now) (map row_in rows.entry.now)) }
{
    while let [row, others @ ..] = rows {
        if let Some(fault) = broken_by(command, options, row) {
            return Some(fault);
        }
        rows = others;
    }
    None
}

/// The fault of options that don't fit together, by the table.
fn broken(command: Command, options: &Options<'_>) -> Option<Fault>
    ensures { ReportsIf result (broken command (options_of options.now)) }
{
    broken_row(command, options, &all_rows())
}

/// The request to run a command on files, if these fit a list of files, and standard input is read once.
fn listed_request<'a>(
    command: Command,
    options: Options<'a>,
    files: &'a [String],
) -> Result<Request<'a>, Fault>
    ensures { ParsesAs result (listed_action command (options_of options.entry) (words_of files.now)) }
{
    if options.list.is_some() && !files.is_empty() {
        return Err(Fault::ListExcludesFiles);
    }
    if is_read_twice(command, &options, files) {
        return Err(Fault::StandardTwice);
    }
    Ok(Request::Run(command, options, files))
}

/// The request to run a command on files, if its options and the files fit together.
pub(crate) fn run_request<'a>(
    command: Command,
    options: Options<'a>,
    files: &'a [String],
) -> Result<Request<'a>, Fault>
    ensures { ParsesAs result (run_action command (options_of options.entry) (words_of files.now)) }
{
    if !has_one_expression(command, files) {
        return Err(Fault::NotOneExpression);
    }
    if lacks_value(command, &options) {
        return Err(Fault::SumNeedsValue);
    }
    match broken(command, &options) {
        Some(fault) => Err(fault),
        None => listed_request(command, options, files),
    }
}

/// Whether a command reads files as lines.
pub fn reads_texts(command: Command, options: &Options<'_>) -> bool
    ensures { result ≡ reads_texts command (options_of options.now) }
{
    reads_lines(command) && !reads_images(options) || options.keys
}

/// Whether a name is one of these.
fn is_named(name: &str, files: &[String]) -> bool
    ensures { result ≡ list_any (λ file. bytes_eq file name.now) (words_of files.now) }
{
    let mut rest = files;
    while let Some((file, others)) = rest.split_first() {
        if file.as_str() == name {
            return true;
        }
        rest = others;
    }
    false
}

/// Fails with `OutputIsInput` if the output of a command would replace one of these files, which it reads as lines,
/// unless `--force` is given. Only names are compared, byte by byte. If memory for the name is refused, it fails with
/// `Memory`.
pub fn check_output(
    alloc: Global,
    command: Command,
    options: &Options<'_>,
    files: &[String],
) -> Result<(), Fault>
    ensures kept { OnOk result (keeps_files command (options_of options.now) (words_of files.now) ≡ true) }
    ensures refused { OnErr result (keeps_files command (options_of options.now) (words_of files.now) ≡ false) }
    ensures reports { IfErr result (λ fault. Reports fault (output_mistake (options_of options.now))) }
{
    let Some(name) = options.output else {
        return Ok(());
    };
    let is_checked = reads_texts(command, options) && !options.force && !is_standard(name);
    if is_checked && is_named(name, files) {
        return Err(quoting(alloc, WrongWord::OutputIsInput, name));
    }
    Ok(())
}
