//! The program's arguments.
ghost use Rattle.std.specs.Prelude.{◌≡◌, ◌+◌, ◌∷◌, true, false, Some, None, codes, length, string_bytes};
ghost use Rattle.std.specs.Option.{option_map};
ghost use Rattle.std.specs.Str.{bytes_eq};
ghost use Rattle.distinct_arguments.specs.Arguments.{action_of, first_action, command_action, option_meaning};
ghost use Rattle.distinct_arguments.specs.Arguments.{setting_meaning, value_meaning, flag_meaning};
ghost use Rattle.distinct_arguments.specs.Settings.{with_flag, with_value};
ghost use Rattle.distinct_arguments.specs.Faults.{options_of, IsFront, IsMeaning, IsStep, ParsesAs};
ghost use Rattle.distinct_arguments.specs.Words.{Setting, is_option, words_of};

use crate::commands::{Command, Request, Topic};
use crate::fault::{Fault, WrongWord, quoting};
use crate::files::run_request;
use crate::options::Options;
use crate::settings::{with_flag, with_value};
use crate::table::{OptionName, has_option, option_of};
use crate::words::{command_of, is_dir, is_help, is_option, is_version, split_option};
use std::alloc::Global;

/// What a word means that looks like an option: a request for help, other values of options, an option whose value is
/// the next word, or a fault.
#[derive(Debug, Drop)]
enum Meaning<'a> {
    Help,
    Sets(Options<'a>),
    Awaits(OptionName),
    Wrong(Fault),
}

/// What an option of this name means with a value.
fn meaning_with<'a>(
    alloc: Global,
    options: Options<'a>,
    option: OptionName,
    name: &str,
    value: &'a str,
) -> Meaning<'a>
    ensures { IsMeaning name.now result (value_meaning (with_value (options_of options.entry) option name.now value.now)) }
{
    match with_value(alloc, options, option, name, value) {
        Ok(changed) => Meaning::Sets(changed),
        Err(fault) => Meaning::Wrong(fault),
    }
}

/// What an option of this name means without a value.
fn meaning_without<'a>(options: Options<'a>, option: OptionName, name: &str) -> Meaning<'a>
    ensures { IsMeaning name.now result (flag_meaning (record { option = option; name = name.now }) (with_flag (options_of options.entry) option)) }
{
    match with_flag(options, option) {
        Some(changed) => Meaning::Sets(changed),
        None => Meaning::Awaits(option),
    }
}

/// What an option of a command means, with the value that its word has or without one.
fn meaning_of_option<'a>(
    alloc: Global,
    command: Command,
    options: Options<'a>,
    option: OptionName,
    name: &str,
    value: Option<&'a str>,
) -> Meaning<'a>
    ensures { let setting : Setting = record { name = name.now; value = option_map (λ text. text.now) value.entry } in
        IsMeaning name.now result (option_meaning command (options_of options.entry) setting option) }
{
    if !has_option(command, option) {
        return Meaning::Wrong(quoting(alloc, WrongWord::UnknownOption, name));
    }
    match value {
        Some(text) => meaning_with(alloc, options, option, name, text),
        None => meaning_without(options, option, name),
    }
}

/// What a word means that looks like an option.
fn meaning_of<'a>(
    alloc: Global,
    command: Command,
    options: Options<'a>,
    name: &str,
    value: Option<&'a str>,
) -> Meaning<'a>
    ensures { let setting : Setting = record { name = name.now; value = option_map (λ text. text.now) value.entry } in
        IsMeaning name.now result (setting_meaning command (options_of options.entry) setting) }
{
    if is_help(name) {
        return match value {
            Some(_) => Meaning::Wrong(quoting(alloc, WrongWord::UnneededValue, name)),
            None => Meaning::Help,
        };
    }
    match option_of(name) {
        Some(option) => meaning_of_option(alloc, command, options, option, name, value),
        None => Meaning::Wrong(quoting(alloc, WrongWord::UnknownOption, name)),
    }
}

/// What the next words are: an option, a request for help, the files, or a fault.
#[derive(Debug, Drop)]
enum Step<'a> {
    Next(Options<'a>, &'a [String]),
    Help,
    Files(&'a [String]),
    Wrong(Fault),
}

/// Reads the value of an option of this name, which is the next word.
fn read_value<'a>(
    alloc: Global,
    command: Command,
    options: Options<'a>,
    option: OptionName,
    name: &str,
    words: &'a [String],
) -> Step<'a>
    ensures { IsStep command (options_of options.entry) (length words.now + 1)
        (command_action command (options_of options.entry) (Some (record { option = option; name = name.now }))
        (words_of words.now))
        result }
{
    let Some((value, behind)) = words.split_first() else {
        return Step::Wrong(quoting(alloc, WrongWord::NoValue, name));
    };
    match with_value(alloc, options, option, name, value.as_str()) {
        Ok(changed) => Step::Next(changed, behind),
        Err(fault) => Step::Wrong(fault),
    }
}

/// Reads the option in front of other words.
fn read_option<'a>(
    command: Command,
    options: Options<'a>,
    word: &'a String,
    others: &'a [String],
) -> Step<'a>
    requires no_end { bytes_eq (string_bytes word.now) (codes "--") ≡ false }
    requires no_file { is_option (string_bytes word.now) ≡ true }
    ensures { IsStep command (options_of options.entry) (length others.now + 1)
        (command_action command (options_of options.entry) None (string_bytes word.now ∷ words_of others.now))
        result }
{
    let alloc = *word.allocator();
    let setting = split_option(word.as_str());
    match meaning_of(alloc, command, options, setting.0, setting.1) {
        Meaning::Help => Step::Help,
        Meaning::Sets(changed) => Step::Next(changed, others),
        Meaning::Awaits(option) => read_value(alloc, command, options, option, setting.0, others),
        Meaning::Wrong(fault) => Step::Wrong(fault),
    }
}

/// What the next words are. `--` ends the options, and `-` is a file.
fn read_step<'a>(command: Command, options: Options<'a>, words: &'a [String]) -> Step<'a>
    ensures { IsStep command (options_of options.entry) (length words.now)
        (command_action command (options_of options.entry) None (words_of words.now)) result }
{
    let Some((word, others)) = words.split_first() else {
        return Step::Files(words);
    };
    let next = word.as_str();
    if next == "--" {
        return Step::Files(others);
    }
    if !is_option(next) {
        return Step::Files(words);
    }
    read_option(command, options, word, others)
}

/// What the words after a command request: options, and then files.
fn read_command<'a>(
    command: Command,
    options: Options<'a>,
    words: &'a [String],
) -> Result<Request<'a>, Fault>
    ensures { ParsesAs result (command_action command (options_of options.entry) None (words_of words.now)) }
{
    match read_step(command, options, words) {
        Step::Next(changed, behind) => read_command(command, changed, behind),
        Step::Help => Ok(Request::Print(Topic::Help(command))),
        Step::Files(files) => run_request(command, options, files),
        Step::Wrong(fault) => Err(fault),
    }
}

/// What words without `-C` in front request.
fn read_words(words: &[String]) -> Result<Request<'_>, Fault>
    ensures { ParsesAs result (first_action (words_of words.now)) }
{
    let Some((first, rest)) = words.split_first() else {
        return Err(Fault::NoCommand);
    };
    let word = first.as_str();
    if is_help(word) {
        return Ok(Request::Print(Topic::Program));
    }
    if is_version(word) {
        return Ok(Request::Print(Topic::Version));
    }
    match command_of(word) {
        Some(command) => read_command(command, Options::new(command), rest),
        None => Err(quoting(*first.allocator(), WrongWord::UnknownCommand, word)),
    }
}

/// What is in front of arguments.
#[derive(Debug, Drop)]
pub enum Front<'a> {
    /// `-C` with this folder, and behind both these words.
    Dir(&'a str, &'a [String]),
    /// A command or another word, or there is no word.
    Other,
    /// `-C` without a folder.
    Wrong(Fault),
}

/// What is in front of arguments: `-C` with its folder, or something else.
pub fn front_of(words: &[String]) -> Front<'_>
    ensures { IsFront (length words.now) (words_of words.now) result }
{
    let Some((word, others)) = words.split_first() else {
        return Front::Other;
    };
    let setting = split_option(word.as_str());
    if !is_dir(setting.0) {
        return Front::Other;
    }
    if let Some(dir) = setting.1 {
        return Front::Dir(dir, others);
    }
    match others.split_first() {
        Some((dir, behind)) => Front::Dir(dir.as_str(), behind),
        None => Front::Wrong(quoting(*word.allocator(), WrongWord::NoValue, setting.0)),
    }
}

/// What the arguments request, without the program's name, the options before the files (`options_first`). In front
/// of the command each `-C` has a folder (`front_of`). If they are wrong, it fails with the first fault of a word from
/// the left; if no word has one, with the first that applies of `NotOneExpression`, `SumNeedsValue`, the first rule of
/// the table that is broken, `ListExcludesFiles` and `StandardTwice`. If memory for the text of a fault is refused, it
/// fails with `Memory`.
pub fn read_arguments(words: &[String]) -> Result<Request<'_>, Fault>
    ensures { ParsesAs result (action_of (words_of words.now)) }
{
    match front_of(words) {
        Front::Dir(_, others) => read_arguments(others),
        Front::Other => read_words(words),
        Front::Wrong(fault) => Err(fault),
    }
}
