//! Single words of the arguments.
ghost use Rattle.std.specs.Str.{all_ascii_digits};
ghost use Rattle.std.specs.Prelude.{◌≡◌, ◌==◌, slice_index, Some};
ghost use Rattle.std.specs.Option.{option_map};
ghost use Rattle.distinct_arguments.specs.Commands.{command_of, word_of};
ghost use Rattle.distinct_arguments.specs.Words.{is_help, is_version, is_dir, is_option};
ghost use Rattle.distinct_arguments.specs.Words.{setting_with, short_parts, split_setting, split_option, number_of};
ghost use Rattle.distinct_arguments.specs.Words.{byte_of, seed_of, deviations_of, order_of, mode_of};
ghost use Rattle.distinct_arguments.specs.Shares.{numbers_of, share_of};

use crate::commands::{Command, Operator};
use crate::options::{Mode, Order};
use crate::share::Share;
use crate::table::takes_attached;
use estimates::Deviations;
use sketch_base::{ErrorKind, compute_seed_hash};

/// The command that a word names.
pub fn command_of(word: &str) -> Option<Command>
    ensures { result ≡ command_of word.now }
{
    match word {
        "count" => Some(Command::Count),
        "sketch" => Some(Command::Sketch),
        "union" => Some(Command::Combine(Operator::Union)),
        "meet" => Some(Command::Combine(Operator::Meet)),
        "minus" => Some(Command::Combine(Operator::Minus)),
        "show" => Some(Command::Show),
        "eval" => Some(Command::Eval),
        "visits" => Some(Command::Visits),
        "sum" => Some(Command::Sum),
        "similarity" => Some(Command::Similarity),
        "matrix" => Some(Command::Matrix),
        _ => None,
    }
}

/// The word that names a command.
pub fn word_of(command: Command) -> &'static str
    ensures word { result.now ≡ word_of command }
    ensures named { command_of result.now ≡ Some command }
{
    match command {
        Command::Count => "count",
        Command::Sketch => "sketch",
        Command::Combine(Operator::Union) => "union",
        Command::Combine(Operator::Meet) => "meet",
        Command::Combine(Operator::Minus) => "minus",
        Command::Show => "show",
        Command::Eval => "eval",
        Command::Visits => "visits",
        Command::Sum => "sum",
        Command::Similarity => "similarity",
        Command::Matrix => "matrix",
    }
}

/// Whether a word is a request for help.
pub(crate) fn is_help(word: &str) -> bool
    ensures { result ≡ is_help word.now }
{
    word == "--help" || word == "-h"
}

/// Whether a word is a request for the version.
pub(crate) fn is_version(word: &str) -> bool
    ensures { result ≡ is_version word.now }
{
    word == "--version" || word == "-V"
}

/// Whether the name of an option is that of a folder, to which names of files are relative.
pub(crate) fn is_dir(name: &str) -> bool
    ensures { result ≡ is_dir name.now }
{
    name == "-C"
}

/// Whether a word looks like an option: it begins with a hyphen and has at least one more byte.
pub(crate) fn is_option(word: &str) -> bool
    ensures { result ≡ is_option word.now }
{
    match word.as_bytes() {
        [first, _, ..] => *first == b'-',
        _ => false,
    }
}

/// The first two bytes of a word and the others, if the first is a hyphen, the second ASCII, and there are others.
fn short_parts(word: &str) -> Option<(&str, &str)>
    ensures { option_map (λ parts. setting_with parts.0.now parts.1.now) result ≡ short_parts word.now }
{
    match word.as_bytes() {
        [first, second, _, ..] if *first == b'-' && *second < 128 => Some(word.split_at(2)),
        _ => None,
    }
}

/// The name of an option in a word, and its value: a short name and the value that is attached to it, or the parts
/// before and after the first `=`.
pub(crate) fn split_option(word: &str) -> (&str, Option<&str>)
    ensures name { result.0.now ≡ (split_option word.now).name }
    ensures value { option_map (λ value. value.now) result.1 ≡ (split_option word.now).value }
{
    if let Some((name, value)) = short_parts(word) {
        if takes_attached(name) {
            return (name, Some(value));
        }
    }
    split_setting(word)
}

/// The parts of a word before and after the first `=`.
fn split_setting(word: &str) -> (&str, Option<&str>)
    ensures name { result.0.now ≡ (split_setting word.now).name }
    ensures value { option_map (λ value. value.now) result.1 ≡ (split_setting word.now).value }
{
    match word.split_once('=') {
        Some((name, value)) => (name, Some(value)),
        None => (word, None),
    }
}

/// Whether a word begins with a plus.
fn begins_with_plus(word: &str) -> bool
    ensures { result ≡ (slice_index word.now 0 == 43) }
{
    match word.as_bytes() {
        [first, ..] => *first == b'+',
        [] => false,
    }
}

/// The number that a word spells in digits, if it is from `least` to `greatest`.
pub fn number_of(word: &str, least: u64, greatest: u64) -> Option<u64>
    ensures { result ≡ number_of least greatest word.now }
{
    if begins_with_plus(word) {
        return None;
    }
    match word.parse::<u64>() {
        Ok(number) => {
            if least <= number && number <= greatest {
                Some(number)
            } else {
                None
            }
        }
        Err(_) => None,
    }
}

/// Whether all bytes are decimal digits.
fn are_digits(mut bytes: &[u8]) -> bool
    ensures { result ≡ all_ascii_digits bytes.entry.now }
{
    while let [byte, others @ ..] = bytes {
        if !byte.is_ascii_digit() {
            return false;
        }
        bytes = others;
    }
    true
}

/// Whether a word has nothing but decimal digits.
pub(crate) fn is_digits(word: &str) -> bool
    ensures { result ≡ all_ascii_digits word.now }
{
    are_digits(word.as_bytes())
}

/// The byte of a word that has just one.
pub(crate) fn byte_of(word: &str) -> Option<u8>
    ensures { result ≡ byte_of word.now }
{
    match word.as_bytes() {
        [byte] => Some(*byte),
        _ => None,
    }
}

/// The seed that a word spells in digits, if its seed hash isn't 0.
pub fn seed_of(word: &str) -> Option<u64>
    ensures { result ≡ seed_of word.now }
{
    let number = number_of(word, 0, u64::MAX)?;
    match compute_seed_hash(number, ErrorKind::InvalidArgument) {
        Ok(_) => Some(number),
        Err(_) => None,
    }
}

/// The standard deviations that a word spells.
pub(crate) fn deviations_of(word: &str) -> Option<Deviations>
    ensures { result ≡ deviations_of word.now }
{
    match word {
        "1" => Some(Deviations::One),
        "2" => Some(Deviations::Two),
        "3" => Some(Deviations::Three),
        _ => None,
    }
}

/// The order of groups that a word names.
pub(crate) fn order_of(word: &str) -> Option<Order>
    ensures { result ≡ order_of word.now }
{
    match word {
        "name" => Some(Order::Name),
        "estimate" => Some(Order::Greatest),
        "total" => Some(Order::Greatest),
        _ => None,
    }
}

/// The way to combine the numbers of a key that a word names.
pub(crate) fn mode_of(word: &str) -> Option<Mode>
    ensures { result ≡ mode_of word.now }
{
    match word {
        "sum" => Some(Mode::Sum),
        "min" => Some(Mode::Min),
        "max" => Some(Mode::Max),
        _ => None,
    }
}

/// The part that a word spells as its number, a slash and the number of all parts, such as `1/8`.
pub(crate) fn share_of(word: &str) -> Option<Share>
    ensures { option_map numbers_of result ≡ share_of word.now }
{
    let (index, parts) = word.split_once('/')?;
    let parts = number_of(parts, 1, u32::MAX as u64)?;
    let index = number_of(index, 1, parts)?;
    Some(Share {
        index: index as u32,
        parts: parts as u32,
    })
}
