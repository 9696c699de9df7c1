//! Which words of arguments are files, and which are options, in any order.
ghost use Rattle.std.specs.Prelude.{◌≡◌, ◌++◌, [], ◌∷◌, if◌then◌else◌, OnOk, IfOk};
ghost use Rattle.distinct_arguments.specs.Places.{awaits_value, front_place, option_place, next_place, is_file};
ghost use Rattle.distinct_arguments.specs.Places.{is_chosen, chosen, last_place, is_unended, options_first};
ghost use Rattle.distinct_arguments.specs.Words.{words_of};

use crate::table::{kind_of, needs_value, option_of};
use crate::words::{command_of, is_dir, is_option, split_option};
use std::alloc::{AllocError, Global};

/// Where a word is among arguments.
#[derive(Clone, Copy, Debug)]
enum Place {
    /// In front of the command.
    Front,
    /// Behind `-C` in front of the command.
    Folder,
    /// Behind the command, among options and files.
    Options,
    /// Behind an option whose value is the next word.
    Value,
    /// Behind `--`.
    Files,
    /// Behind a first word that is no command.
    Rest,
}

/// Whether a word is an option whose value is the next word.
fn awaits_value(word: &str) -> bool
    ensures { result ≡ awaits_value word.now }
{
    let setting = split_option(word);
    match option_of(setting.0) {
        Some(option) => needs_value(kind_of(option)) && setting.1.is_none(),
        None => false,
    }
}

/// The place behind a word in front of the command.
fn front_place(word: &str) -> Place
    ensures { result ≡ front_place word.now }
{
    let setting = split_option(word);
    if is_dir(setting.0) {
        return match setting.1 {
            Some(_) => Place::Front,
            None => Place::Folder,
        };
    }
    match command_of(word) {
        Some(_) => Place::Options,
        None => Place::Rest,
    }
}

/// The place behind a word after the command.
fn option_place(word: &str) -> Place
    ensures { result ≡ option_place word.now }
{
    if word == "--" {
        return Place::Files;
    }
    if awaits_value(word) {
        Place::Value
    } else {
        Place::Options
    }
}

/// The place behind a word.
fn next_place(place: Place, word: &str) -> Place
    ensures { result ≡ next_place place word.now }
{
    match place {
        Place::Front => front_place(word),
        Place::Folder => Place::Front,
        Place::Options => option_place(word),
        Place::Value => Place::Options,
        Place::Files => Place::Files,
        Place::Rest => Place::Rest,
    }
}

/// Whether a word is a file.
fn is_file(place: Place, word: &str) -> bool
    ensures { result ≡ is_file place word.now }
{
    match place {
        Place::Options => !is_option(word),
        Place::Files => true,
        _ => false,
    }
}

/// Whether a word is chosen: a file, or, without `files`, no file.
fn is_chosen(files: bool, place: Place, word: &str) -> bool
    ensures { result ≡ is_chosen files place word.now }
{
    if files {
        is_file(place, word)
    } else {
        !is_file(place, word)
    }
}

/// Appends a word, if it is chosen.
fn push_if(alloc: Global, out: &mut Vec<String>, word: &str, chosen: bool) -> Result<(), AllocError>
    ensures { OnOk result (words_of out.new.items ≡ words_of out.old.items ++ (if chosen then word.now ∷ [] else [])) }
{
    if chosen {
        out.push(String::from_str(alloc, word)?)?;
    }
    Ok(())
}

/// Appends those of words that are files, or those that are not, and returns the place behind all words.
fn push_chosen(
    alloc: Global,
    out: &mut Vec<String>,
    words: &[String],
    files: bool,
) -> Result<Place, AllocError>
    ensures pushed { OnOk result (words_of out.new.items ≡ words_of out.old.items ++ chosen files Place.Front (words_of words.now)) }
    ensures place { IfOk result (λ place. place ≡ last_place Place.Front (words_of words.now)) }
{
    let mut place = Place::Front;
    let mut rest = words;
    while let Some((word, others)) = rest.split_first() {
        let text = word.as_str();
        push_if(alloc, out, text, is_chosen(files, place, text))?;
        place = next_place(place, text);
        rest = others;
    }
    Ok(place)
}

/// Whether a value is missing at a place.
fn is_unended(place: Place) -> bool
    ensures { result ≡ is_unended place }
{
    match place {
        Place::Value => true,
        _ => false,
    }
}

/// Arguments with their options before their files, each in its order, as `read_arguments` reads them. A file is a
/// word after the command that is neither an option nor the value of one, or is behind `--`, which comes last of the
/// options. A lone `-` is a file. If the last word is an option whose value is missing, there are no files, or the
/// first would be that value. If memory is refused, it fails.
pub fn options_first(alloc: Global, words: &[String]) -> Result<Vec<String>, AllocError>
    ensures { IfOk result (λ arranged. words_of arranged.items ≡ options_first (words_of words.now)) }
{
    let mut out = Vec::new(alloc);
    let last = push_chosen(alloc, &mut out, words, false)?;
    if is_unended(last) {
        return Ok(out);
    }
    push_chosen(alloc, &mut out, words, true)?;
    Ok(out)
}
