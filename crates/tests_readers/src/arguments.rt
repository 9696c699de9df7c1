//! The answers of the reader of the arguments of `distinct`.
use distinct_arguments::{
    Command, Form, Front, Operator, Options, Request, Seed, front_of, options_first, read_arguments,
};
use std::alloc::{AllocError, Global};
use std::fmt::Display;
use std::str;

/// The words of a text, with a blank between two, options before files; none if it is empty.
fn words_of(alloc: Global, text: &str) -> Result<Vec<String>, AllocError> {
    let mut words = Vec::new(alloc);
    if !text.is_empty() {
        for word in text.split(' ') {
            words.push(String::from_str(alloc, word)?)?;
        }
    }
    options_first(alloc, words.as_slice())
}

/// Appends the value of an option, behind its name, if it is set.
fn put_value<T: Display + Copy>(
    text: &mut String,
    name: &str,
    value: Option<T>,
) -> Result<(), AllocError> {
    match value {
        Some(value) => write!(text, " {name}={value}"),
        None => Ok(()),
    }
}

/// The default of `--lg-k`.
fn default_lg_k(command: Command) -> u8 {
    match command {
        Command::Count | Command::Visits => 16,
        Command::Show | Command::Combine(Operator::Meet | Operator::Minus) => 26,
        _ => 12,
    }
}

/// Appends the numbers among options that differ from the defaults.
fn put_numbers(
    text: &mut String,
    command: Command,
    options: &Options<'_>,
) -> Result<(), AllocError> {
    if options.lg_k != default_lg_k(command) {
        write!(text, " lg_k={}", options.lg_k)?;
    }
    put_value(text, "field", options.field)?;
    put_value(text, "by", options.by)?;
    put_value(text, "least", options.least)?;
    put_value(text, "most", options.most)?;
    put_value(text, "value", options.value)?;
    put_value(text, "separator", options.separator)?;
    put_value(text, "expected", options.expected)
}

/// Appends the names of files among options, and the seed if it isn't the default.
fn put_names(text: &mut String, options: &Options<'_>) -> Result<(), AllocError> {
    match options.seed {
        Seed::Number(9001) => {}
        Seed::Number(seed) => write!(text, " seed={seed}")?,
        Seed::File(name) => write!(text, " seed_file={name}")?,
    }
    put_value(text, "field_text", options.field_text)?;
    put_value(text, "by_text", options.by_text)?;
    put_value(text, "value_text", options.value_text)?;
    put_value(text, "list", options.list)?;
    if let Some(share) = options.part {
        write!(text, " part={}/{}", share.index, share.parts)?;
    }
    put_value(text, "dir", options.dir)?;
    put_value(text, "output", options.output)?;
    put_value(text, "folder", options.folder)
}

/// Appends the flags among options that are set.
fn put_flags(text: &mut String, options: &Options<'_>) -> Result<(), AllocError> {
    for (flag, is_set) in [
        (" hex", options.hex),
        (" groups", options.groups),
        (" sums", options.sums),
        (" visits", options.visits),
        (" csv", options.csv),
        (" blanks", options.blanks),
        (" crlf", options.crlf),
        (" header", options.header),
        (" per_file", options.per_file),
        (" skip_invalid", options.skip_invalid),
        (" keys", options.keys),
        (" progress", options.progress),
        (" human", options.human),
    ] {
        if is_set {
            text.push_str(flag)?;
        }
    }
    if let Some(deviations) = options.bounds {
        write!(text, " bounds={deviations:?}")?;
    }
    if let Some(order) = options.sort {
        write!(text, " sort={order:?}")?;
    }
    if let Some(mode) = options.summary {
        write!(text, " summary={mode:?}")?;
    }
    if options.form != Form::Plain {
        write!(text, " {:?}", options.form)?;
    }
    Ok(())
}

/// Appends a command with the options that differ from the defaults, and behind a bar the files.
fn put_run(
    text: &mut String,
    command: Command,
    options: &Options<'_>,
    files: &[String],
) -> Result<(), AllocError> {
    write!(text, "{command:?}")?;
    put_numbers(text, command, options)?;
    put_names(text, options)?;
    put_flags(text, options)?;
    text.push_str(" |")?;
    for file in files {
        write!(text, " {file}")?;
    }
    Ok(())
}

/// Appends the folder of each `-C` in front of words.
fn put_dirs(text: &mut String, words: &[String]) -> Result<(), AllocError> {
    let mut rest = words;
    for _ in words {
        let Front::Dir(dir, others) = front_of(rest) else {
            break;
        };
        write!(text, "{dir}/ ")?;
        rest = others;
    }
    Ok(())
}

/// Appends what the words of a text request, or the fault in them.
fn put_words(text: &mut String, words: &[String]) -> Result<(), AllocError> {
    match read_arguments(words) {
        Ok(Request::Print(topic)) => write!(text, "{topic:?}"),
        Ok(Request::Run(command, options, files)) => {
            put_dirs(text, words)?;
            put_run(text, command, &options, files)
        }
        Err(fault) => write!(text, "{fault:?}"),
    }
}

/// Appends what the words of a text request, or the fault in them.
pub fn put_request(text: &mut String, alloc: Global, bytes: &[u8]) -> Result<(), AllocError> {
    match str::from_utf8(bytes) {
        Ok(arguments) => put_words(text, words_of(alloc, arguments)?.as_slice()),
        Err(_) => text.push_str("not a text"),
    }
}

/// Appends the status of the fault in the words of a text and its message, or `no fault`.
fn put_message_of(text: &mut String, words: &[String]) -> Result<(), AllocError> {
    match read_arguments(words) {
        Ok(_) => text.push_str("no fault"),
        Err(fault) => {
            let status = fault.status();
            write!(text, "{status} {fault}")
        }
    }
}

/// Appends the status of the fault in the words of a text and its message, or `no fault`.
pub fn put_message(text: &mut String, alloc: Global, bytes: &[u8]) -> Result<(), AllocError> {
    match str::from_utf8(bytes) {
        Ok(arguments) => put_message_of(text, words_of(alloc, arguments)?.as_slice()),
        Err(_) => text.push_str("not a text"),
    }
}
