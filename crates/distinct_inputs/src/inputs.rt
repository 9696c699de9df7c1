//! The files that the program reads.
ghost use Rattle.std.specs.Prelude.{◌≡◌, ◌≤◌, length, Bool, true, false, None, Some, IfOk, IfErr, IfSome, OnOk, codes};
ghost use Rattle.std.specs.Io.{ReadsAtMost};
ghost use Rattle.keys_sketches.specs.Sources.{GivesNext};
ghost use Rattle.distinct_inputs.specs.Failures.{IsOfList, IsOfReading, NotesNext, ReportsUnreadable};
ghost use Rattle.distinct_messages.specs.Failures.{display_name, UnreadableIf};
ghost use Rattle.distinct_inputs.specs.Lists.{are_lines, names_in, names_of};

use crate::choices::Choice;
use crate::lists::{ListError, names_in};
use distinct_arguments::Share;
use distinct_messages::{Failure, NoLines, Remark, Skipped, display_name, nature_of};
use keys_fields::Fields;
use keys_parts::{Part, Places};
use keys_records::{Form, Records};
use keys_sketches::{Sources, TextReader};
use std::alloc::Global;
use std::fs::File;
use std::io::{ErrorKind, IsTerminal, Read, Seek, SeekFrom};
use std::rt::Stdin;
use std::{fs, io};

/// A file, or standard input, opened.
#[derive(Drop)]
enum Opened {
    Standard(Stdin),
    File(File),
}

impl Opened {
    /// Reads once.
    fn read_once(&mut self, buf: &mut [u8]) -> io::Result<usize>
        ensures bound { ReadsAtMost result buf.new }
    {
        match self {
            Opened::Standard(input) => input.read(buf),
            Opened::File(file) => file.read(buf),
        }
    }
}

/// A warning to be printed of a file whose first bytes aren't those of lines.
#[derive(Clone, Copy)]
struct Warning<'a> {
    rt: &'a HostRuntime,
    name: &'a str,
    command: &'a str,
}

impl Warning<'_> {
    /// Prints the warning, if a file that begins with these bytes has no lines.
    fn print_of(self, bytes: &[u8]) {
        if let Some(nature) = nature_of(bytes) {
            let remark = Remark::NoLines(NoLines {
                name: self.name,
                nature,
                command: self.command,
            });
            let _ = eprintln!(self.rt; "distinct: {remark}");
        }
    }
}

/// The size of the block that is read first.
const FRONT: usize = 4096;

/// The byte order mark of UTF-8, which some programs write in front of a text.
const MARK: [u8; 3] = [0xef, 0xbb, 0xbf];

/// A file, or standard input. Its first bytes are read at once, and looked at.
#[derive(Drop)]
pub struct Input<'a> {
    opened: Opened,
    warning: Option<Warning<'a>>,
    /// Whether a byte order mark at the start is passed over.
    passes_mark: bool,
    /// Whether the first bytes are read.
    is_begun: bool,
    /// The first bytes: so many were read, and so many of these are given.
    front: [u8; FRONT],
    filled: usize,
    given: usize,
}

impl<'a> Input<'a> {
    /// What was opened, of which nothing is read.
    fn new(opened: Opened, warning: Option<Warning<'a>>, passes_mark: bool) -> Input<'a> {
        Input {
            opened,
            warning,
            passes_mark,
            is_begun: false,
            front: [0; FRONT],
            filled: 0,
            given: 0,
        }
    }

    /// Reads the first bytes, and looks at them: prints the warning, and passes a byte order mark over. Returns how many
    /// were read.
    fn begin(&mut self) -> io::Result<usize> {
        let length = self.opened.read_once(&mut self.front)?;
        let warning = self.warning;
        let bytes = &self.front[..length];
        let has_mark = self.passes_mark && bytes.starts_with(&MARK);
        if let Some(warning) = warning {
            warning.print_of(bytes);
        }
        if has_mark {
            self.given = MARK.len();
        }
        self.filled = length;
        self.is_begun = true;
        Ok(length)
    }
}

/// Gives as many bytes of those behind the first so many as there is room for.
fn give(bytes: &[u8], given: usize, buf: &mut [u8]) -> usize
    ensures bound { result ≤ length buf.new }
{
    let rest = &bytes[given.min(bytes.len())..];
    let count = rest.len().min(buf.len());
    buf[..count].copy_from_slice(&rest[..count]);
    count
}

impl Read for Input<'_> {
    fn read(&mut self, buf: &mut [u8]) -> io::Result<usize> {
        if !self.is_begun && self.begin()? == 0 {
            return Ok(0);
        }
        if self.given < self.filled {
            let read = &self.front[..self.filled.min(FRONT)];
            let count = give(read, self.given, buf);
            self.given = self.given.saturating_add(count);
            return Ok(count);
        }
        self.opened.read_once(buf)
    }
}

impl TextReader for Input<'_> {
    ghost use Rattle.std.specs.Prelude.{◌≡◌, true};

    ghost may_fail = { true };

    fn may_fail() -> bool
        ensures { result ≡ true }
    {
        true
    }
}

/// The lines of a file that are passed on. At its end it is reported how many were left out.
#[derive(Drop)]
pub struct Lines<'a> {
    fields: Fields<Records<Part<Input<'a>>>>,
    /// What reports them, until it has, if they are reported.
    report: Option<SkipReport<'a>>,
}

/// The report of the lines of a file that are left out.
#[derive(Clone, Copy)]
struct SkipReport<'a> {
    rt: &'a HostRuntime,
    name: &'a str,
}

impl SkipReport<'_> {
    /// Prints how many lines are left out, if any is.
    fn print_of(self, count: u64) {
        if count == 0 {
            return;
        }
        let remark = Remark::Skipped(Skipped {
            name: self.name,
            count,
        });
        let _ = eprintln!(self.rt; "distinct: {remark}");
    }
}

impl Read for Lines<'_> {
    fn read(&mut self, buf: &mut [u8]) -> io::Result<usize> {
        let count = self.fields.read(buf)?;
        if count == 0 && !buf.is_empty() {
            if let Some(report) = self.report {
                report.print_of(self.fields.left_out());
            }
            self.report = None;
        }
        Ok(count)
    }
}

impl TextReader for Lines<'_> {
    ghost use Rattle.std.specs.Prelude.{◌≡◌, true};

    ghost may_fail = { true };

    fn may_fail() -> bool
        ensures { result ≡ true }
    {
        true
    }
}

/// What a message says of a file that has no parts.
const NO_PARTS: &str = "is not a regular file, as --part needs: copy it to one, or read it whole";

/// What a message says if records of CSV can't have the separator.
const NO_SEPARATOR: &str =
    "its records of CSV can't be separated by a quote or line end: check --separator";

/// What a message says if fields are chosen by names, and a part of a file is read.
const NO_HEADER: &str =
    "has its names in the first part alone: with --part choose fields by numbers";

/// How many bytes the byte order mark at the start of a file has; 0 if it has none.
fn mark_of(file: &mut File) -> io::Result<u64> {
    let mut front = [0; 3];
    let length = file.read(&mut front)?;
    Ok(if front[..length].starts_with(&MARK) {
        3
    } else {
        0
    })
}

/// The places of a part in a file, which is then positioned at their start. Only a regular file has parts. A file's length
/// counts as it is now, without a byte order mark that is passed over.
fn seek_part(file: &mut File, share: Share, passes_mark: bool) -> io::Result<Places> {
    let metadata = file.metadata()?;
    if metadata.is_dir() {
        return Err(io::Error::from(ErrorKind::IsADirectory));
    }
    if !metadata.is_file() {
        return Err(io::Error::new(ErrorKind::InvalidInput, NO_PARTS));
    }
    let passed = if passes_mark { mark_of(file)? } else { 0 };
    let size = metadata.len().saturating_sub(passed);
    let places = Places::of_part(size, share.index, share.parts);
    file.seek(SeekFrom::Start(places.start().saturating_add(passed)))?;
    Ok(places)
}

/// Opens the file of this name, or standard input for `-`.
fn open(rt: &HostRuntime, name: &str) -> io::Result<Opened> {
    if name == "-" {
        return Ok(Opened::Standard(rt.stdin()));
    }
    Ok(Opened::File(fs::open(rt, name)?))
}

/// Files, opened one after another.
#[derive(Drop)]
pub struct Files<'a> {
    rt: &'a HostRuntime,
    is_standard: bool,
    left: &'a [String],
    command: Option<&'static str>,
    is_quiet: bool,
    share: Option<Share>,
    form: Option<Form>,
    choice: Option<Choice<'a>>,
}

impl<'a> Files<'a> {
    /// The files of these names. If there are none: standard input if `or_standard`, else nothing.
    pub fn named(rt: &'a HostRuntime, names: &'a [String], or_standard: bool) -> Files<'a> {
        Files {
            rt,
            is_standard: or_standard && names.is_empty(),
            left: names,
            command: None,
            is_quiet: false,
            share: None,
            form: None,
            choice: None,
        }
    }

    /// The same files, of which this part of each is read, or all if it is `None`: the lines whose first byte is in the
    /// part. Then each file must be a regular file, and its length counts as it is when it is opened.
    pub fn in_part(self, share: Option<Share>) -> Files<'a> {
        Files { share, ..self }
    }

    /// The same files, whose texts are records of this form, each of them read as a line; or all bytes as they are, if
    /// it is `None`. A byte order mark in front of records is passed over.
    pub fn in_records(self, form: Option<Form>) -> Files<'a> {
        Files { form, ..self }
    }

    /// The same files, of whose lines the chosen fields are passed on; or all lines as they are, if it is `None`. A byte
    /// order mark in front of chosen fields is passed over.
    pub fn choosing(self, choice: Option<Choice<'a>>) -> Files<'a> {
        Files { choice, ..self }
    }

    /// The same files, which this command reads as lines: of one whose first bytes aren't those of lines, a warning is
    /// printed on standard error. Without a command there are no warnings, and if `is_quiet` nothing at all is printed.
    pub fn watched(self, command: Option<&'static str>, is_quiet: bool) -> Files<'a> {
        Files {
            command,
            is_quiet,
            ..self
        }
    }

    /// The warning to be printed of a file of this name, if its first bytes aren't those of lines.
    fn warning_of(&self, name: &'a str) -> Option<Warning<'a>> {
        match self.command {
            Some(command) if !self.is_quiet => Some(Warning {
                rt: self.rt,
                name,
                command,
            }),
            _ => None,
        }
    }

    /// What is read of the file of this name.
    fn part_of(&self, name: &'a str) -> io::Result<Part<Input<'a>>> {
        let mut opened = open(self.rt, name)?;
        let warning = self.warning_of(name);
        let passes_mark = self.form.is_some() || self.choice.is_some_and(|c| c.passes_mark());
        let Some(share) = self.share else {
            return Ok(Part::whole(Input::new(opened, warning, passes_mark)));
        };
        let Opened::File(file) = &mut opened else {
            return Err(io::Error::new(ErrorKind::InvalidInput, NO_PARTS));
        };
        let places = seek_part(file, share, passes_mark)?;
        let warning = if places.start() == 0 { warning } else { None };
        Ok(Part::new(Input::new(opened, warning, false), places))
    }

    /// The next name.
    fn next_name(&mut self) -> Option<&'a str> {
        if self.is_standard {
            self.is_standard = false;
            return Some("-");
        }
        let (name, others) = self.left.split_first()?;
        self.left = others;
        Some(name.as_str())
    }
}

impl<'a> Sources for Files<'a> {
    type Source = Lines<'a>;

    ghost texts = { λ _. None };

    ghost may_fail = { true };

    ghost readers_fail = { λ fails. fails };

    fn may_fail() -> bool
        ensures { result ≡ true }
    {
        true
    }

    fn next_source(&mut self) -> io::Result<Option<Lines<'a>>> {
        let Some(name) = self.next_name() else {
            return Ok(None);
        };
        let fields = self.fields_of(name)?;
        let report = if self.is_quiet {
            None
        } else {
            Some(SkipReport { rt: self.rt, name })
        };
        Ok(Some(Lines { fields, report }))
    }
}

impl<'a> Files<'a> {
    /// The lines of the file of this name.
    fn fields_of(&self, name: &'a str) -> io::Result<Fields<Records<Part<Input<'a>>>>> {
        let part = self.part_of(name)?;
        if name == "-" && !self.is_quiet && self.rt.stdin().is_terminal() {
            let _ = eprintln!(self.rt;
                "distinct: reading from the terminal; press Ctrl-D to finish"
            );
        }
        if let Some(form) = self.form {
            if form.separator == b'"' || form.separator == b'\r' || form.separator == b'\n' {
                return Err(io::Error::new(ErrorKind::InvalidInput, NO_SEPARATOR));
            }
        }
        let records = match self.form {
            Some(form) => Records::new(part, form),
            None => Records::whole(part),
        };
        let Some(choice) = self.choice else {
            return Ok(Fields::Whole(records));
        };
        if self.share.is_some() && choice.reads_header() {
            return Err(io::Error::new(ErrorKind::InvalidInput, NO_HEADER));
        }
        let lines = choice.lines_of(self.rt.alloc(), records)?;
        Ok(Fields::Mapped(lines))
    }
}

/// Sources, and their names in messages.
#[derive(Drop)]
pub struct Inputs<'a, S: Sources> {
    sources: S,
    current: &'a str,
    left: &'a [String],
}

impl<'a, S: Sources> Inputs<'a, S> {
    /// Sources of these names. Standard input has none.
    pub fn new(sources: S, names: &'a [String]) -> Inputs<'a, S>
        ensures sources { result.sources ≡ sources }
        ensures names { result.left.now ≡ names.now }
        ensures unnamed { result.current.now ≡ codes "-" }
    {
        Inputs {
            sources,
            current: "-",
            left: names,
        }
    }

    /// The names of the sources that are left.
    pub fn names_left(&self) -> &'a [String]
        ensures { result.now ≡ self.now.left.now }
    {
        self.left
    }

    /// The name, in messages, of the source that was opened last.
    pub fn name(&self) -> &'a str
        ensures { result.now ≡ display_name self.now.current.now }
    {
        display_name(self.current)
    }

    /// The failure if the source that was opened last can't be read. If no source may fail, only memory was missing.
    pub fn read_failure(&self, alloc: Global, error: io::Error) -> Failure
        ensures reports { ReportsUnreadable (display_name self.now.current.now) error result }
        ensures of_reading { IsOfReading result }
        ensures fallible { UnreadableIf S.may_fail result }
    {
        read_failure(alloc, self.current, S::may_fail(), error)
    }
}

impl<'a, S: Sources> Sources for Inputs<'a, S> {
    type Source = S::Source;

    ghost texts = { λ s. S.texts s.sources };

    ghost may_fail = { S.may_fail };

    ghost readers_fail = { S.readers_fail };

    fn may_fail() -> bool
        ensures { result ≡ S.may_fail }
    {
        S::may_fail()
    }

    fn next_source(&mut self) -> io::Result<Option<S::Source>>
        ensures next { IfOk result
            (GivesNext S.Source.remaining (S.texts self.old.sources) (S.texts self.new.sources)) }
        ensures named { NotesNext self.old.current.now self.old.left.now self.new.current.now self.new.left.now }
    {
        if let Some((name, others)) = self.left.split_first() {
            self.current = name.as_str();
            self.left = others;
        }
        self.sources.next_source()
    }
}

/// The failure if the file of this name can't be read. If none may fail, only memory was missing.
fn read_failure(alloc: Global, name: &str, may_fail: bool, error: io::Error) -> Failure
    ensures reports { ReportsUnreadable (display_name name.now) error result }
    ensures of_reading { IsOfReading result }
    ensures fallible { UnreadableIf may_fail result }
{
    if !may_fail {
        return Failure::Memory;
    }
    match String::from_str(alloc, display_name(name)) {
        Ok(name) => Failure::Unreadable(name, error),
        Err(_) => Failure::Memory,
    }
}

/// The file of this name, opened, or standard input for `-`.
pub(crate) fn open_input<'a>(rt: &HostRuntime, name: &str) -> Result<Input<'a>, Failure>
    ensures failed { IfErr result IsOfReading }
{
    match open(rt, name) {
        Ok(opened) => Ok(Input::new(opened, None, false)),
        Err(error) => Err(read_failure(rt.alloc(), name, true, error)),
    }
}

/// All bytes that a reader has left. It has this name in messages.
pub(crate) fn read_whole<R: TextReader>(
    alloc: Global,
    name: &str,
    reader: &mut R,
) -> Result<Vec<u8>, Failure>
    ensures bytes { IfSome (R.remaining reader.old) (λ bytes. IfOk result (λ v. v.items ≡ bytes)) }
    ensures failed { IfErr result IsOfReading }
    ensures fallible { IfErr result (UnreadableIf R.may_fail) }
{
    let mut bytes = Vec::new(alloc);
    match reader.read_to_end(&mut bytes) {
        Ok(_) => Ok(bytes),
        Err(error) => Err(read_failure(alloc, name, R::may_fail(), error)),
    }
}

/// Whether a list has lines and no NUL byte.
fn are_lines(list: &[u8]) -> bool
    ensures { result ≡ are_lines list.now }
{
    !list.contains(&0) && list.contains(&b'\n')
}

/// The names of files in a list, whose bytes these are; the list has this name in messages. A list of lines without a
/// NUL byte is refused: its names would be read as one.
fn names_in_list(alloc: Global, name: &str, list: &[u8]) -> Result<Vec<String>, Failure>
    ensures names { IfOk result (λ v. names_of v.items ≡ names_in list.now) }
    ensures ended { OnOk result (are_lines list.now ≡ false) }
    ensures failed { IfErr result (IsOfList name.now (Some list.now)) }
    ensures fallible { (may_fail : Bool) → IfErr result (UnreadableIf may_fail) }
{
    if are_lines(list) {
        return match String::from_str(alloc, display_name(name)) {
            Ok(name) => Err(Failure::NoNul(name)),
            Err(_) => Err(Failure::Memory),
        };
    }
    match names_in(alloc, list) {
        Ok(names) => Ok(names),
        Err(ListError::Memory) => Err(Failure::Memory),
        Err(ListError::Name(number)) => match String::from_str(alloc, display_name(name)) {
            Ok(name) => Err(Failure::NoName(name, number)),
            Err(_) => Err(Failure::Memory),
        },
    }
}

/// The names of files in a list that a reader has left, which has this name in messages. A NUL byte ends each, which
/// the last may lack. A list of lines without a NUL byte is refused.
pub fn names_from<R: TextReader>(
    alloc: Global,
    name: &str,
    reader: &mut R,
) -> Result<Vec<String>, Failure>
    ensures names { IfSome (R.remaining reader.old) (λ list. IfOk result (λ v. names_of v.items ≡ names_in list)) }
    ensures ended { IfSome (R.remaining reader.old) (λ list. OnOk result (are_lines list ≡ false)) }
    ensures failed { IfErr result (IsOfList name.now (R.remaining reader.old)) }
    ensures fallible { IfErr result (UnreadableIf R.may_fail) }
{
    let bytes = read_whole(alloc, name, reader)?;
    names_in_list(alloc, name, bytes.as_slice())
}

/// The names in a list of files, which a file of this name has, or standard input for `-`.
pub fn files_in_list(rt: &HostRuntime, list: &str) -> Result<Vec<String>, Failure>
    ensures failed { IfErr result (IsOfList list.now None) }
{
    let mut input = open_input(rt, list)?;
    names_from(rt.alloc(), list, &mut input)
}
