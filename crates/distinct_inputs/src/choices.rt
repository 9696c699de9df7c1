//! Lines of which fields are chosen.
ghost use Rattle.std.specs.Prelude.{◌≡◌, true, false, IfSome, IfNone};
ghost use Rattle.std.specs.Option.{option_map};
ghost use Rattle.distinct_arguments.specs.Faults.{options_of};
ghost use Rattle.distinct_arguments.specs.Settings.{column_value, has_texts};
ghost use Rattle.distinct_inputs.specs.Choices.{amount_with, column_with, group_with, has_header, is_mapped, is_read_otherwise, key_with, layout_with};
ghost use Rattle.distinct_inputs.specs.Choices.{place_for, value_with};

use distinct_arguments::{Column, Options, number_of};
use keys_fields::{Chosen, Layout, Mapped, Part, header_of, place_in};
use keys_records::{Columns, Records};
use keys_sums::Amount;
use std::alloc::{AllocError, Global};
use std::io;
use std::io::{ErrorKind, Read};

/// How each line of a file is read, and which of its fields are chosen.
#[derive(Clone, Copy, Debug)]
pub struct Choice<'a> {
    /// Whether lines are read in another way than as all their bytes.
    is_read_otherwise: bool,
    layout: Layout,
    /// Whether the first line is passed over.
    header: bool,
    /// Whether parts of a line are chosen.
    has_parts: bool,
    key: Option<Column<'a>>,
    group: Option<Column<'a>>,
    value: Option<Column<'a>>,
    /// What a line adds that is passed on, if others are left out.
    amount: Option<Amount>,
}

/// What chooses the fields of a part, if anything does.
fn column_with<'a>(number: Option<u32>, text: Option<&'a str>) -> Option<Column<'a>>
    ensures { option_map column_value result ≡ column_with number (option_map (λ t. t.now) text.entry) }
{
    match text {
        Some(text) => Some(Column::Text(text)),
        None => match number {
            Some(number) => Some(Column::Number(number)),
            None => None,
        },
    }
}

/// What a line adds that is passed on, if others are left out.
fn amount_of(options: &Options<'_>) -> Option<Amount>
    ensures { result ≡ amount_with (options_of options.now) }
{
    if !options.skip_invalid {
        return None;
    }
    match options.value() {
        Some(key) => Some(Amount::Number(key)),
        None => None,
    }
}

/// What chooses the fields of a line's key, if anything does. Where numbers are added up and no field is chosen, it is that of a
/// line's group: `sum --by` uses no keys.
fn key_column<'a>(options: &Options<'a>) -> Option<Column<'a>>
    ensures { option_map column_value result ≡ key_with (options_of options.now) }
{
    if options.field.is_none() && options.value.is_some() {
        column_with(options.by, options.by_text)
    } else {
        column_with(options.field, options.field_text)
    }
}

/// How the lines of files are passed on as others, or left out, if they are.
pub fn choice_of<'a>(options: &Options<'a>) -> Option<Choice<'a>>
    ensures mapped { IfSome result (λ _. is_mapped (options_of options.now) ≡ true) }
    ensures unmapped { IfNone result (is_mapped (options_of options.now) ≡ false) }
    ensures otherwise { IfSome result (λ c. c.is_read_otherwise ≡ is_read_otherwise (options_of options.now)) }
    ensures parts { IfSome result (λ c. c.has_parts ≡ has_texts (options_of options.now)) }
    ensures header { IfSome result (λ c. c.header ≡ has_header (options_of options.now)) }
    ensures layout { IfSome result (λ c. c.layout ≡ layout_with (options_of options.now)) }
    ensures key { IfSome result (λ c. option_map column_value c.key ≡ key_with (options_of options.now)) }
    ensures group { IfSome result (λ c. option_map column_value c.group ≡ group_with (options_of options.now)) }
    ensures value { IfSome result (λ c. option_map column_value c.value ≡ value_with (options_of options.now)) }
    ensures amount { IfSome result (λ c. c.amount ≡ amount_with (options_of options.now)) }
{
    let has_parts = options.has_texts();
    let has_header = options.header && (!options.csv || has_parts);
    let is_read_otherwise = options.blanks || options.crlf || has_header || has_parts;
    if !(is_read_otherwise || options.skip_invalid) {
        return None;
    }
    Some(Choice {
        is_read_otherwise,
        layout: Layout {
            separator: options.between(),
            blanks: options.blanks,
            returns: options.crlf,
        },
        header: has_header,
        has_parts,
        key: key_column(options),
        group: column_with(options.by, options.by_text),
        value: column_with(options.value, options.value_text),
        amount: amount_of(options),
    })
}

/// The place of a field in lines, from 0: of a number, from 1, or of a name in the first line; `None` if there is none.
fn place_for(separator: u8, header: Option<&[u8]>, item: &str) -> Option<u64>
    ensures { result ≡ place_for separator (option_map (λ h. h.now) header.entry) item.now }
{
    match number_of(item, 1, u64::MAX) {
        Some(number) => Some(number - 1),
        None => match header {
            Some(header) => place_in(separator, item.as_bytes(), header),
            None => None,
        },
    }
}

/// Whether an item is a name: neither a number nor empty.
fn is_name(item: &str) -> bool {
    !item.is_empty() && number_of(item, 0, u64::MAX).is_none()
}

/// A text without the number of bytes behind its last colon, and this number, if it has one.
fn split_most(text: &str) -> (&str, usize) {
    if let Some((front, behind)) = text.rsplit_once(':') {
        if let Some(most) = number_of(behind, 0, u64::MAX) {
            return (front, most as usize);
        }
    }
    (text, usize::MAX)
}

/// Whether a text has a name.
fn has_name(text: &str) -> bool {
    let mut left = split_most(text).0;
    for _ in 0..text.len() {
        match left.split_once(',') {
            Some((item, others)) => {
                if is_name(item) {
                    return true;
                }
                left = others;
            }
            None => return is_name(left),
        }
    }
    false
}

/// What messages say of a text that chooses a field which the first line lacks, or no field.
const NO_KEY: &str =
    "a field of --field is 0, empty or not in line 1: see head -n 1, or try --crlf";

const NO_GROUP: &str = "a field of --by is 0, empty or not in line 1: see head -n 1, or try --crlf";

const NO_VALUE: &str = "its first line lacks the field of --value: see head -n 1, or try --crlf";

/// What messages say of a text that chooses more for the number of a line than one field, or less.
const NOT_ONE: &str = "--value takes one field, by its number or its name";

/// The places of the fields that items name, with commas between them. Fails with this message if one names none, or is
/// empty.
fn places_of(
    alloc: Global,
    separator: u8,
    header: Option<&[u8]>,
    items: &str,
    lacking: &'static str,
) -> io::Result<Vec<u64>> {
    let mut places = Vec::new(alloc);
    let mut left = items;
    for _ in 0..u64::MAX {
        let (item, others) = match left.split_once(',') {
            Some((item, others)) => (item, Some(others)),
            None => (left, None),
        };
        let place = if item.is_empty() {
            None
        } else {
            place_for(separator, header, item)
        };
        match place {
            Some(place) => places.push(place)?,
            None => return Err(io::Error::new(ErrorKind::InvalidInput, lacking)),
        }
        match others {
            Some(others) => left = others,
            None => break,
        }
    }
    Ok(places)
}

/// The part of a line that something chooses: of nothing the whole line.
fn part_of(
    alloc: Global,
    separator: u8,
    header: Option<&[u8]>,
    column: Option<Column<'_>>,
    lacking: &'static str,
) -> io::Result<Part> {
    match column {
        Some(Column::Number(number)) => {
            let mut places = Vec::new(alloc);
            places.push((number as u64).saturating_sub(1))?;
            Ok(Part {
                places,
                most: usize::MAX,
            })
        }
        Some(Column::Text(text)) => {
            let (items, most) = split_most(text);
            Ok(Part {
                places: places_of(alloc, separator, header, items, lacking)?,
                most,
            })
        }
        None => Ok(Part {
            places: Vec::new(alloc),
            most: usize::MAX,
        }),
    }
}

/// A part that may be chosen.
fn any_part(
    alloc: Global,
    separator: u8,
    header: Option<&[u8]>,
    column: Option<Column<'_>>,
    lacking: &'static str,
) -> io::Result<Option<Part>> {
    match column {
        Some(_) => Ok(Some(part_of(alloc, separator, header, column, lacking)?)),
        None => Ok(None),
    }
}

/// Whether what chooses a part has a name.
fn is_named(column: Option<Column<'_>>) -> bool {
    match column {
        Some(Column::Text(text)) => has_name(text),
        _ => false,
    }
}

/// Whether what chooses a part chooses one field, as a whole, if anything does.
fn is_one(column: Option<Column<'_>>) -> bool {
    match column {
        Some(Column::Text(text)) => {
            split_most(text).1 == usize::MAX && text.split_once(',').is_none()
        }
        _ => true,
    }
}

/// Whether a reader has nothing left. If it has, its next byte is lost.
fn is_at_end<R: Read>(reader: &mut R) -> io::Result<bool> {
    let mut next = [0; 1];
    Ok(reader.read(&mut next)? == 0)
}

impl Choice<'_> {
    /// Whether a byte order mark in front of the lines is passed over.
    pub(crate) fn passes_mark(&self) -> bool {
        self.is_read_otherwise
    }

    /// Whether the first line of a file is read for its names, or passed over.
    pub(crate) fn reads_header(&self) -> bool {
        self.header || is_named(self.key) || is_named(self.group) || is_named(self.value)
    }

    /// The byte between the fields of a line as it is read.
    fn separator(&self) -> u8 {
        if self.layout.blanks {
            b'\t'
        } else {
            self.layout.separator
        }
    }

    /// The parts of a line that are chosen, by this first line. Fails if it lacks a name.
    fn chosen_by(&self, alloc: Global, header: Option<&[u8]>) -> io::Result<Chosen> {
        let separator = self.separator();
        let group = any_part(alloc, separator, header, self.group, NO_GROUP)?;
        Ok(Chosen {
            key: part_of(alloc, separator, header, self.key, NO_KEY)?,
            group,
            value: any_part(alloc, separator, header, self.value, NO_VALUE)?,
        })
    }

    /// The lines of records, of which the reader has read nothing, each passed on as its chosen parts, or left out if it
    /// adds no number. Fails if the text can't be read, or its first line lacks a name. A text without a byte, or with an
    /// empty first line alone, lacks none.
    pub(crate) fn lines_of<R: Read + Drop>(
        &self,
        alloc: Global,
        records: Records<R>,
    ) -> io::Result<Mapped<Records<R>>> {
        let lines = self.chosen_lines(alloc, records)?;
        Ok(match self.amount {
            Some(amount) => lines.adding(amount),
            None => lines,
        })
    }

    /// The lines of records, each passed on as its chosen parts.
    fn chosen_lines<R: Read + Drop>(
        &self,
        alloc: Global,
        records: Records<R>,
    ) -> io::Result<Mapped<Records<R>>> {
        if !is_one(self.value) {
            return Err(io::Error::new(ErrorKind::InvalidInput, NOT_ONE));
        }
        let mut reader = records;
        let header = if self.reads_header() {
            Some(header_of(alloc, &mut reader, self.layout)?)
        } else {
            None
        };
        if !self.has_parts {
            return Ok(Mapped::new(alloc, reader, self.layout)?);
        }
        let result = match &header {
            Some(line) => self.chosen_by(alloc, Some(line)),
            None => self.chosen_by(alloc, None),
        };
        let chosen = match result {
            Ok(chosen) => chosen,
            Err(error) => {
                if header.is_some_and(|line| line.is_empty()) && is_at_end(&mut reader)? {
                    return Ok(Mapped::new(alloc, reader, self.layout)?);
                }
                return Err(error);
            }
        };
        let fields = reader.choosing(columns_of(alloc, &chosen)?);
        Ok(Mapped::new(alloc, fields, self.layout)?.choosing(chosen))
    }
}

/// Appends the numbers, from 1, of the fields of a part. Returns whether it has fields, and isn't the whole line.
fn push_numbers(part: &Part, numbers: &mut Vec<u64>) -> Result<bool, AllocError> {
    for place in &part.places {
        numbers.push(place.saturating_add(1))?;
    }
    Ok(!part.places.is_empty())
}

/// Appends the numbers, from 1, of the fields of a part that may be chosen. Returns whether it isn't the whole line.
fn push_any(part: &Option<Part>, numbers: &mut Vec<u64>) -> Result<bool, AllocError> {
    match part {
        Some(part) => push_numbers(part, numbers),
        None => Ok(true),
    }
}

/// The fields of a record that are used: up to three, or all.
fn columns_of(alloc: Global, chosen: &Chosen) -> Result<Columns, AllocError> {
    let mut numbers = Vec::new(alloc);
    let has_fields = push_numbers(&chosen.key, &mut numbers)?
        && push_any(&chosen.group, &mut numbers)?
        && push_any(&chosen.value, &mut numbers)?;
    if !has_fields {
        return Ok(Columns::all());
    }
    Ok(match numbers.as_slice() {
        [first] => Columns::new(*first, 0, 0),
        [first, second] => Columns::new(*first, *second, 0),
        [first, second, third] => Columns::new(*first, *second, *third),
        _ => Columns::all(),
    })
}
