//! Files of records.
ghost use Rattle.std.specs.Prelude.{◌≡◌, unwrap_or};
ghost use Rattle.distinct_arguments.specs.Faults.{options_of};
ghost use Rattle.distinct_inputs.specs.Records.{chosen_columns, key_number, record_form};

use distinct_arguments::Options;
use keys_records::{Columns, Form};

/// The default separator of the fields of records.
const COMMA: u8 = b',';

/// The number of a field, or 0 if none is chosen.
fn number_of(field: Option<u32>) -> u64
    ensures { result ≡ unwrap_or field 0 }
{
    match field {
        Some(number) => number as u64,
        None => 0,
    }
}

/// The number of the field that is a record's key, or `None` if the whole record is. Where numbers are added up and no field is
/// chosen, it is that of a record's group: `sum --by` uses no keys.
fn key_number(options: &Options<'_>) -> Option<u32>
    ensures { result ≡ key_number (options_of options.now) }
{
    if options.field.is_none() && options.value.is_some() {
        options.by
    } else {
        options.field
    }
}

/// The fields of a record that options use: those of their numbers, or all if texts choose some, or if the whole record
/// is its key.
fn chosen_columns(options: &Options<'_>) -> Columns
    ensures { result ≡ chosen_columns (options_of options.now) }
{
    match key_number(options) {
        _ if options.has_texts() => Columns::all(),
        Some(field) => Columns::new(
            field as u64,
            number_of(options.by),
            number_of(options.value),
        ),
        None => Columns::all(),
    }
}

/// How files are read as records, if they are: with `--csv`.
pub fn record_form(options: &Options<'_>) -> Option<Form>
    ensures { result ≡ record_form (options_of options.now) }
{
    if options.csv {
        Some(Form {
            separator: options.separator.unwrap_or(COMMA),
            header: options.header && !options.has_texts(),
            columns: chosen_columns(options),
        })
    } else {
        None
    }
}
