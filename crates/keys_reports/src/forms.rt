//! The lines that are written of a report. Each ends in an LF. The only error is `AllocError`.
ghost use Rattle.std.specs.Prelude.{◌≡◌, ◌++◌, IfOk, OnOk, string_bytes};
ghost use Rattle.std.specs.Option.{option_map};
ghost use Rattle.keys_reports.specs.Forms.{count_line, count_numbers, json_fields, json_head, json_line, named_line, shown_estimate};
ghost use Rattle.keys_reports.specs.Forms.{shown_line, tsv_head, tsv_name, tsv_row, tsv_values};
ghost use Rattle.keys_reports.specs.Names.{escaped_name};

use crate::names::{escaped_bytes, escaped_name, put_json_string};
use crate::report::Report;
use std::alloc::{AllocError, Allocator};

/// The line of a count: the estimate, and with bounds the lower and the upper one after it, separated by spaces.
pub fn count_line<A: Allocator>(
    alloc: A,
    report: Report,
    with_bounds: bool,
) -> Result<String<A>, AllocError>
    ensures { IfOk result (λ text. string_bytes text ≡ count_line with_bounds report) }
{
    let estimate = report.estimate;
    let lower = report.interval.lower;
    let upper = report.interval.upper;
    if with_bounds {
        format!(in alloc; "{estimate} {lower} {upper}\n")
    } else {
        format!(in alloc; "{estimate}\n")
    }
}

/// Appends the numbers of a count: the estimate, and with bounds the lower and the upper one after it.
fn put_numbers<A: Allocator>(
    line: &mut String<A>,
    report: Report,
    with_bounds: bool,
) -> Result<(), AllocError>
    ensures { OnOk result (string_bytes line.new ≡ string_bytes line.old ++ count_numbers with_bounds report) }
{
    let estimate = report.estimate;
    let lower = report.interval.lower;
    let upper = report.interval.upper;
    if with_bounds {
        write!(line, "{estimate} {lower} {upper}")
    } else {
        write!(line, "{estimate}")
    }
}

/// Appends a tab, a name, whose control characters are escaped, and the end of the line.
pub(crate) fn put_name_behind<A: Allocator + Clone>(
    alloc: A,
    line: &mut String<A>,
    name: &str,
) -> Result<(), AllocError>
    ensures { OnOk result (string_bytes line.new ≡ named_line (string_bytes line.old) name.now) }
{
    let name = escaped_name(alloc, name)?;
    line.push_str("\t")?;
    line.push_str(name.as_str())?;
    line.push_str("\n")
}

/// The line of a count with a name behind it: the estimate, and with bounds the lower and the upper one after it,
/// separated by spaces, a tab, and the name, whose control characters are escaped.
pub fn named_count_line<A: Allocator + Clone>(
    alloc: A,
    name: &str,
    report: Report,
    with_bounds: bool,
) -> Result<String<A>, AllocError>
    ensures { IfOk result (λ text. string_bytes text ≡ named_line (count_numbers with_bounds report) name.now) }
{
    let mut line = String::new(alloc.clone()?);
    put_numbers(&mut line, report, with_bounds)?;
    put_name_behind(alloc, &mut line, name)?;
    Ok(line)
}

/// Appends the estimate and how near it is.
fn put_estimate<A: Allocator>(line: &mut String<A>, report: Report) -> Result<(), AllocError>
    ensures { OnOk result (string_bytes line.new ≡ string_bytes line.old ++ shown_estimate report) }
{
    let estimate = report.estimate;
    let lower = report.interval.lower;
    let upper = report.interval.upper;
    if report.exact {
        write!(line, "{estimate} exact")
    } else {
        write!(line, "{estimate} estimated, from {lower} to {upper}")
    }
}

/// The line that shows a report under a name, whose control characters are escaped: the estimate, its bounds unless
/// it is exact, the number of retained entries, and theta.
pub fn shown_line<A: Allocator>(
    alloc: A,
    name: &str,
    report: Report,
) -> Result<String<A>, AllocError>
    ensures { IfOk result (λ text. string_bytes text ≡ shown_line name.now report) }
{
    let retained = report.retained;
    let theta = report.theta;
    let mut line = escaped_name(alloc, name)?;
    line.push_str(": ")?;
    put_estimate(&mut line, report)?;
    write!(line, ", retained {retained}, theta {theta}\n")?;
    Ok(line)
}

/// The first line of a table of reports: the names of its columns, separated by tabs, with `name` in front if its
/// rows are named.
pub fn tsv_head<A: Allocator>(alloc: A, named: bool) -> Result<String<A>, AllocError>
    ensures { IfOk result (λ text. string_bytes text ≡ tsv_head named) }
{
    if named {
        String::from_str(
            alloc,
            "name\testimate\tlower\tupper\texact\tretained\ttheta\n",
        )
    } else {
        String::from_str(alloc, "estimate\tlower\tupper\texact\tretained\ttheta\n")
    }
}

/// The name of a row and a tab, or nothing if there is no name.
pub(crate) fn row_name<A: Allocator>(alloc: A, name: Option<&[u8]>) -> Result<String<A>, AllocError>
    ensures { IfOk result (λ text. string_bytes text ≡ tsv_name (option_map (λ s. s.now) name.entry)) }
{
    let Some(name) = name else {
        return Ok(String::new(alloc));
    };
    let mut text = escaped_bytes(alloc, name)?;
    text.push_str("\t")?;
    Ok(text)
}

/// Appends the values of a report in a table, and the end of their row.
fn put_values<A: Allocator>(row: &mut String<A>, report: Report) -> Result<(), AllocError>
    ensures { OnOk result (string_bytes row.new ≡ string_bytes row.old ++ tsv_values report) }
{
    let estimate = report.estimate;
    let lower = report.interval.lower;
    let upper = report.interval.upper;
    let exact = report.exact;
    let retained = report.retained;
    let theta = report.theta;
    write!(
        row,
        "{estimate}\t{lower}\t{upper}\t{exact}\t{retained}\t{theta}\n"
    )
}

/// The row of a report in a table: its values in the order of `tsv_head`, separated by tabs, after the name if there
/// is one, which may have any bytes (`escaped_bytes`).
pub fn tsv_row<A: Allocator>(
    alloc: A,
    name: Option<&[u8]>,
    report: Report,
) -> Result<String<A>, AllocError>
    ensures { IfOk result (λ text. string_bytes text ≡ tsv_row (option_map (λ s. s.now) name.entry) report) }
{
    let mut row = row_name(alloc, name)?;
    put_values(&mut row, report)?;
    Ok(row)
}

/// The beginning of a JSON object: its brace, and the field of a name with a comma if there is a name.
pub(crate) fn object_head<A: Allocator>(
    alloc: A,
    name: Option<&str>,
) -> Result<String<A>, AllocError>
    ensures { IfOk result (λ text. string_bytes text ≡ json_head (option_map (λ s. s.now) name.entry)) }
{
    let Some(name) = name else {
        return String::from_str(alloc, "{");
    };
    let mut text = String::from_str(alloc, "{\"name\":")?;
    put_json_string(&mut text, name)?;
    text.push_str(",")?;
    Ok(text)
}

/// Appends the fields of a report in a JSON object.
pub(crate) fn put_fields<A: Allocator>(
    line: &mut String<A>,
    report: Report,
) -> Result<(), AllocError>
    ensures { OnOk result (string_bytes line.new ≡ string_bytes line.old ++ json_fields report) }
{
    let estimate = report.estimate;
    let lower = report.interval.lower;
    let upper = report.interval.upper;
    let exact = report.exact;
    let retained = report.retained;
    let theta = report.theta;
    write!(
        line,
        "\"estimate\":{estimate},\"lower\":{lower},\"upper\":{upper},\"exact\":{exact},\"retained\":{retained},\"theta\":{theta}"
    )
}

/// A report as a JSON object on a line, with the name as its first field if there is one.
pub fn json_line<A: Allocator>(
    alloc: A,
    name: Option<&str>,
    report: Report,
) -> Result<String<A>, AllocError>
    ensures { IfOk result (λ text. string_bytes text ≡ json_line (option_map (λ s. s.now) name.entry) report) }
{
    let mut line = object_head(alloc, name)?;
    put_fields(&mut line, report)?;
    line.push_str("}\n")?;
    Ok(line)
}
